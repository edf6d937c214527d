//! Potentials of labels, as the check holds them.
ghost use Rattle.std.specs.Prelude.{◌≡◌, ◌<◌, slice_index_or};
ghost use Rattle.label_potentials.specs.declared.potential.Term.{Term as TheTerm};

/// What may hold a number: a register, by its number, or eight bytes of the stack, counted in eights.
#[derive(Clone, Copy)]
pub enum Holder {
    Register(u8),
    StackSlot(u8),
}

/// From where it is counted: a number from 0, an address from where its region begins.
#[derive(Clone, Copy)]
pub enum Base {
    Zero,
    Text,
    Link,
}

/// A weight on what a holder holds.
#[derive(Clone, Copy)]
pub struct Term {
    pub weight: i32,
    pub holder: Holder,
    pub base: Base,
}

/// How many steps a run has left at most: a constant, so many for each byte of the text and of the link's text, less
/// what holders hold by their weights. A term of weight 0 is none.
#[derive(Clone, Copy)]
pub struct Potential {
    pub constant: i64,
    pub per_byte: i32,
    pub per_link_byte: i32,
    pub less: [Term; 8],
}

/// The term at a place.
#[tactic(auto, using(std::proofs::lemmas::List::get_or_default))]
pub fn term_at(terms: &[Term; 8], place: usize) -> Term
    requires { place < 8 }
    ensures { (none : TheTerm) → result ≡ slice_index_or terms.now place none }
{
    terms[place]
}
