ghost use Rattle.std.specs.Prelude.{◌≡◌, ℕ, ◌+◌, ◌-◌, ◌%◌, ◌^◌, ◌<◌, IsTrue, nat_eq};
ghost use Rattle.semantics.specs.Value.{bits_of};
ghost use Rattle.value_marks.specs.Mark as rules;

use bpf_words::instruction::Width;

/// A value's name: its low bits, as many as the width has, are those of the value that was named at the slot `origin`,
/// and the addend. Jumps lead forward, so a run meets a slot once at most, and a slot names one value.
#[derive(Clone, Copy)]
pub struct Mark {
    pub origin: usize,
    pub addend: u64,
    pub width: Width,
}

impl Mark {
    /// A name for the value that the instruction at a slot copies.
    pub fn new(slot: usize) -> Mark
        ensures { result ≡ rules.new_mark slot }
    {
        Mark {
            origin: slot,
            addend: 0,
            width: Width::Full,
        }
    }

    /// The mark after a number is added.
    pub fn raised(self, by: u64) -> Mark
        ensures { result ≡ rules.raised_mark by self }
    {
        Mark {
            origin: self.origin,
            addend: self.addend.wrapping_add(by),
            width: self.width,
        }
    }

    /// The mark after a number is taken away.
    pub fn lowered(self, by: u64) -> Mark
        ensures { result ≡ rules.lowered_mark by self }
    {
        Mark {
            origin: self.origin,
            addend: self.addend.wrapping_sub(by),
            width: self.width,
        }
    }

    /// The mark of the low bits.
    pub fn cut_to(self, width: Width) -> Mark
        ensures { result ≡ rules.cut_mark width self }
    {
        match width {
            Width::Full => self,
            Width::Narrow => Mark {
                origin: self.origin,
                addend: self.addend,
                width: Width::Narrow,
            },
        }
    }

    /// The bits of which both marks tell.
    pub fn common_width(self, other: Mark) -> Width
        ensures { result ≡ rules.narrower self.width other.width }
    {
        match self.width {
            Width::Full => other.width,
            Width::Narrow => Width::Narrow,
        }
    }

    /// By how much a value with the other mark is ahead of one with this mark, modulo the width.
    pub fn distance_to(self, other: Mark, width: Width) -> u64
        ensures value { result ≡ rules.distance width self other }
        ensures fits { result < 2 ^ bits_of width }
    {
        let ahead = other.addend.wrapping_sub(self.addend);
        match width {
            Width::Full => ahead,
            Width::Narrow => ahead % (1 << 32),
        }
    }
}
