//! Which part of what a span lends a program is verified to read, and by which rules.
ghost use Rattle.std.specs.Prelude.{◌≡◌, ◌≤◌};
ghost use Rattle.span_context.specs.Profile.{context_length, has_more_rules, lends_link};

/// What a program may read of a span, and the rules by which it is verified.
#[derive(Clone, Copy)]
pub enum Profile {
    /// The first 56 bytes of the context, and the text.
    One,
    /// The whole context, the text, and the text of the link.
    Two,
    /// The same as the second, by more rules: more programs are accepted.
    Three,
}

impl Profile {
    /// How many bytes of the context a program may read.
    pub fn context_length(self) -> u64
        ensures value { result ≡ context_length self }
        ensures limit { result ≤ 72 }
    {
        match self {
            Profile::One => 56,
            Profile::Two | Profile::Three => 72,
        }
    }

    /// Whether the link's text is lent.
    pub fn lends_link(self) -> bool
        ensures { result ≡ lends_link self }
    {
        match self {
            Profile::One => false,
            Profile::Two | Profile::Three => true,
        }
    }

    /// Whether a program is verified by the rules that the first two profiles leave out.
    pub fn has_more_rules(self) -> bool
        ensures { result ≡ has_more_rules self }
    {
        match self {
            Profile::One | Profile::Two => false,
            Profile::Three => true,
        }
    }
}
