use std::fmt;

/// A character's or an operation's id; ordered by counter, then by node.
#[derive(Clone, Copy, PartialEq, Eq, PartialOrd, Ord)]
pub struct Id {
    pub counter: u64,
    pub node: u64,
}

impl fmt::Display for Id {
    fn fmt<W: fmt::Write>(&self, f: &mut fmt::Formatter<W>) -> fmt::Result {
        let Id { counter, node } = *self;
        write!(f, "{counter}@{node}")
    }
}

/// Where a mark starts or ends.
#[derive(Clone, Copy)]
pub enum Anchor {
    Start,
    Before(Id),
    After(Id),
    End,
}

impl fmt::Display for Anchor {
    fn fmt<W: fmt::Write>(&self, f: &mut fmt::Formatter<W>) -> fmt::Result {
        match *self {
            Anchor::Start => write!(f, "^"),
            Anchor::Before(id) => write!(f, "<{id}"),
            Anchor::After(id) => write!(f, ">{id}"),
            Anchor::End => write!(f, "$"),
        }
    }
}
