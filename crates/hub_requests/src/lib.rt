//! What the program can be asked to do. The reader of command lines makes these, and the commands perform them; neither
//! needs the other.
#![tactic(auto)]

pub mod identity;
pub mod limits;
pub mod serving;

ghost use Rattle.std.specs.Prelude.{◌≡◌, ◌≤◌, SomeIff};
ghost use Rattle.change_ops.specs.Sizes.{most_sessions};

use crate::limits::SessionOptions;
use crate::serving::{Doors, StoreFile, Terms};
use change_ops::attribute::Link;
use change_ops::size::Size;
use filter_cases::report::ReportForm;
use filters::rules::RuleSet;
use std::marker::Model;

/// The most bytes that the text of a link has.
pub const MOST_LINK_BYTES: u32 = 1_024;

/// How many steps `run` lets a run take.
#[derive(Clone, Copy)]
pub enum RunLimit {
    /// As many as the program has slots.
    Slots,
    /// As many as a program that loops may take.
    Longest,
}

/// What the options of `run` say of the span, and how long the run may be.
#[derive(Drop)]
pub struct SpanOptions {
    pub limit: RunLimit,
    pub flags: u32,
    pub color: u32,
    pub link: Option<Link>,
    pub comments: u32,
    pub index: u32,
    pub count: u32,
    pub version: u64,
}

/// What `check` says of a program.
#[derive(Clone, Copy)]
pub enum Detail {
    /// Whether it is accepted.
    Verdict,
    /// Then also why: what the verifier knows at the slot at fault, or what an accepted program can do.
    Reason,
    /// Then also the instructions, and what the verifier knows before each.
    Listing,
}

/// What `run` says of a run.
#[derive(Clone, Copy)]
pub enum Shown {
    /// How it ends.
    Outcome,
    /// First also its steps.
    Steps,
}

/// What the program is asked to do with its whole input.
#[derive(Drop)]
pub enum Command {
    /// To assemble it.
    Asm,
    /// To say whether the program that it is in hexadecimal is accepted.
    Check {
        detail: Detail,
        rules: RuleSet,
    },
    /// To print the text of the program that it is in hexadecimal.
    Dis,
    /// To print its changes joined, as few changes of the same operations, where a text of this size holds them.
    Join {
        size: Size,
    },
    /// To run a program, in hexadecimal, on the span whose text it is.
    Run {
        shown: Shown,
        digits: String,
        options: SpanOptions,
    },
    /// To print the spans that its changes make, where a text of this size holds them.
    Spans {
        size: Size,
    },
    /// To print a program of the same meaning as the one that it is in hexadecimal, without jumps back.
    Straighten,
    /// To test a program, in hexadecimal, that these rules accept on the cases that it has.
    Test {
        rules: RuleSet,
        form: ReportForm,
        digits: String,
    },
}

/// The most threads that a session's filtering may have.
pub const MOST_WORKERS: u32 = 16;

/// How many threads a session filters versions with, 1 to 16.
#[derive(Clone, Copy)]
pub struct Workers {
    count: usize,
}

impl Model for Workers {
    ghost use Rattle.std.specs.Prelude.{ℕ, ◌≤◌};

    ghost Value = { ℕ };

    ghost view = { λ w. w.count };

    ghost invariant = { λ w. (1 ≤ w.count) × (w.count ≤ 16) };

    ghost inverse = { λ n. record { count = n } };
}

impl Workers {
    /// One.
    pub fn one() -> Self
        ensures { result ≡ 1 }
    {
        Workers { count: 1 }
    }

    /// This count, if it is within the limits.
    pub fn new(count: u32) -> Option<Self>
        ensures { SomeIff result ((1 ≤ count) × (count ≤ 16)) count }
    {
        if count >= 1 && count <= MOST_WORKERS {
            Some(Workers {
                count: count as usize,
            })
        } else {
            None
        }
    }

    pub fn count(self) -> usize
        ensures value { result ≡ self }
        ensures limits { (1 ≤ result) × (result ≤ 16) }
    {
        self.count
    }
}

/// How many sessions are served before the program ends, or at once: 1 to as many as the hub's size allows.
#[derive(Clone, Copy)]
pub struct Sessions {
    count: usize,
}

impl Model for Sessions {
    ghost use Rattle.std.specs.Prelude.{ℕ, ◌≤◌};

    ghost Value = { ℕ };

    ghost view = { λ s. s.count };

    ghost invariant = { λ s. (1 ≤ s.count) × (s.count ≤ 256) };

    ghost inverse = { λ n. record { count = n } };
}

impl Sessions {
    /// This count, if it is within the limits of the size.
    pub fn new(size: Size, count: u32) -> Option<Self>
        ensures { SomeIff result ((1 ≤ count) × (count ≤ most_sessions size)) count }
    {
        let count = count as usize;
        if count >= 1 && count <= size.sessions() {
            Some(Sessions { count })
        } else {
            None
        }
    }

    /// As many as the size allows.
    pub fn most(size: Size) -> Self
        ensures { result ≡ most_sessions size }
    {
        Sessions {
            count: size.sessions(),
        }
    }

    pub fn count(self) -> usize
        ensures value { result ≡ self }
        ensures limits { (1 ≤ result) × (result ≤ 256) }
    {
        self.count
    }
}

/// What the program is asked to do.
#[derive(Drop)]
pub enum Request {
    Perform(Command),
    /// To make a new store of the changes that a file keeps, which may have no sums on its pages.
    Adopt {
        size: Size,
        from: String,
        to: String,
    },
    /// To answer the session that its input is, line by line, and to keep its changes in a file.
    Replay {
        size: Size,
        workers: Workers,
        options: SessionOptions,
        store: Option<StoreFile>,
    },
    /// To answer sessions at doors, and to keep their changes in a file.
    Serve {
        doors: Doors,
        terms: Terms,
        store: Option<StoreFile>,
    },
}
