//! The verdict that a case wants.
ghost use Rattle.std.specs.Prelude.{◌≡◌, Some};
ghost use Rattle.std.specs.Option.{option_map};
ghost use Rattle.change_ops.specs.Words.{number_in, small};
ghost use Rattle.filter_cases.specs.Wanted.{is_met, wanted_at, wanted_text};

use change_ops::numeral::decimal_number;
use std::fmt;

const HIT: &[u8] = b"hit";

/// Which verdicts pass.
#[derive(Clone, Copy)]
pub enum Wanted {
    /// This one.
    Verdict(u64),
    /// Any but 0.
    Hit,
}

impl Wanted {
    /// Whether a verdict passes.
    pub fn is_met(self, verdict: u64) -> bool
        ensures { result ≡ is_met self verdict }
    {
        match self {
            Wanted::Verdict(wanted) => verdict == wanted,
            Wanted::Hit => verdict != 0,
        }
    }

    /// What a word says that is wanted.
    pub(crate) fn of_word(word: &[u8]) -> Option<Wanted>
        ensures { result ≡ wanted_at word.now }
    {
        if word == HIT {
            return Some(Wanted::Hit);
        }
        let verdict = decimal_number(word)?;
        Some(Wanted::Verdict(verdict))
    }
}

impl fmt::Display for Wanted {
    ghost output = { λ wanted. Some (wanted_text wanted) };

    fn fmt<W: fmt::Write>(&self, f: &mut fmt::Formatter<W>) -> fmt::Result {
        match *self {
            Wanted::Verdict(verdict) => write!(f, "{verdict}"),
            Wanted::Hit => f.write_str("hit"),
        }
    }
}
