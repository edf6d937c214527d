//! Forms in the two lengths, and potentials as forms less what holders hold.

use abstract_state::state::AbsState;
use label_potentials::counted::counted;
use label_potentials::potential::{Base, Holder, Potential, Term};
use span_context::context::{LINK_LIMIT, TEXT_LIMIT};

/// A constant, so many for each byte of the text and of the link's text.
#[derive(Clone, Copy)]
pub(crate) struct Linear {
    pub constant: i64,
    pub per_byte: i32,
    pub per_link_byte: i32,
}

impl Linear {
    pub(crate) fn nothing() -> Linear {
        Linear {
            constant: 0,
            per_byte: 0,
            per_link_byte: 0,
        }
    }

    /// No less than either.
    pub(crate) fn greater(self, other: Linear) -> Linear {
        Linear {
            constant: self.constant.max(other.constant),
            per_byte: self.per_byte.max(other.per_byte),
            per_link_byte: self.per_link_byte.max(other.per_link_byte),
        }
    }

    /// What it is at the longest texts.
    pub(crate) fn most(self) -> i64 {
        let text = i64::from(self.per_byte).saturating_mul(TEXT_LIMIT as i64);
        let link = i64::from(self.per_link_byte).saturating_mul(LINK_LIMIT as i64);
        self.constant.saturating_add(text).saturating_add(link)
    }

    /// What it is whatever the lengths are.
    pub(crate) fn each(self) -> i64 {
        if self.per_byte == 0 && self.per_link_byte == 0 {
            self.constant
        } else {
            self.most()
        }
    }
}

pub(crate) fn no_term() -> Term {
    Term {
        weight: 0,
        holder: Holder::Register(0),
        base: Base::Zero,
    }
}

/// The potential of one step.
pub(crate) fn one_step() -> Potential {
    Potential {
        constant: 1,
        per_byte: 0,
        per_link_byte: 0,
        less: [no_term(); 8],
    }
}

/// The potential and so much more.
pub(crate) fn with_more(potential: &Potential, more: Linear) -> Option<Potential> {
    Some(Potential {
        constant: potential.constant.checked_add(more.constant)?,
        per_byte: potential.per_byte.checked_add(more.per_byte)?,
        per_link_byte: potential.per_link_byte.checked_add(more.per_link_byte)?,
        less: potential.less,
    })
}

/// What a term takes away at least.
fn least_weight(state: &AbsState, term: &Term) -> Option<i64> {
    if term.weight == 0 {
        return Some(0);
    }
    let quantity = counted(state, term.holder, term.base)?;
    let value = if term.weight > 0 {
        quantity.range.low
    } else {
        quantity.range.high
    };
    i64::from(term.weight).checked_mul(i64::try_from(value).ok()?)
}

/// What a potential is at most in a state.
pub(crate) fn greatest(state: &AbsState, potential: &Potential) -> Option<Linear> {
    let mut constant = potential.constant;
    for term in &potential.less {
        constant = constant.checked_sub(least_weight(state, term)?)?;
    }
    Some(Linear {
        constant,
        per_byte: potential.per_byte,
        per_link_byte: potential.per_link_byte,
    })
}
