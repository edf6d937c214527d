//! Comparisons of which more is known than their sides tell.
ghost use Rattle.std.specs.Prelude.{◌≡◌, Option, option_map};
ghost use Rattle.tracked_state.specs.Tracked.{tracked_of};
ghost use Rattle.loop_states.specs.Sharper as rules;

use crate::leads::lead;
use bpf_words::instruction::{Comparison, Operand, Width};
use bpf_words::register::Register;
use tracked_state::state::TrackedState;

/// How the left side of a comparison may stand to the right one.
#[derive(Clone, Copy)]
pub struct Outcomes {
    pub less: bool,
    pub equal: bool,
    pub greater: bool,
}

/// An edge of a comparison by what is known of its sides.
#[derive(Clone, Copy)]
pub enum Sharper {
    /// No more than the comparison itself tells.
    Same,
    /// No run goes there.
    Never,
    /// It is the edge where this comparison holds.
    Where(Comparison),
}

/// Where a comparison holds; of bits and of signs nothing is said.
fn where_holding(comparison: Comparison) -> Option<Outcomes>
    ensures { result ≡ rules.where_holding comparison }
{
    let (less, equal, greater) = match comparison {
        Comparison::Equal => (false, true, false),
        Comparison::NotEqual => (true, false, true),
        Comparison::Less => (true, false, false),
        Comparison::LessOrEqual => (true, true, false),
        Comparison::Greater => (false, false, true),
        Comparison::GreaterOrEqual => (false, true, true),
        _ => return None,
    };
    Some(Outcomes {
        less,
        equal,
        greater,
    })
}

impl Outcomes {
    fn on_edge(self, taken: bool) -> Outcomes
        ensures { result ≡ rules.on_edge taken self }
    {
        if taken {
            return self;
        }
        Outcomes {
            less: !self.less,
            equal: !self.equal,
            greater: !self.greater,
        }
    }

    /// Those that are left where the right side is ahead by so much.
    fn right_ahead(self, lead: Option<u64>) -> Outcomes
        ensures { result ≡ rules.right_ahead lead self }
    {
        match lead {
            None => self,
            Some(0) => Outcomes {
                greater: false,
                ..self
            },
            Some(_) => Outcomes {
                equal: false,
                greater: false,
                ..self
            },
        }
    }

    /// Those that are left where the left side is.
    fn left_ahead(self, lead: Option<u64>) -> Outcomes
        ensures { result ≡ rules.left_ahead lead self }
    {
        match lead {
            None => self,
            Some(0) => Outcomes {
                less: false,
                ..self
            },
            Some(_) => Outcomes {
                less: false,
                equal: false,
                ..self
            },
        }
    }

    /// The comparison that holds so.
    fn sharper(self) -> Sharper
        ensures { result ≡ rules.holding_where self.less self.equal self.greater }
    {
        match (self.less, self.equal, self.greater) {
            (false, false, false) => Sharper::Never,
            (true, false, false) => Sharper::Where(Comparison::Less),
            (false, true, false) => Sharper::Where(Comparison::Equal),
            (false, false, true) => Sharper::Where(Comparison::Greater),
            (true, true, false) => Sharper::Where(Comparison::LessOrEqual),
            (false, true, true) => Sharper::Where(Comparison::GreaterOrEqual),
            (true, false, true) => Sharper::Where(Comparison::NotEqual),
            (true, true, true) => Sharper::Same,
        }
    }
}

fn sharper_by(right: Option<u64>, left: Option<u64>, outcomes: Option<Outcomes>) -> Sharper
    ensures { result ≡ rules.sharper_by right left outcomes }
{
    if right.is_none() && left.is_none() {
        return Sharper::Same;
    }
    match outcomes {
        Some(outcomes) => outcomes.right_ahead(right).left_ahead(left).sharper(),
        None => Sharper::Same,
    }
}

/// The edge of a comparison where it holds, if it is taken, or else the other.
pub(crate) fn sharper_edge(
    state: &TrackedState,
    width: Width,
    comparison: Comparison,
    left: Register,
    right: &Operand,
    taken: bool,
) -> Sharper
    ensures { result ≡ rules.sharper_in width comparison left right.now taken (tracked_of state.now) }
{
    let Operand::Source(right) = *right else {
        return Sharper::Same;
    };
    let outcomes = where_holding(comparison).map(|outcomes| outcomes.on_edge(taken));
    sharper_by(
        lead(state, width, left, right),
        lead(state, width, right, left),
        outcomes,
    )
}
