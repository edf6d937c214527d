//! What is wanted of a value to which a constant is added.
ghost use Rattle.std.specs.Prelude.{◌≡◌};
ghost use Rattle.need_trails.specs.Origins.{before_adding};

use crate::numbers::{difference, moved, opposite, sum};
use refusal_needs::wanted::Need;

/// What is wanted of a value to which a constant is added, so that this is so of the sum.
#[tactic(auto, unfolding(crate::specs::Origins::before_adding))]
pub(crate) fn before_adding(need: Need, by: i64) -> Option<Need>
    ensures { result ≡ before_adding need by }
{
    match need {
        Need::Set => None,
        Need::Number => Some(Need::Number),
        Need::OneNumber => Some(Need::OneNumber),
        Need::Address => Some(Need::Address),
        Need::StackAddress => Some(Need::StackAddress),
        Need::Within(region, bytes) => Some(Need::Within(region, sum(bytes, by)?)),
        Need::Behind(region, bytes) => Some(Need::Behind(region, difference(bytes, by)?)),
        Need::AtMost(most) => Some(Need::AtMost(moved(most, opposite(by)?)?)),
    }
}
