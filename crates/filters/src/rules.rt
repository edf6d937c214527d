//! By which rules a program is accepted as a filter.

use span_context::profile::Profile;

/// The rules of a profile, by which no program has a jump back, or those by which programs may loop.
#[derive(Clone, Copy)]
pub enum RuleSet {
    /// Contexts 1 to 3.
    Straight(Profile),
    /// Context 4: a program without a jump back by the rules of the third profile, and one with a jump back where a
    /// bound of its steps is found and checked.
    Looping,
}
