//! What the labels of a program say.

use label_potentials::potential::Potential;
use tracked_state::state::TrackedState;

/// What is known of the machine at a slot, and how many steps are left there at most.
#[derive(Drop)]
pub struct Label {
    pub state: TrackedState,
    pub potential: Potential,
}

/// How many steps runs may take: a constant, and so many for each byte of the text and of the link's text.
#[derive(Clone, Copy)]
pub struct Bound {
    pub constant: u64,
    pub per_byte: u32,
    pub per_link_byte: u32,
}
