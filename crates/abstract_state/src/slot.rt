use crate::known::Known;

/// Eight bytes of the stack: which of them are set, or what is known of the one number that stands in them.
#[derive(Clone, Copy)]
pub enum Slot {
    Marks([bool; 8]),
    Spilled(Known),
}
