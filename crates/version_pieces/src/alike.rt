//! Which spans of a version stand as they stood in the one before it.

/// How many spans of two versions are the same: from the first one on, and up to the last one.
#[derive(Clone, Copy)]
pub struct Alike {
    pub front: usize,
    pub behind: usize,
}
