use crate::hint::Hint;

/// How a command ended that answered its input.
#[derive(Drop)]
pub struct Ended {
    /// The exit status.
    pub status: u8,
    /// What is wrong with the form of the input, where it is easily put right: to be said if it is refused.
    pub hint: Option<Hint>,
    /// Which word of the input it is refused for, in words; to be said where there is no hint.
    pub word: Option<String>,
}
