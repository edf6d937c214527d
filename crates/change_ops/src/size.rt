//! How much a document may hold over its life, and its hub at one time.
ghost use Rattle.std.specs.Prelude.{◌≡◌};
ghost use Rattle.change_ops.specs.Sizes.{most_characters, most_marks, most_changes};
ghost use Rattle.change_ops.specs.Sizes.{most_subscribers, most_open, most_sessions};

/// How much a document may hold over its life, and its hub at one time; whoever makes one chooses it once.
#[derive(Clone, Copy)]
pub enum Size {
    /// 32,768 characters, 4,096 mark operations, 4,096 changes; 64 subscribers and 64 sessions.
    Small,
    /// 262,144 characters, 16,384 mark operations, 65,536 changes; 4,096 subscribers, 256 of them at one time, and 256
    /// sessions.
    Large,
}

/// The most bytes that the visible characters of a document take as UTF-8, at each size.
pub const BYTE_LIMIT: usize = 131072;

impl Size {
    /// The most characters that are inserted, removed ones too.
    pub fn characters(self) -> usize
        ensures { result ≡ most_characters self }
    {
        match self {
            Size::Small => 32768,
            Size::Large => 262144,
        }
    }

    /// The most mark operations.
    pub fn marks(self) -> usize
        ensures { result ≡ most_marks self }
    {
        match self {
            Size::Small => 4096,
            Size::Large => 16384,
        }
    }

    /// The most changes that are accepted.
    pub fn changes(self) -> usize
        ensures { result ≡ most_changes self }
    {
        match self {
            Size::Small => 4096,
            Size::Large => 65536,
        }
    }

    /// The most subscribers, closed ones too.
    pub fn subscribers(self) -> usize
        ensures { result ≡ most_subscribers self }
    {
        match self {
            Size::Small => 64,
            Size::Large => 4096,
        }
    }

    /// The most subscribers that are not closed.
    pub fn open_subscribers(self) -> usize
        ensures { result ≡ most_open self }
    {
        match self {
            Size::Small => 64,
            Size::Large => 256,
        }
    }

    /// The most sessions at one time.
    pub fn sessions(self) -> usize
        ensures { result ≡ most_sessions self }
    {
        match self {
            Size::Small => 64,
            Size::Large => 256,
        }
    }
}
