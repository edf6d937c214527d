/// What a session asks to read. Where a hub isn't read, each of these is answered as a line of no form.
#[derive(Clone, Copy)]
pub enum Query {
    /// The number of the latest version.
    Latest,
    /// How much the hub still takes.
    Left,
    /// Which hub it is.
    Hub,
    /// How much there is of the hub.
    Stats,
    /// `count` spans of a version, from this one on, 1 to 1,024; `further` with keys of the third form of changes.
    Show {
        version: u64,
        first: u64,
        count: u64,
        further: bool,
    },
    /// `count` accepted changes behind this version, 1 to 64.
    Changes {
        from: u64,
        count: u64,
    },
    /// The greatest counter of a peer's accepted operations. The number may be none of a peer.
    Newest {
        node: u64,
    },
}
