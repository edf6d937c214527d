//! Requests of a session that are refused, of each kind, by the tables of docs/REFUSALS.md and docs/SESSIONS.md.

/// Requests that are refused wherever they stand in a session that has the operation `1@1`, fewer than 64 subscribers,
/// and no operation of the node 9, with their replies. The great counters of some would make all later operations of
/// their node stale.
pub static REFUSED: [(&str, &str); 68] = [
    ("sub 8 zz\n", "no 63 BadHex"),
    ("sub 8 b7000000010000009g00000000000000\n", "no 63 BadHex"),
    ("sub 8 9\n", "no 63 BadHex"),
    (
        "sub 8 b70000000100000095000000000000\n",
        "no 3 LengthNotEight",
    ),
    (
        "sub 8 ff000000000000009500000000000000\n",
        "no 4 UnknownOpcode slot 0",
    ),
    (
        "sub 8 b70000000000000085000000010000009500000000000000\n",
        "no 5 OutOfProfile slot 1",
    ),
    (
        "sub 8 b7000000000000009500000001000000\n",
        "no 6 UnusedField slot 1",
    ),
    (
        "sub 8 b70b0000000000009500000000000000\n",
        "no 7 BadRegister slot 0",
    ),
    (
        "sub 8 b70000000000000037000200010000009500000000000000\n",
        "no 8 BadWidth slot 1",
    ),
    (
        "sub 8 b7000000000000001800000001000000\n",
        "no 9 TruncatedWide slot 1",
    ),
    (
        "sub 8 b7000000000000000500feff000000009500000000000000\n",
        "no 10 BackwardJump slot 1",
    ),
    (
        "sub 8 b70000000000000005000100000000009500000000000000\n",
        "no 11 JumpOut slot 1",
    ),
    (
        "sub 8 0500010000000000180000000100000000000000000000009500000000000000\n",
        "no 12 JumpIntoWide slot 0",
    ),
    (
        "sub 8 9500000000000000b700000000000000\n",
        "no 13 FallOff slot 1",
    ),
    (
        "sub 8 b70a0000010000009500000000000000\n",
        "no 14 WriteR10 slot 0",
    ),
    ("sub 8 9500000000000000\n", "no 15 UnsetRegister slot 0"),
    (
        "sub 8 2701000002000000b7000000000000009500000000000000\n",
        "no 16 PointerArithmetic slot 0",
    ),
    (
        "sub 8 79120000000000001502000000000000b7000000000000009500000000000000\n",
        "no 17 PointerCompare slot 1",
    ),
    (
        "sub 8 79101000000000009500000000000000\n",
        "no 18 ContextField slot 0",
    ),
    (
        "sub 8 79a0f8fd000000009500000000000000\n",
        "no 19 StackBounds slot 0",
    ),
    (
        "sub 8 79a0f8ff000000009500000000000000\n",
        "no 20 StackUnset slot 0",
    ),
    (
        "sub 8 791100000000000071100100000000009500000000000000\n",
        "no 21 TextBounds slot 1",
    ),
    (
        "sub 8 791200000000000061131c00000000000f32000000000000b7000000000000009500000000000000\n",
        "no 22 TextOffset slot 2",
    ),
    (
        "sub 8 7a01000000000000b7000000000000009500000000000000\n",
        "no 23 ReadOnlyStore slot 0",
    ),
    (
        "sub 8 b70200000000000061200000000000009500000000000000\n",
        "no 24 NotAnAddress slot 1",
    ),
    (
        "sub 8 631afcff00000000b7000000000000009500000000000000\n",
        "no 25 PointerStore slot 0",
    ),
    (
        "sub 8 bf100000000000009500000000000000\n",
        "no 26 ReturnPointer slot 1",
    ),
    (
        "sub 0 b7000000010000009500000000000000\n",
        "no 54 BadCapacity",
    ),
    (
        "sub 1025 b7000000010000009500000000000000\n",
        "no 54 BadCapacity",
    ),
    ("pull 64 1\n", "no 52 NoSubscriber"),
    ("close 64\n", "no 52 NoSubscriber"),
    ("pull 18446744073709551615 1024\n", "no 52 NoSubscriber"),
    ("close 18446744073709551615\n", "no 52 NoSubscriber"),
    ("hello\n", "no 60 BadCommand"),
    ("\n", "no 60 BadCommand"),
    ("pull 0\n", "no 60 BadCommand"),
    ("pull 0 0\n", "no 60 BadCommand"),
    ("pull 0 1025\n", "no 60 BadCommand"),
    ("pull 00 1\n", "no 60 BadCommand"),
    ("pull  0 1\n", "no 60 BadCommand"),
    ("close\n", "no 60 BadCommand"),
    ("close 0 \n", "no 60 BadCommand"),
    ("close -1\n", "no 60 BadCommand"),
    ("changes 1 1\n", "no 60 BadCommand"),
    ("sub 8\n", "no 60 BadCommand"),
    (
        "sub 08 b7000000010000009500000000000000\n",
        "no 60 BadCommand",
    ),
    (
        "sub 8 b7000000010000009500000000000000 \n",
        "no 60 BadCommand",
    ),
    (
        "Sub 8 b7000000010000009500000000000000\n",
        "no 60 BadCommand",
    ),
    ("change\n", "no 40 BadLine line 1"),
    ("change 01 1\n", "no 40 BadLine line 1"),
    ("change 1 1 \n", "no 40 BadLine line 1"),
    (
        "change 1 1\ni 281474976710650@1  - 61\n",
        "no 40 BadLine line 2",
    ),
    (
        "change 2 1\nm 281474976710650@2 color FF0000 ^ $\n",
        "no 40 BadLine line 2",
    ),
    (
        "change 3 3\ni 281474976710650@3 - 61\nclose 0\npull 0 1\n",
        "no 40 BadLine line 3",
    ),
    ("change 0 1\n", "no 42 Limit line 1"),
    ("change 1 257\n", "no 42 Limit line 1"),
    (
        "change 1 1\ni 281474976710656@1 - 61\n",
        "no 42 Limit line 2",
    ),
    (
        "change 1 2\ni 281474976710650@1 - 61\nm 281474976710651@1 comment:0 - ^ $\n",
        "no 42 Limit line 3",
    ),
    (
        "change 1 1\ni 281474976710650@1 - d800\n",
        "no 43 CharRefused line 2",
    ),
    (
        "change 1 2\ni 281474976710650@1 - 61\ni 281474976710651@1 - 0\n",
        "no 43 CharRefused line 3",
    ),
    (
        "change 1 1\ni 281474976710650@2 - 61\n",
        "no 44 WrongPeer line 2",
    ),
    ("change 1 1\ni 1@1 - 62\n", "no 46 StaleCounter line 2"),
    ("change 4 1\ni 5@4 6@1 61\n", "no 46 StaleCounter line 2"),
    (
        "change 2 2\ni 281474976710650@2 1@1 61\nd 281474976710650@2 1@1\n",
        "no 46 StaleCounter line 3",
    ),
    (
        "change 1 1\ni 281474976710651@1 281474976710650@9 61\n",
        "no 47 UnknownRef line 2",
    ),
    (
        "change 2 1\nd 281474976710650@2 7@9\n",
        "no 47 UnknownRef line 2",
    ),
    (
        "change 3 2\nd 281474976710650@3 1@1\ni 281474976710651@3 7@9 62\n",
        "no 47 UnknownRef line 3",
    ),
    (
        "change 1 2\nm 281474976710650@1 strong - <1@1 >1@1\nu 281474976710651@1 em ^ >7@9\n",
        "no 47 UnknownRef line 3",
    ),
];

/// Requests that are refused at the end of a session, whose last line has no LF or whose change isn't whole, with their
/// replies.
pub static LAST: [(&str, &str); 4] = [
    ("close 0", "no 60 BadCommand"),
    ("change 1 1", "no 41 Truncated"),
    ("change 1 1\ni 281474976710650@1 - 61", "no 41 Truncated"),
    ("change 1 2\ni 281474976710650@1 - 61\n", "no 41 Truncated"),
];
