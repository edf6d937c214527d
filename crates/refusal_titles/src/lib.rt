//! The number and name of each refusal, as replies and errors print them: the one table of them.
#![tactic(auto)]

// Bytes that are no program.

pub const EMPTY: &str = "1 Empty";

pub const TOO_LONG: &str = "2 TooLong";

pub const LENGTH_NOT_EIGHT: &str = "3 LengthNotEight";

pub const UNKNOWN_OPCODE: &str = "4 UnknownOpcode";

pub const OUT_OF_PROFILE: &str = "5 OutOfProfile";

pub const UNUSED_FIELD: &str = "6 UnusedField";

pub const BAD_REGISTER: &str = "7 BadRegister";

pub const BAD_WIDTH: &str = "8 BadWidth";

pub const TRUNCATED_WIDE: &str = "9 TruncatedWide";

// Programs whose jumps or ends are at fault.

pub const BACKWARD_JUMP: &str = "10 BackwardJump";

pub const JUMP_OUT: &str = "11 JumpOut";

pub const JUMP_INTO_WIDE: &str = "12 JumpIntoWide";

pub const FALL_OFF: &str = "13 FallOff";

pub const WRITE_R10: &str = "14 WriteR10";

// Programs that may go wrong in a run.

pub const UNSET_REGISTER: &str = "15 UnsetRegister";

pub const POINTER_ARITHMETIC: &str = "16 PointerArithmetic";

pub const POINTER_COMPARE: &str = "17 PointerCompare";

pub const CONTEXT_FIELD: &str = "18 ContextField";

pub const STACK_BOUNDS: &str = "19 StackBounds";

pub const STACK_UNSET: &str = "20 StackUnset";

pub const TEXT_BOUNDS: &str = "21 TextBounds";

pub const TEXT_OFFSET: &str = "22 TextOffset";

pub const READ_ONLY_STORE: &str = "23 ReadOnlyStore";

pub const NOT_AN_ADDRESS: &str = "24 NotAnAddress";

pub const POINTER_STORE: &str = "25 PointerStore";

pub const RETURN_POINTER: &str = "26 ReturnPointer";

pub const VERIFIER_OUT_OF_MEMORY: &str = "27 OutOfMemory";

// Texts that are no assembler text.

pub const SYNTAX: &str = "30 Syntax";

pub const UNKNOWN_NAME: &str = "31 UnknownName";

pub const NUMBER_RANGE: &str = "32 NumberRange";

pub const UNKNOWN_LABEL: &str = "33 UnknownLabel";

pub const LABEL_TWICE: &str = "34 LabelTwice";

pub const JUMP_RANGE: &str = "35 JumpRange";

pub const ASSEMBLER_OUT_OF_MEMORY: &str = "36 OutOfMemory";

// Changes that can't be read.

pub const BAD_LINE: &str = "40 BadLine";

pub const TRUNCATED: &str = "41 Truncated";

pub const LIMIT: &str = "42 Limit";

pub const CHAR_REFUSED: &str = "43 CharRefused";

pub const WRONG_PEER: &str = "44 WrongPeer";

pub const OUT_OF_MEMORY: &str = "45 OutOfMemory";

// Changes that aren't accepted.

pub const STALE_COUNTER: &str = "46 StaleCounter";

pub const UNKNOWN_REF: &str = "47 UnknownRef";

pub const DOCUMENT_FULL: &str = "48 DocumentFull";

pub const MARKS_FULL: &str = "49 MarksFull";

pub const HISTORY_FULL: &str = "50 HistoryFull";

// Subscribers.

pub const SUBSCRIBERS_FULL: &str = "51 SubscribersFull";

pub const NO_SUBSCRIBER: &str = "52 NoSubscriber";

pub const STALE: &str = "53 Stale";

pub const BAD_CAPACITY: &str = "54 BadCapacity";

pub const NO_VERSION: &str = "55 NoVersion";

// Lines and inputs.

pub const BAD_COMMAND: &str = "60 BadCommand";

pub const LINE_TOO_LONG: &str = "61 LineTooLong";

pub const TEXT_REFUSED: &str = "62 TextRefused";

pub const BAD_HEX: &str = "63 BadHex";

// What keeps a hub's changes, and a server that has no session left.

pub const STORE_DAMAGED: &str = "65 StoreDamaged";

pub const STORE_FAILED: &str = "66 StoreFailed";

pub const STORE_BUSY: &str = "67 StoreBusy";

pub const TOO_MANY_SESSIONS: &str = "69 TooManySessions";
