//! What a session prints.
ghost use Rattle.std.specs.Prelude.{◌≡◌, ◌≤◌, ◌+◌, ◌++◌, ◌∷◌, [], OnOk, OnErr, length, string_bytes, string_len};
ghost use Rattle.std.specs.String.{string_capacity};
ghost use Rattle.std.specs.Fmt.{decimal};
ghost use Rattle.refusals.specs.Reasons.{location_text};
ghost use Rattle.session_lines.specs.Replies.{reply_text, reason_of, left_text, text_stats, user_stats};
ghost use Rattle.session_lines.specs.Replies.{used_stats, limit_stats, memory_stats};
ghost use Rattle.session_lines.specs.declared.reply.Reply.TheVariants as told;

use crate::fault::LineRefusal;
use crate::stats::{Limits, Memory, PerLimit, Stats};
use hub_requests::identity::HubId;
use itoa::Buffer;
use refusals::reason::{Location, Reason};
use std::alloc::AllocError;

/// A line that answers a request.
#[derive(Clone, Copy)]
pub enum Reply {
    /// A change made the version of this number.
    Version(u64),
    /// A subscriber has this id.
    Subscribed(usize),
    /// An item: a span whose verdict isn't 0.
    Hit {
        version: u64,
        span: usize,
        verdict: u64,
    },
    /// An item: the end of a version, and the count of its spans.
    End {
        version: u64,
        spans: usize,
    },
    /// The count of the items that were taken.
    Items(usize),
    /// No item was taken, and the hub takes no change any more.
    NoItemsFull,
    /// The subscriber of this id is closed.
    Closed(usize),
    /// The latest version has this number.
    Latest(u64),
    /// How much is left of each limit.
    Left(PerLimit),
    /// The hub has this id.
    Hub(HubId),
    /// How much there is of the hub.
    Stats(Stats),
    /// The count of the version's spans.
    Spans(usize),
    /// The count of the changes that were read.
    Changes(usize),
    /// The greatest counter of the peer's accepted operations, 0 where it has none.
    Newest(u64),
    /// Nothing was done.
    Refused(Reason),
}

/// Room for a word, a number and a LF.
const NUMBER_ROOM: usize = 33;

/// Room for a line of a hit: `hit`, three numbers of at most 20 digits, each behind a space, and a LF.
const HIT_ROOM: usize = 67;

/// Room for `ok hub ` and a LF.
const HUB_ROOM: usize = 8;

/// Room for the line of what is left: `ok left`, four numbers, each behind a space, and a LF.
const LEFT_ROOM: usize = 92;

/// Room for the line of a hub's stats: its words, twenty-one numbers, and a LF.
const STATS_ROOM: usize = 698;

/// Room for `no `, ` line ` or ` slot `, a number of at most 40 digits, and a LF, beside a refusal's number and name.
const REFUSAL_ROOM: usize = 50;

/// Appends a text for which there is room.
fn append(out: &mut String, text: &str)
    requires { string_len out.old + length text.now ≤ string_capacity out.old }
    ensures bytes { string_bytes out.new ≡ string_bytes out.old ++ text.now }
    ensures len { string_len out.new ≡ string_len out.old + length text.now }
    ensures capacity { string_capacity out.old ≤ string_capacity out.new }
{
    let _ = out.push_str(text);
}

/// Appends a word and a number, for which there is room.
fn append_number(out: &mut String, word: &str, number: u64)
    requires { string_len out.old + (length word.now + 20) ≤ string_capacity out.old }
    ensures bytes { string_bytes out.new ≡ string_bytes out.old ++ (word.now ++ decimal number) }
    ensures len { string_len out.new ≤ string_len out.old + (length word.now + 20) }
    ensures capacity { string_capacity out.old ≤ string_capacity out.new }
{
    let mut digits = Buffer::new();
    append(out, word);
    append(out, digits.format(number));
}

/// Appends where a fault is, for which there is room.
fn append_location(out: &mut String, location: Location)
    requires { string_len out.old + 46 ≤ string_capacity out.old }
    ensures bytes { string_bytes out.new ≡ string_bytes out.old ++ location_text location }
    ensures len { string_len out.new ≤ string_len out.old + 46 }
    ensures capacity { string_capacity out.old ≤ string_capacity out.new }
{
    let mut digits = Buffer::new();
    match location {
        Location::Whole => {}
        Location::Slot(slot) => append_number(out, " slot ", slot as u64),
        Location::Line(line) => {
            append(out, " line ");
            append(out, digits.format(line));
        }
    }
}

/// Appends the line of a word and a number.
fn push_number(out: &mut String, word: &str, number: u64) -> Result<(), AllocError>
    requires { length word.now ≤ 12 }
    ensures ok { OnOk result (string_bytes out.new ≡ string_bytes out.old ++ (word.now ++ decimal number ++ 10 ∷ [])) }
    ensures err { OnErr result (string_bytes out.new ≡ string_bytes out.old) }
{
    out.reserve(NUMBER_ROOM)?;
    append_number(out, word, number);
    append(out, "\n");
    Ok(())
}

/// Appends the line of a hit.
fn push_hit(out: &mut String, version: u64, span: usize, verdict: u64) -> Result<(), AllocError>
    ensures ok { OnOk result (string_bytes out.new ≡ string_bytes out.old
        ++ (reply_text (told.Hit version span verdict) ++ 10 ∷ [])) }
    ensures err { OnErr result (string_bytes out.new ≡ string_bytes out.old) }
{
    out.reserve(HIT_ROOM)?;
    append_number(out, "hit ", version);
    append_number(out, " ", span as u64);
    append_number(out, " ", verdict);
    append(out, "\n");
    Ok(())
}

/// Appends the line of a version's end.
fn push_end(out: &mut String, version: u64, spans: usize) -> Result<(), AllocError>
    ensures ok { OnOk result (string_bytes out.new ≡ string_bytes out.old
        ++ (reply_text (told.End version spans) ++ 10 ∷ [])) }
    ensures err { OnErr result (string_bytes out.new ≡ string_bytes out.old) }
{
    out.reserve(HIT_ROOM)?;
    append_number(out, "end ", version);
    append_number(out, " ", spans as u64);
    append(out, "\n");
    Ok(())
}

/// Appends the line of a pull that took nothing of a full hub.
fn push_no_items_full(out: &mut String) -> Result<(), AllocError>
    ensures ok { OnOk result (string_bytes out.new ≡ string_bytes out.old
        ++ (reply_text told.NoItemsFull ++ 10 ∷ [])) }
    ensures err { OnErr result (string_bytes out.new ≡ string_bytes out.old) }
{
    out.reserve(NUMBER_ROOM)?;
    append(out, "ok items 0 full\n");
    Ok(())
}

/// Appends the line of what is left.
fn push_left(out: &mut String, left: PerLimit) -> Result<(), AllocError>
    ensures ok { OnOk result (string_bytes out.new ≡ string_bytes out.old ++ (left_text left ++ 10 ∷ [])) }
    ensures err { OnErr result (string_bytes out.new ≡ string_bytes out.old) }
{
    out.reserve(LEFT_ROOM)?;
    append_number(out, "ok left ", left.changes);
    append_number(out, " ", left.characters);
    append_number(out, " ", left.marks);
    append_number(out, " ", left.subscribers);
    append(out, "\n");
    Ok(())
}

/// Appends the line of a hub's id.
fn push_hub(out: &mut String, id: HubId) -> Result<(), AllocError>
    ensures ok { OnOk result (string_bytes out.new ≡ string_bytes out.old ++ (reply_text (told.Hub id) ++ 10 ∷ [])) }
    ensures err { OnErr result (string_bytes out.new ≡ string_bytes out.old) }
{
    let digits = id.digits(*out.allocator())?;
    out.reserve(digits.len() + HUB_ROOM)?;
    append(out, "ok hub ");
    append(out, digits.as_str());
    append(out, "\n");
    Ok(())
}

/// Appends how much there is of the text, for which there is room.
fn append_text_stats(out: &mut String, stats: &Stats)
    requires { string_len out.old + 126 ≤ string_capacity out.old }
    ensures bytes { string_bytes out.new ≡ string_bytes out.old ++ text_stats stats.now }
    ensures len { string_len out.new ≤ string_len out.old + 126 }
    ensures capacity { string_capacity out.old ≤ string_capacity out.new }
{
    append_number(out, "ok stats versions ", stats.versions);
    append_number(out, " characters ", stats.characters);
    append_number(out, " removed ", stats.removed);
    append_number(out, " marks ", stats.marks);
}

/// Appends how many use the hub, for which there is room.
fn append_user_stats(out: &mut String, stats: &Stats)
    requires { string_len out.old + 147 ≤ string_capacity out.old }
    ensures bytes { string_bytes out.new ≡ string_bytes out.old ++ user_stats stats.now }
    ensures len { string_len out.new ≤ string_len out.old + 147 }
    ensures capacity { string_capacity out.old ≤ string_capacity out.new }
{
    append_number(out, " subscribers ", stats.subscribers);
    append_number(out, " subscribed ", stats.subscribed);
    append_number(out, " sessions ", stats.sessions);
    append_number(out, " bytes ", stats.bytes);
    append_number(out, " lag ", stats.lag);
}

/// Appends how much of each limit is used, for which there is room.
fn append_used_stats(out: &mut String, used: PerLimit)
    requires { string_len out.old + 141 ≤ string_capacity out.old }
    ensures bytes { string_bytes out.new ≡ string_bytes out.old ++ used_stats used }
    ensures len { string_len out.new ≤ string_len out.old + 141 }
    ensures capacity { string_capacity out.old ≤ string_capacity out.new }
{
    append_number(out, " changes-used ", used.changes);
    append_number(out, " characters-used ", used.characters);
    append_number(out, " marks-used ", used.marks);
    append_number(out, " subscribers-used ", used.subscribers);
}

/// Appends a hub's limits, for which there is room.
fn append_limit_stats(out: &mut String, limits: &Limits)
    requires { string_len out.old + 210 ≤ string_capacity out.old }
    ensures bytes { string_bytes out.new ≡ string_bytes out.old ++ limit_stats limits.now }
    ensures len { string_len out.new ≤ string_len out.old + 210 }
    ensures capacity { string_capacity out.old ≤ string_capacity out.new }
{
    append_number(out, " changes-limit ", limits.changes);
    append_number(out, " characters-limit ", limits.characters);
    append_number(out, " bytes-limit ", limits.bytes);
    append_number(out, " marks-limit ", limits.marks);
    append_number(out, " subscribers-limit ", limits.subscribers);
    append_number(out, " open-limit ", limits.open_subscribers);
}

/// Appends the memory of a document, if it has a limit, for which there is room.
fn append_memory_stats(out: &mut String, memory: Option<Memory>)
    requires { string_len out.old + 68 ≤ string_capacity out.old }
    ensures bytes { string_bytes out.new ≡ string_bytes out.old ++ memory_stats memory }
    ensures len { string_len out.new ≤ string_len out.old + 68 }
    ensures capacity { string_capacity out.old ≤ string_capacity out.new }
{
    if let Some(memory) = memory {
        append_number(out, " memory-used ", memory.used);
        append_number(out, " memory-limit ", memory.limit);
    }
}

/// Appends a hub's limits, and the memory of its document, for which there is room.
fn append_all_limits(out: &mut String, stats: &Stats)
    requires { string_len out.old + 278 ≤ string_capacity out.old }
    ensures bytes { string_bytes out.new ≡ string_bytes out.old
        ++ (limit_stats stats.now.limits ++ memory_stats stats.now.memory) }
    ensures len { string_len out.new ≤ string_len out.old + 278 }
    ensures capacity { string_capacity out.old ≤ string_capacity out.new }
{
    append_limit_stats(out, &stats.limits);
    append_memory_stats(out, stats.memory);
}

/// Appends the line of how much there is of a hub.
fn push_stats(out: &mut String, stats: &Stats) -> Result<(), AllocError>
    ensures ok { OnOk result (string_bytes out.new ≡ string_bytes out.old
        ++ (reply_text (told.Stats stats.now) ++ 10 ∷ [])) }
    ensures err { OnErr result (string_bytes out.new ≡ string_bytes out.old) }
{
    out.reserve(STATS_ROOM)?;
    append_text_stats(out, stats);
    append_user_stats(out, stats);
    append_used_stats(out, stats.used);
    append_all_limits(out, stats);
    append(out, "\n");
    Ok(())
}

/// Appends the line of a refusal.
fn push_refusal(out: &mut String, reason: Reason) -> Result<(), AllocError>
    ensures ok { OnOk result (string_bytes out.new ≡ string_bytes out.old
        ++ (reply_text (told.Refused reason) ++ 10 ∷ [])) }
    ensures err { OnErr result (string_bytes out.new ≡ string_bytes out.old) }
{
    let title = reason.title();
    out.reserve(title.len() + REFUSAL_ROOM)?;
    append(out, "no ");
    append(out, title);
    append_location(out, reason.location());
    append(out, "\n");
    Ok(())
}

impl Reply {
    /// Appends the line with its LF, whole or not at all. The words and digits are put there one by one, since most
    /// lines are items', and a pull has up to 1,024 of those.
    pub fn push_line(&self, out: &mut String) -> Result<(), AllocError>
        ensures ok { OnOk result (string_bytes out.new ≡ string_bytes out.old ++ (reply_text self.now ++ 10 ∷ [])) }
        ensures err { OnErr result (string_bytes out.new ≡ string_bytes out.old) }
    {
        match *self {
            Reply::Version(number) => push_number(out, "ok version ", number),
            Reply::Subscribed(id) => push_number(out, "ok sub ", id as u64),
            Reply::Hit {
                version,
                span,
                verdict,
            } => push_hit(out, version, span, verdict),
            Reply::End { version, spans } => push_end(out, version, spans),
            Reply::Items(count) => push_number(out, "ok items ", count as u64),
            Reply::NoItemsFull => push_no_items_full(out),
            Reply::Closed(id) => push_number(out, "ok closed ", id as u64),
            Reply::Latest(number) => push_number(out, "ok latest ", number),
            Reply::Left(left) => push_left(out, left),
            Reply::Hub(id) => push_hub(out, id),
            Reply::Stats(stats) => push_stats(out, &stats),
            Reply::Spans(count) => push_number(out, "ok spans ", count as u64),
            Reply::Changes(count) => push_number(out, "ok changes ", count as u64),
            Reply::Newest(counter) => push_number(out, "ok newest ", counter),
            Reply::Refused(reason) => push_refusal(out, reason),
        }
    }
}

/// What is printed of a refused line.
impl From<LineRefusal> for Reason {
    ghost from_gives = { λ refusal reason. reason ≡ reason_of refusal };

    fn from(refusal: LineRefusal) -> Reason {
        match refusal {
            LineRefusal::BadCommand => Reason::BadCommand,
            LineRefusal::BadCapacity => Reason::BadCapacity,
            LineRefusal::BadHex => Reason::BadHex,
            LineRefusal::BadChange(error) => Reason::Unread(error),
            LineRefusal::OutOfMemory => Reason::OutOfMemory,
        }
    }
}
