//! Lines that ask for something other than a change.
ghost use Rattle.std.specs.Prelude.{◌≡◌, ◌⊎◌, Ok, Err, IfOk, IfErr};
ghost use Rattle.std.specs.Option.{option_map};
ghost use Rattle.hex.specs.Hex.{decode_of};
ghost use Rattle.hex.specs.declared.error.FromHexError.{FromHexError};
ghost use Rattle.session_lines.specs.Commands.{subscribe, Grants, IsAsked};
ghost use Rattle.session_lines.specs.Reading.{said, from_at, program_at, subscribe_at, pull_at, close_at, show_at};
ghost use Rattle.session_lines.specs.Reading.{changes_at, newest_at, query_at, words_at, alone_at, command_at};
ghost use Rattle.session_lines.specs.Reading.{is_count, is_few_changes};
ghost use Rattle.session_lines.specs.declared.fault.LineRefusal.TheVariants as why;

use crate::fault::LineRefusal;
use crate::query::Query;
use crate::request::SessionRequest;
use crate::words::{is_one_word, word_of};
use change_ops::numeral::decimal_number;
use filters::rules::RuleSet;
use span_context::profile::Profile;
use std::alloc::Global;

const SUBSCRIBE: &[u8] = b"sub";

const SUBSCRIBE_TWO: &[u8] = b"sub2";

const SUBSCRIBE_THREE: &[u8] = b"sub3";

const SUBSCRIBE_FOUR: &[u8] = b"sub4";

const FROM: &[u8] = b"from";

const PULL: &[u8] = b"pull";

const CLOSE: &[u8] = b"close";

const LATEST: &[u8] = b"latest";

const LEFT: &[u8] = b"left";

const HUB: &[u8] = b"hub";

const STATS: &[u8] = b"stats";

const SHOW: &[u8] = b"show";

const SHOW_THREE: &[u8] = b"show3";

const CHANGES: &[u8] = b"changes";

const NEWEST: &[u8] = b"newest";

/// What a line says.
#[derive(Clone, Copy)]
enum LentCommand<'a> {
    Subscribe {
        rules: RuleSet,
        capacity: u64,
        digits: &'a [u8],
        first: Option<u64>,
    },
    Pull {
        subscriber: u64,
        count: u64,
    },
    Close {
        subscriber: u64,
    },
    Read(Query),
}

/// Whether a number is 1 to 1,024.
fn is_count(number: u64) -> bool
    ensures { result ≡ is_count number }
{
    number >= 1 && number <= 1024
}

/// Whether a number is 1 to 64.
fn is_few_changes(number: u64) -> bool
    ensures { result ≡ is_few_changes number }
{
    number >= 1 && number <= 64
}

/// What follows the capacity of a subscription from a version on.
#[tactic(auto, unfolding(crate::specs::Reading::from_at))]
fn from_in(rules: RuleSet, capacity: u64, text: &[u8]) -> Option<LentCommand<'_>>
    ensures { option_map said result ≡ from_at rules capacity text.now }
{
    let (digits, rest) = word_of(text)?;
    let (name, first) = word_of(rest)?;
    let first = decimal_number(first)?;
    if !is_one_word(digits) || name != FROM {
        return None;
    }
    Some(LentCommand::Subscribe {
        rules,
        capacity,
        digits,
        first: Some(first),
    })
}

/// What follows a subscription's capacity.
fn program_in(rules: RuleSet, capacity: u64, text: &[u8]) -> Option<LentCommand<'_>>
    ensures { option_map said result ≡ program_at rules capacity text.now }
{
    if is_one_word(text) {
        return Some(LentCommand::Subscribe {
            rules,
            capacity,
            digits: text,
            first: None,
        });
    }
    from_in(rules, capacity, text)
}

/// What follows `sub`, `sub2` or `sub3`.
#[tactic(auto, unfolding(crate::specs::Reading::subscribe_at))]
fn subscribe_in(rules: RuleSet, fields: &[u8]) -> Option<LentCommand<'_>>
    ensures { option_map said result ≡ subscribe_at rules fields.now }
{
    let (capacity, text) = word_of(fields)?;
    let capacity = decimal_number(capacity)?;
    program_in(rules, capacity, text)
}

/// What follows `pull`.
#[tactic(auto, unfolding(crate::specs::Reading::pull_at))]
fn pull_in(fields: &[u8]) -> Option<LentCommand<'_>>
    ensures { option_map said result ≡ pull_at fields.now }
{
    let (subscriber, count) = word_of(fields)?;
    let subscriber = decimal_number(subscriber)?;
    let count = decimal_number(count)?;
    if !is_count(count) {
        return None;
    }
    Some(LentCommand::Pull { subscriber, count })
}

/// What follows `close`.
#[tactic(auto, unfolding(crate::specs::Reading::close_at))]
fn close_in(fields: &[u8]) -> Option<LentCommand<'_>>
    ensures { option_map said result ≡ close_at fields.now }
{
    let subscriber = decimal_number(fields)?;
    Some(LentCommand::Close { subscriber })
}

/// What follows `show`, or `show3` where keys of the third form of changes are asked for too.
#[tactic(auto, unfolding(crate::specs::Reading::show_at))]
fn show_in(further: bool, fields: &[u8]) -> Option<LentCommand<'_>>
    ensures { option_map said result ≡ show_at further fields.now }
{
    let (version, rest) = word_of(fields)?;
    let (first, count) = word_of(rest)?;
    let version = decimal_number(version)?;
    let first = decimal_number(first)?;
    let count = decimal_number(count)?;
    if !is_count(count) {
        return None;
    }
    Some(LentCommand::Read(Query::Show {
        version,
        first,
        count,
        further,
    }))
}

/// What follows `changes`.
#[tactic(auto, unfolding(crate::specs::Reading::changes_at))]
fn changes_in(fields: &[u8]) -> Option<LentCommand<'_>>
    ensures { option_map said result ≡ changes_at fields.now }
{
    let (from, count) = word_of(fields)?;
    let from = decimal_number(from)?;
    let count = decimal_number(count)?;
    if !is_few_changes(count) {
        return None;
    }
    Some(LentCommand::Read(Query::Changes { from, count }))
}

/// What follows `newest`.
#[tactic(auto, unfolding(crate::specs::Reading::newest_at))]
fn newest_in(fields: &[u8]) -> Option<LentCommand<'_>>
    ensures { option_map said result ≡ newest_at fields.now }
{
    let node = decimal_number(fields)?;
    Some(LentCommand::Read(Query::Newest { node }))
}

/// What a line of several words says that asks to read.
fn query_in<'a>(name: &[u8], fields: &'a [u8]) -> Option<LentCommand<'a>>
    ensures { option_map said result ≡ query_at name.now fields.now }
{
    if name == SHOW {
        show_in(false, fields)
    } else if name == SHOW_THREE {
        show_in(true, fields)
    } else if name == CHANGES {
        changes_in(fields)
    } else if name == NEWEST {
        newest_in(fields)
    } else {
        None
    }
}

/// What a line of several words says, if it has a form.
#[tactic(auto, unfolding(crate::specs::Reading::words_at))]
fn words_in(line: &[u8]) -> Option<LentCommand<'_>>
    ensures { option_map said result ≡ words_at line.now }
{
    let (name, fields) = word_of(line)?;
    if name == SUBSCRIBE {
        subscribe_in(RuleSet::Straight(Profile::One), fields)
    } else if name == SUBSCRIBE_TWO {
        subscribe_in(RuleSet::Straight(Profile::Two), fields)
    } else if name == SUBSCRIBE_THREE {
        subscribe_in(RuleSet::Straight(Profile::Three), fields)
    } else if name == SUBSCRIBE_FOUR {
        subscribe_in(RuleSet::Looping, fields)
    } else if name == PULL {
        pull_in(fields)
    } else if name == CLOSE {
        close_in(fields)
    } else {
        query_in(name, fields)
    }
}

/// What a line of one word says.
fn alone_in(line: &[u8]) -> Option<Query>
    ensures { result ≡ alone_at line.now }
{
    if line == LATEST {
        Some(Query::Latest)
    } else if line == LEFT {
        Some(Query::Left)
    } else if line == HUB {
        Some(Query::Hub)
    } else if line == STATS {
        Some(Query::Stats)
    } else {
        None
    }
}

/// What a line says, if it has a form.
#[tactic(auto, unfolding(crate::specs::Reading::command_at))]
fn command_in(line: &[u8]) -> Option<LentCommand<'_>>
    ensures { option_map said result ≡ command_at line.now }
{
    match alone_in(line) {
        Some(query) => Some(LentCommand::Read(query)),
        None => words_in(line),
    }
}

/// The program that pairs of hexadecimal digits stand for.
fn program_of(alloc: Global, digits: &[u8]) -> Result<Vec<u8>, LineRefusal>
    ensures ok { IfOk result (λ program. decode_of digits.now ≡ Ok program.items) }
    ensures err { IfErr result (λ e. (e ≡ why.OutOfMemory)
        ⊎ ((e ≡ why.BadHex) × ((error : FromHexError) × (decode_of digits.now ≡ Err error)))) }
{
    match hex_table::decode(alloc, digits) {
        Ok(Some(program)) => Ok(program),
        Ok(None) => Err(LineRefusal::BadHex),
        Err(_) => Err(LineRefusal::OutOfMemory),
    }
}

/// A subscription to a program; the capacity is looked at before the digits.
fn subscription(
    alloc: Global,
    rules: RuleSet,
    capacity: u64,
    digits: &[u8],
    first: Option<u64>,
) -> Result<SessionRequest, LineRefusal>
    ensures { Grants (subscribe rules capacity digits.now first) result }
{
    if !is_count(capacity) {
        return Err(LineRefusal::BadCapacity);
    }
    let program = program_of(alloc, digits)?;
    Ok(SessionRequest::Subscribe {
        rules,
        capacity: capacity as usize,
        program,
        first,
    })
}

/// What a session is asked for by what a line says.
fn request_of(alloc: Global, command: LentCommand<'_>) -> Result<SessionRequest, LineRefusal>
    ensures { Grants (said command.entry) result }
{
    match command {
        LentCommand::Subscribe {
            rules,
            capacity,
            digits,
            first,
        } => subscription(alloc, rules, capacity, digits, first),
        LentCommand::Pull { subscriber, count } => Ok(SessionRequest::Pull {
            subscriber: subscriber as usize,
            count: count as usize,
        }),
        LentCommand::Close { subscriber } => Ok(SessionRequest::Close {
            subscriber: subscriber as usize,
        }),
        LentCommand::Read(query) => Ok(SessionRequest::Read(query)),
    }
}

/// What a line asks for that begins no change.
pub fn command_of(alloc: Global, line: &[u8]) -> Result<SessionRequest, LineRefusal>
    ensures { IsAsked line.now result }
{
    match command_in(line) {
        Some(command) => request_of(alloc, command),
        None => Err(LineRefusal::BadCommand),
    }
}
