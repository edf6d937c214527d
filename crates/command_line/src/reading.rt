use crate::grammar::hub;
use change_ops::attribute::Link;
use change_ops::size::Size;
use clap::error::ErrorKind;
use clap::{ArgMatches, Error};
use filter_cases::report::ReportForm;
use filters::rules::RuleSet;
use hub_requests::limits::{SessionLimits, SessionOptions};
use hub_requests::serving::{Doors, Service, StoreFile, Terms, WebDoor};
use hub_requests::{Command, Detail, Request, RunLimit, Sessions, Shown, SpanOptions, Workers};
use span_context::profile::Profile;
use std::alloc::{AllocError, Global};
use std::convert::AsStr;
use std::net::{IpAddr, Ipv4Addr};
use std::time::Duration;

/// Why the words of a command line ask for none of the commands.
#[derive(Drop)]
pub enum Unread {
    /// They ask for this text: a help, or the version.
    Shown(String),
    /// They are wrong, in the way that this text says.
    Usage(String),
    /// No memory was found.
    Memory,
}

impl From<AllocError> for Unread {
    ghost use Rattle.command_line.specs.declared.reading.Unread.TheVariants.{Memory};
    ghost use Rattle.std.specs.Prelude.{◌≡◌};

    ghost from_gives = { λ _ unread. unread ≡ Memory };

    fn from(_error: AllocError) -> Unread {
        Unread::Memory
    }
}

/// What is said of a text that no link has.
const BAD_LINK: &str = "error: a link's text has 1 to 1024 characters of ASCII from `!` to `~`\n";

/// What is said beside the words for an argument that is missing.
const NEEDED_BY_SERVE: &str =
    "`hub serve` needs a port, 0 for one that the system chooses, or a socket file, as in:

    hub serve --port 4711
    hub serve --web 4712 --files examples/editor
    hub serve --unix hub.socket
";

/// What is said of a host that is no address.
const BAD_HOST: &str = "error: `--host` takes an IPv4 or an IPv6 address\n";

/// What is said of limits of a session that have none of the forms.
const BAD_LIMITS: &str =
    "error: `--per-session` takes changes=NUMBER,subscribers=NUMBER,bytes=NUMBER or some of these, each once\n";

/// The bytes of a mebibyte.
const MEBIBYTE: u64 = 1 << 20;

/// Whether the words name this command, behind the program's own name.
fn is_command<S: AsStr>(words: &[S], name: &str) -> bool {
    match words.get(1) {
        Some(word) => word.as_str() == name,
        None => false,
    }
}

/// The value of an option, which has a default.
fn number(matches: &ArgMatches<'_>, name: &str) -> u32 {
    matches.get_one::<u32>(name).unwrap_or(0)
}

/// The link that `run` lends: the one of `--link-text`, or as many letters as `--link` says.
fn link(alloc: Global, matches: &ArgMatches<'_>) -> Result<Option<Link>, Unread> {
    if let Some(text) = matches.get_str("link-text") {
        return match Link::new(alloc, text)? {
            Some(link) => Ok(Some(link)),
            None => Err(Unread::Usage(String::from_str(alloc, BAD_LINK)?)),
        };
    }
    let mut letters = String::new(alloc);
    for _ in 0..number(matches, "link") {
        letters.push('a')?;
    }
    Ok(Link::new(alloc, letters.as_str())?)
}

fn span_options(alloc: Global, matches: &ArgMatches<'_>) -> Result<SpanOptions, Unread> {
    Ok(SpanOptions {
        limit: run_limit(matches),
        flags: number(matches, "flags"),
        color: number(matches, "color"),
        link: link(alloc, matches)?,
        comments: number(matches, "comments"),
        index: number(matches, "index"),
        count: number(matches, "count"),
        version: matches.get_one::<u64>("number").unwrap_or(0),
    })
}

/// By which rules the program is checked, by the number of its context.
fn rules(matches: &ArgMatches<'_>) -> RuleSet {
    match number(matches, "context") {
        2 => RuleSet::Straight(Profile::Two),
        3 => RuleSet::Straight(Profile::Three),
        4 => RuleSet::Looping,
        _ => RuleSet::Straight(Profile::One),
    }
}

/// How long the run may be, by the number of the program's context.
fn run_limit(matches: &ArgMatches<'_>) -> RunLimit {
    match number(matches, "context") {
        4 => RunLimit::Longest,
        _ => RunLimit::Slots,
    }
}

/// How much is said of the program that is checked.
fn detail(matches: &ArgMatches<'_>) -> Detail {
    match matches.get_str("explain") {
        None => Detail::Verdict,
        Some("all") => Detail::Listing,
        Some(_) => Detail::Reason,
    }
}

/// How much is said of the program that is run.
fn shown(matches: &ArgMatches<'_>) -> Shown {
    if matches.get_flag("trace") {
        Shown::Steps
    } else {
        Shown::Outcome
    }
}

/// In which form it is told how cases end.
fn report_form(matches: &ArgMatches<'_>) -> ReportForm {
    if matches.get_flag("junit") {
        ReportForm::Junit
    } else {
        ReportForm::Lines
    }
}

/// How much the text may hold.
fn size(matches: &ArgMatches<'_>) -> Size {
    match matches.get_str("size") {
        Some("large") => Size::Large,
        _ => Size::Small,
    }
}

/// The number of workers, which is one where none is given.
fn workers(matches: &ArgMatches<'_>) -> Workers {
    let count = matches.get_one::<u32>("workers").unwrap_or(1);
    Workers::new(count).unwrap_or(Workers::one())
}

/// These limits and one more, as in `changes=5`, if it has that form and isn't there yet.
fn with_limit(limits: SessionLimits, text: &str) -> Option<SessionLimits> {
    let mut limits = limits;
    let (name, number) = text.split_once('=')?;
    let number = number.parse::<u64>().ok()?;
    match name {
        "changes" if limits.changes.is_none() => limits.changes = Some(number),
        "subscribers" if limits.subscribers.is_none() => limits.subscribers = Some(number),
        "bytes" if limits.bytes.is_none() => limits.bytes = Some(number),
        _ => return None,
    }
    Some(limits)
}

/// The limits that a list names.
fn limits_of(list: &str) -> Option<SessionLimits> {
    let mut limits = SessionLimits::none();
    for text in list.split(',') {
        limits = with_limit(limits, text)?;
    }
    Some(limits)
}

/// What a session may have accepted, which is whatever the hub takes where no limits are given.
fn limits(alloc: Global, matches: &ArgMatches<'_>) -> Result<SessionLimits, Unread> {
    let Some(list) = matches.get_str("per-session") else {
        return Ok(SessionLimits::none());
    };
    match limits_of(list) {
        Some(limits) => Ok(limits),
        None => Err(Unread::Usage(String::from_str(alloc, BAD_LIMITS)?)),
    }
}

/// How many bytes the document may take.
fn memory(matches: &ArgMatches<'_>) -> Option<u64> {
    let mebibytes = matches.get_one::<u32>("memory")?;
    Some(u64::from(mebibytes) * MEBIBYTE)
}

/// What sessions may do.
fn session_options(alloc: Global, matches: &ArgMatches<'_>) -> Result<SessionOptions, Unread> {
    Ok(SessionOptions {
        reads: matches.get_flag("read"),
        hub: None,
        counter_jump: matches.get_one::<u64>("counter-jump"),
        memory: memory(matches),
        limits: limits(alloc, matches)?,
    })
}

/// What is said of a number of sessions that isn't allowed at this size, in the words of the parser.
fn not_allowed(alloc: Global, size: Size, name: &str, count: u32) -> Result<String, AllocError> {
    let most = size.sessions();
    format!(in alloc;
        "error: invalid value '{count}' for '--{name} <NUMBER>': {count} is not in 1..={most}\n\nFor more information, try '--help'.\n"
    )
}

/// The number of sessions that an option names, if it is there.
fn sessions(
    alloc: Global,
    matches: &ArgMatches<'_>,
    name: &str,
) -> Result<Option<Sessions>, Unread> {
    let Some(count) = matches.get_one::<u32>(name) else {
        return Ok(None);
    };
    let size = size(matches);
    match Sessions::new(size, count) {
        Some(sessions) => Ok(Some(sessions)),
        None => Err(Unread::Usage(not_allowed(alloc, size, name, count)?)),
    }
}

/// How long sessions are served: without a number of them, without an end.
fn service(alloc: Global, matches: &ArgMatches<'_>) -> Result<Service, Unread> {
    if let Some(sessions) = sessions(alloc, matches, "sessions")? {
        return Ok(Service::Sessions(sessions));
    }
    let at_once = sessions(alloc, matches, "at-once")?;
    Ok(Service::AtOnce(at_once.unwrap_or(Sessions::most(size(matches)))))
}

/// For how long a client may say nothing.
fn idle(matches: &ArgMatches<'_>) -> Option<Duration> {
    let seconds = matches.get_one::<u32>("idle")?;
    Some(Duration::from_secs(u64::from(seconds)))
}

/// The value of an option that is a text.
fn text(alloc: Global, matches: &ArgMatches<'_>, name: &str) -> Result<Option<String>, AllocError> {
    match matches.get_str(name) {
        Some(text) => Ok(Some(String::from_str(alloc, text)?)),
        None => Ok(None),
    }
}

/// The address that the ports are at.
fn host(alloc: Global, matches: &ArgMatches<'_>) -> Result<IpAddr, Unread> {
    let Some(text) = matches.get_str("host") else {
        return Ok(IpAddr::V4(Ipv4Addr::LOCALHOST));
    };
    match text.parse::<IpAddr>() {
        Ok(host) => Ok(host),
        Err(_) => Err(Unread::Usage(String::from_str(alloc, BAD_HOST)?)),
    }
}

/// Whose pages may begin a session.
fn origins(alloc: Global, matches: &ArgMatches<'_>) -> Result<Vec<String>, AllocError> {
    let mut origins = Vec::new(alloc);
    if let Some(given) = matches.get_strs("origin") {
        for origin in given {
            origins.push(String::from_str(alloc, origin)?)?;
        }
    }
    Ok(origins)
}

/// The door for browsers, if there is to be one.
fn web(alloc: Global, matches: &ArgMatches<'_>) -> Result<Option<WebDoor>, AllocError> {
    match matches.get_one::<u16>("web") {
        Some(port) => Ok(Some(WebDoor {
            port,
            origins: origins(alloc, matches)?,
            files: text(alloc, matches, "files")?,
        })),
        None => Ok(None),
    }
}

/// Where sessions come in.
fn doors(alloc: Global, matches: &ArgMatches<'_>) -> Result<Doors, Unread> {
    Ok(Doors {
        host: host(alloc, matches)?,
        port: matches.get_one::<u16>("port"),
        web: web(alloc, matches)?,
        unix: text(alloc, matches, "unix")?,
    })
}

/// On what terms sessions are served.
fn terms(alloc: Global, matches: &ArgMatches<'_>) -> Result<Terms, Unread> {
    Ok(Terms {
        service: service(alloc, matches)?,
        workers: workers(matches),
        size: size(matches),
        options: session_options(alloc, matches)?,
        idle: idle(matches),
        is_logged: matches.get_flag("log"),
    })
}

/// The file that keeps changes, if there is to be one.
fn store(alloc: Global, matches: &ArgMatches<'_>) -> Result<Option<StoreFile>, AllocError> {
    match text(alloc, matches, "store")? {
        Some(path) => Ok(Some(StoreFile {
            path,
            accepts_loss: matches.get_flag("accept-loss"),
        })),
        None => Ok(None),
    }
}

/// What the words of `adopt` ask for.
fn adopting(alloc: Global, matches: &ArgMatches<'_>) -> Result<Request, AllocError> {
    Ok(Request::Adopt {
        size: size(matches),
        from: String::from_str(alloc, matches.get_str("FROM").unwrap_or(""))?,
        to: String::from_str(alloc, matches.get_str("TO").unwrap_or(""))?,
    })
}

/// What the options of `serve` ask for.
fn serving(alloc: Global, matches: &ArgMatches<'_>) -> Result<Request, Unread> {
    Ok(Request::Serve {
        terms: terms(alloc, matches)?,
        doors: doors(alloc, matches)?,
        store: store(alloc, matches)?,
    })
}

fn request_of(alloc: Global, matches: &ArgMatches<'_>) -> Result<Request, Unread> {
    let request = match matches.subcommand() {
        Some(("adopt", adopt)) => Some(adopting(alloc, adopt)?),
        Some(("asm", _)) => Some(Request::Perform(Command::Asm)),
        Some(("check", check)) => Some(Request::Perform(Command::Check {
            detail: detail(check),
            rules: rules(check),
        })),
        Some(("dis", _)) => Some(Request::Perform(Command::Dis)),
        Some(("join", join)) => Some(Request::Perform(Command::Join { size: size(join) })),
        Some(("replay", replay)) => Some(Request::Replay {
            size: size(replay),
            workers: workers(replay),
            options: session_options(alloc, replay)?,
            store: store(alloc, replay)?,
        }),
        Some(("run", run)) => Some(Request::Perform(Command::Run {
            shown: shown(run),
            digits: String::from_str(alloc, run.get_str("HEX").unwrap_or(""))?,
            options: span_options(alloc, run)?,
        })),
        Some(("serve", serve)) => Some(serving(alloc, serve)?),
        Some(("spans", spans)) => Some(Request::Perform(Command::Spans { size: size(spans) })),
        Some(("straighten", _)) => Some(Request::Perform(Command::Straighten)),
        Some(("test", test)) => Some(Request::Perform(Command::Test {
            rules: rules(test),
            form: report_form(test),
            digits: String::from_str(alloc, test.get_str("HEX").unwrap_or(""))?,
        })),
        _ => None,
    };
    // The parser asks for a subcommand and for what it requires, and knows no other.
    request.ok_or(Unread::Usage(String::new(alloc)))
}

/// What the command line's parser says: a help or the version, where it was asked for, or what is wrong.
fn explained<S: AsStr>(alloc: Global, words: &[S], error: &Error) -> Result<Unread, AllocError> {
    if error.kind() == ErrorKind::OutOfMemory {
        return Ok(Unread::Memory);
    }
    let mut text = format!(in alloc; "{error}")?;
    if error.use_stderr() {
        if error.kind() == ErrorKind::MissingRequiredArgument && is_command(words, "serve") {
            text.push_str(NEEDED_BY_SERVE)?;
        }
        Ok(Unread::Usage(text))
    } else {
        Ok(Unread::Shown(text))
    }
}

/// What the words ask for; the program's own name is the first.
pub fn request<S: AsStr>(alloc: Global, words: &[S]) -> Result<Request, Unread> {
    let hub = hub(alloc)?;
    match hub.try_get_matches_from(words) {
        Ok(matches) => request_of(alloc, &matches),
        Err(error) => Err(explained(alloc, words, &error)?),
    }
}
