use clap::{Arg, ArgAction, ArgGroup, Command, value_parser};
use hub_requests::{MOST_LINK_BYTES, MOST_WORKERS};
use std::alloc::{AllocError, Global};

/// What the exit statuses of all commands say.
const STATUSES: &str =
    "The exit status is 0 if the command is done; 1 if its input is refused, or the
program that is run meets a fault or runs out of steps; 2 if the command line is
wrong; 3 if a read, a write, a bind or an accept fails. A refusal is printed as
`refused <number> <Name>`, with its place behind it (docs/REFUSALS.md).

Example:

    $ printf 'mov r0, 1\\nexit\\n' | hub asm | hub check
    accepted 2";

const AFTER_ADOPT: &str =
    "The exit status is 0 if the store is made; 1 if FROM is refused, with 65 or 67, or there
is no memory, with 45; 2 if the command line is wrong; 3 if TO is there already, or a
read or a write fails.

Example:

    $ sqlite3 old.hub .dump | sqlite3 plain.hub
    $ hub adopt plain.hub new.hub
    adopted 2";

const AFTER_ASM: &str =
    "The exit status is 0 if the program is printed; 1 if the text is refused, with 30 to
36 or 62, or there is no memory, with 45; 2 if the command line is wrong; 3 if a
read or a write fails.

Example:

    $ printf 'mov r0, 1\\nexit\\n' | hub asm
    b700000001000000
    9500000000000000";

const AFTER_CHECK: &str =
    "The exit status is 0 if the program is accepted; 1 if it is refused, with 1 to 27 or
63, or there is no memory, with 45; 2 if the command line is wrong; 3 if a read or
a write fails.

Example:

    $ echo 9500000000000000 | hub check --explain
    refused 15 UnsetRegister slot 0
    slot 0: exit
      r1 = context+0
      r10 = stack-0
      length >= 0";

const AFTER_DIS: &str =
    "The exit status is 0 if the text is printed; 1 if the bytes are no program, with 1 to
9 or 63, or there is no memory, with 45; 2 if the command line is wrong; 3 if a
read or a write fails.

Example:

    $ echo b7000000010000009500000000000000 | hub dis
    mov r0, 1
    exit";

const AFTER_RUN: &str =
    "The exit status is 0 if there is a verdict; 1 after a fault (F1 to F7) or `out of
steps`, or if the program's bytes are refused, with 1 to 9 or 63, or the text, with
62, or there is no memory, with 45; 2 if the command line is wrong; 3 if a read or a
write fails. `hub run` also runs what `hub check` refuses.

Example, of a program whose verdict is the length of the text:

    $ printf 'why?' | hub run 61101000000000009500000000000000
    verdict 4";

const AFTER_SPANS: &str =
    "The exit status is 0 if the spans are printed; 1 if a change is refused, with 40 to 44
or 46 to 50, or the input isn't UTF-8, with 62, or there is no memory, with 45; 2 if
the command line is wrong; 3 if a read or a write fails.

Example:

    $ printf 'change2 1 1\\nr 1@1 - 2 48 6d\\n' | hub spans
    0 plain Hm";

const AFTER_JOIN: &str =
    "The exit status is 0 if the joined changes are printed; 1 if a change is refused, with 40
to 44 or 46 to 50, or the input isn't UTF-8, with 62, or there is no memory, with 45;
2 if the command line is wrong; 3 if a read or a write fails.

Example, of two changes of one peer:

    $ printf 'change 1 1\\ni 1@1 - 48\\nchange 1 1\\ni 2@1 1@1 6d\\n' | hub join
    change 1 2
    i 1@1 - 48
    i 2@1 1@1 6d";

/// The help behind the options of `replay` and of `serve`: the lines of a session and what answers each, and then
/// what the command alone says.
macro_rules! session_help {
    ($command:literal) => {
        concat!(
            "Lines of a session, and what answers each:

    the lines of a change            ok version <n>
    sub <capacity> <hex> [from <n>]  ok sub <id>
    sub2 <capacity> <hex> ..         the same; the program may read the link
    sub3 <capacity> <hex> ..         the same, and more programs are accepted
    pull <id> <k>                    hit <version> <span> <verdict>,
                                     end <version> <spans>, ..; ok items <m>
    close <id>                       ok closed <id>

With --read also:

    pull <id> <k>                    ok items 0 full, once no item comes any more
    latest                           ok latest <n>
    show <version> <first> <k>       span <index> <format> <text>, ..; ok spans <n>
    show3 <version> <first> <k>      the same, with the keys of the third form too
    changes <from> <k>               the changes; ok changes <m>
    newest <node>                    ok newest <counter>
    left                             ok left <changes> <characters> <marks> <subscribers>
    hub                              ok hub <id>
    stats                            ok stats <name> <number> ..

",
            $command
        )
    };
}

const AFTER_REPLAY: &str = session_help!(
    "The exit status is 0 if the session has ended, whatever it was refused; 1 if there is
no memory, with 45, or the file of --store is refused, with 65 or 67; 2 if the command
line is wrong; 3 if a read or a write fails, or that of the file of --store.

Example:

    $ printf 'change2 1 1\\nr 1@1 - 2 48 6d\\n' | hub replay
    ok version 1"
);

const AFTER_SERVE: &str = session_help!(
    "The exit status is 1 if there is no memory, with 45, or the file of --store is refused,
with 65 or 67; 2 if the command line is wrong; 3 if a door can't be had, or the file of
--store fails. With --sessions it is 0 if all sessions have ended, whatever they were
refused, and 3 also if an accept, a read or a write fails.

Example, of one session that is answered through bash:

    $ hub serve --port 4711 --sessions 1 &
    port 4711
    $ printf 'change2 1 1\\nr 1@1 - 2 48 6d\\n' | examples/clients/ask.sh 4711
    ok version 1"
);

const AFTER_STRAIGHTEN: &str =
    "The exit status is 0 if the program is printed; 1 if there is none, with 10 to 13, or
the bytes are no program, with 1 to 9 or 63, or there is no memory, with 27 or 45; 2
if the command line is wrong; 3 if a read or a write fails.

Example, of a program whose second instruction stands last:

    $ echo 05000100000000009500000000000000b70000000100000005\
00fdff00000000 | hub straighten
    b700000001000000
    9500000000000000";

const AFTER_TEST: &str =
    "The exit status is 0 if all cases pass; 1 if one doesn't, or a line is no case, with 76,
or the program is refused, with 1 to 27, 63, 74 or 75, or there is no memory, with
45; 2 if the command line is wrong; 3 if a read or a write fails.

Example, of a program whose verdict is the length of the text:

    $ printf '\"why?\" -> 4\\n\"\" strong -> hit\\n' |
    > hub test 61101000000000009500000000000000
    case 2 wanted hit got 0
    1 passed, 1 failed";

/// What `check --explain` can be asked for; the first without a word.
static EXPLANATIONS: [&str; 2] = ["slot", "all"];

/// What `--size` can be; the first where it is left out.
static SIZES: [&str; 2] = ["small", "large"];

/// The options of `run` whose fields have 32 bits, with their defaults and what they say of the span.
static FIELDS: [(&str, &str, &str); 5] = [
    (
        "flags",
        "0",
        "The sum of 1 strong, 2 em, 4 link, 8 color, 16 comments, 32 code",
    ),
    (
        "color",
        "0",
        "The color in decimal, 65536 * red + 256 * green + blue; 0 if there is none",
    ),
    ("comments", "0", "The number of comments"),
    ("index", "0", "The span's index, from 0"),
    ("count", "1", "The number of spans of the version"),
];

fn adopt<'a>(alloc: Global) -> Result<Command<'a>, AllocError> {
    let from = Arg::new(alloc, "FROM")
        .required(true)
        .help("The file that is read");
    let to = Arg::new(alloc, "TO")
        .required(true)
        .help("The file that is made");
    Command::new(alloc, "adopt")
        .about("Makes a store of a file that has the tables of one")
        .long_about(
            "Makes the store TO of a file FROM that has the tables of one, with or without sums on
its pages. `serve` and `replay` refuse a file without sums, which no hub writes:
sqlite3 does. All its changes are accepted again, in order, and TO has them and the
same id. TO must not exist; FROM stays as it was. Standard input isn't read. Printed
is `adopted <changes>`.",
        )
        .after_help(AFTER_ADOPT)
        .arg(from)?
        .arg(to)?
        .arg(size(alloc))
}

fn run<'a>(alloc: Global) -> Result<Command<'a>, AllocError> {
    let program = Arg::new(alloc, "HEX").required(true).help(
        "The program's bytes, as pairs of hexadecimal digits of either case",
    );
    let mut run = Command::new(alloc, "run")
        .about("Runs a program on one span")
        .long_about(
            "Runs a program on one span. Standard input is the span's text, to the last byte:
UTF-8, at most 131,072 bytes; a line feed at the end belongs to it. Printed is
`verdict <number>`, `fault <slot> F<k> <Name>` or `out of steps`. All numbers are
decimal.

With --trace lines for each step stand before that: its slot and instruction, then
the register or the bytes of the stack that it wrote, and the number that they hold
(docs/PROGRAMS.md). The last step is the one that ends the run.",
        )
        .after_help(AFTER_RUN)
        .arg(program)?;
    for (name, fallback, help) in FIELDS {
        let field = Arg::new(alloc, name)
            .long(name)
            .value_name("NUMBER")
            .action(ArgAction::Set)
            .value_parser(value_parser!(u32).range(0..))
            .default_value(fallback)
            .help(help);
        run = run.arg(field)?;
    }
    let link = Arg::new(alloc, "link")
        .long("link")
        .value_name("NUMBER")
        .action(ArgAction::Set)
        .value_parser(value_parser!(u32).range(0..=i64::from(MOST_LINK_BYTES)))
        .default_value("0")
        .conflicts_with("link-text")?
        .help("The link is so many letters `a`, at most 1024; there is none if 0");
    let link_text = Arg::new(alloc, "link-text")
        .long("link-text")
        .value_name("TEXT")
        .action(ArgAction::Set)
        .allow_hyphen_values(true)
        .help("The link: 1 to 1024 characters of ASCII from `!` to `~`");
    let version = Arg::new(alloc, "number")
        .long("number")
        .value_name("NUMBER")
        .action(ArgAction::Set)
        .value_parser(value_parser!(u64).range(0..))
        .default_value("0")
        .help("The version's number, of 64 bits; the numbers above have 32");
    let context = Arg::new(alloc, "context")
        .long("context")
        .value_name("NUMBER")
        .action(ArgAction::Set)
        .value_parser(value_parser!(u32).range(1..=4))
        .default_value("1")
        .help(
            "4: the run may take as many steps as one of a program that loops; else as many as the program has slots",
        );
    let trace = Arg::new(alloc, "trace")
        .long("trace")
        .action(ArgAction::SetTrue)
        .help("Also prints each step first, and what it wrote (docs/PROGRAMS.md)");
    run.arg(link)?
        .arg(link_text)?
        .arg(version)?
        .arg(context)?
        .arg(trace)
}

fn asm<'a>(alloc: Global) -> Command<'a> {
    Command::new(alloc, "asm")
        .about("Assembles a program")
        .long_about(
            "Assembles a program. Standard input is assembler text in UTF-8, with an
instruction, a label or nothing on each line (docs/INSTRUCTIONS.md). Printed is
the program, a line of 16 hexadecimal digits for each slot.",
        )
        .after_help(AFTER_ASM)
}

/// By which rules a program is accepted.
fn context<'a>(alloc: Global) -> Arg<'a> {
    Arg::new(alloc, "context")
        .long("context")
        .value_name("NUMBER")
        .action(ArgAction::Set)
        .value_parser(value_parser!(u32).range(1..=4))
        .default_value("1")
        .help(
            "1: the program may read the first 56 bytes of the context, and the text; 2: also the link; 3: the same as 2, and more programs are accepted; 4: the same as 3, and programs may loop",
        )
}

fn check<'a>(alloc: Global) -> Result<Command<'a>, AllocError> {
    let explain = Arg::new(alloc, "explain")
        .long("explain")
        .value_name("WHAT")
        .action(ArgAction::Set)
        .num_args(0..=1)
        .require_equals(true)
        .default_missing_value("slot")
        .value_parser(EXPLANATIONS.as_slice())
        .help(
            "Also prints what the verifier knows of the program (docs/PROGRAMS.md), with =all before each slot",
        );
    Command::new(alloc, "check")
        .about("Says whether a program is accepted")
        .long_about(
            "Says whether a program is accepted. Each run of an accepted program, on any span,
ends with a number and without a fault. Standard input is the program's bytes, as
pairs of hexadecimal digits of either case; spaces, tabs and line breaks are
skipped. Printed is `accepted <slots>`, or the refusal of the first slot at fault.
With --context 4 a bound of the steps follows: `, steps <= 9 + 4 * length + 0 *
link length`.

With --explain more lines follow. Of an accepted program: the greatest number of
steps, the fields of the context that it can read, and the bytes of the text and
of the link. Of one that is refused with 10 to 26: the instruction at that slot,
and from 15 on what is known before it, a line for each register and each eight
bytes of the stack that are set, and one for the least length of the text, with
--context 2 or 3 one for that of the link (docs/PROGRAMS.md).

With --explain=all the same is printed of each slot: behind the other lines of an
accepted program, and up to the slot at which one is refused.",
        )
        .after_help(AFTER_CHECK)
        .arg(context(alloc))?
        .arg(explain)
}

fn dis<'a>(alloc: Global) -> Command<'a> {
    Command::new(alloc, "dis")
        .about("Prints the text of a program")
        .long_about(
            "Prints the text of a program. Standard input is the program's bytes, as pairs of
hexadecimal digits of either case; spaces, tabs and line breaks are skipped.
Printed is its canonical text (docs/INSTRUCTIONS.md), which `hub asm` turns back
into the same bytes.",
        )
        .after_help(AFTER_DIS)
}

/// How much the text may hold.
fn size<'a>(alloc: Global) -> Arg<'a> {
    Arg::new(alloc, "size")
        .long("size")
        .value_name("SIZE")
        .action(ArgAction::Set)
        .value_parser(SIZES.as_slice())
        .default_value("small")
        .help("How much the text may hold over its life, small or large (docs/LIMITS.md)")
}

fn spans<'a>(alloc: Global) -> Result<Command<'a>, AllocError> {
    Command::new(alloc, "spans")
        .about("Prints the spans that changes make")
        .long_about(
            "Prints the spans that changes make. Standard input is the texts of changes back
to back, in the order in which they are to be accepted (docs/CHANGE_FORMAT.md);
empty input is no change. Printed are the spans of the last version, each as a
line `<index> <format> <text>`.",
        )
        .after_help(AFTER_SPANS)
        .arg(size(alloc))
}

fn join<'a>(alloc: Global) -> Result<Command<'a>, AllocError> {
    Command::new(alloc, "join")
        .about("Prints changes joined, as few changes of the same operations")
        .long_about(
            "Prints changes joined, as few changes of the same operations. A hub accepts at most
4,096 changes, or 65,536 with --size large, however long they are. Standard input is
the texts of changes back to back, in the order in which they are to be accepted
(docs/CHANGE_FORMAT.md); empty input is no change. Printed are the texts of changes
in the same form: neighboring ones of one peer stand in one, of at most 256
operations. They have the same operations with the same ids, in the same order, so a
hub that accepts them has the same text, and peers go on with the ids that they have.",
        )
        .after_help(AFTER_JOIN)
        .arg(size(alloc))
}

fn straighten<'a>(alloc: Global) -> Command<'a> {
    Command::new(alloc, "straighten")
        .about("Prints a program without its jumps back")
        .long_about(
            "Prints a program of the same meaning in which no jump leads back, as compilers lay
out blocks that stand in no loop (docs/PROGRAMS.md). Standard input is the
program's bytes, as pairs of hexadecimal digits of either case; spaces, tabs and
line breaks are skipped. Printed is the program, a line of 16 hexadecimal digits
for each slot: the same slots where no jump leads back. Of a program with a loop
`refused 10 BackwardJump` is printed, with the slot of a jump back in it.",
        )
        .after_help(AFTER_STRAIGHTEN)
}

fn test<'a>(alloc: Global) -> Result<Command<'a>, AllocError> {
    let program = Arg::new(alloc, "HEX").required(true).help(
        "The program's bytes, as pairs of hexadecimal digits of either case",
    );
    let junit = Arg::new(alloc, "junit")
        .long("junit")
        .action(ArgAction::SetTrue)
        .help("Prints the XML of JUnit, which has all cases");
    Command::new(alloc, "test")
        .about("Tests a program on many spans")
        .long_about(
            "Tests a program on many spans. First it has to be accepted, as by `hub check`.
Standard input is the cases, a line each; empty lines and lines that begin with #
are left out:

    \"an URGENT note\" -> 4
    \"see this\" strong link=https://example.org/ comments=2 -> hit

A case is a span's text, words for the rest of the span, an arrow, and the wanted
verdict: a number, or `hit` for any but 0. In the text \\n, \\t, \\\", \\\\ and \\xNN are
escapes. The words are strong, em, code, link=TARGET, color=RRGGBB, comments=N,
index=N, count=N and version=N; a space stands between any two. What isn't said is
as `hub run` has it without options. Printed is a line for each case with another
verdict, and then how many passed.",
        )
        .after_help(AFTER_TEST)
        .arg(program)?
        .arg(context(alloc))?
        .arg(junit)
}

/// How many threads filter.
fn workers<'a>(alloc: Global) -> Arg<'a> {
    Arg::new(alloc, "workers")
        .long("workers")
        .value_name("NUMBER")
        .action(ArgAction::Set)
        .value_parser(value_parser!(u32).range(1..=i64::from(MOST_WORKERS)))
        .default_value("1")
        .help("How many threads run programs on the spans of versions, 1 to 16")
}

/// Whether sessions may read of the text.
fn read<'a>(alloc: Global) -> Arg<'a> {
    Arg::new(alloc, "read")
        .long("read")
        .action(ArgAction::SetTrue)
        .help(
            "Also answers latest, show, changes, newest, left, hub and stats, which read of the text",
        )
}

/// By how much a change's counters may be above all accepted ones.
fn counter_jump<'a>(alloc: Global) -> Arg<'a> {
    Arg::new(alloc, "counter-jump")
        .long("counter-jump")
        .value_name("NUMBER")
        .action(ArgAction::Set)
        .value_parser(value_parser!(u64).range(1..))
        .help("42 to a change with a counter more than so much above all accepted ones, from 1 on")
}

/// How much memory the document may take.
fn memory<'a>(alloc: Global) -> Arg<'a> {
    Arg::new(alloc, "memory")
        .long("memory")
        .value_name("MEBIBYTES")
        .action(ArgAction::Set)
        .value_parser(value_parser!(u32).range(1..))
        .help(
            "45 to a change, before it is kept, where the document may not take so much more, from 1 on",
        )
}

/// What a session may have accepted.
fn per_session<'a>(alloc: Global) -> Arg<'a> {
    Arg::new(alloc, "per-session")
        .long("per-session")
        .value_name("LIST")
        .action(ArgAction::Set)
        .help(
            "What a session may have accepted, as changes=5,subscribers=1,bytes=9000 or some of these; past it 50, 51, 50",
        )
}

fn replay<'a>(alloc: Global) -> Result<Command<'a>, AllocError> {
    Command::new(alloc, "replay")
        .about("Answers a session")
        .long_about(
            "Answers a session. Standard input is the session's lines (docs/SESSIONS.md):
changes, and subscriptions of programs. Printed are the replies. A request that is
refused is answered `no <number> <Name>`, and the session goes on.",
        )
        .after_help(AFTER_REPLAY)
        .arg(size(alloc))?
        .arg(store(alloc))?
        .arg(accept_loss(alloc)?)?
        .arg(workers(alloc))?
        .arg(read(alloc))?
        .arg(counter_jump(alloc))?
        .arg(memory(alloc))?
        .arg(per_session(alloc))
}

/// How many sessions are served in all; without it there is no end. The most depend on the size, which is another
/// option.
fn sessions<'a>(alloc: Global) -> Arg<'a> {
    Arg::new(alloc, "sessions")
        .long("sessions")
        .value_name("NUMBER")
        .action(ArgAction::Set)
        .value_parser(value_parser!(u32).range(0..))
        .help(
            "How many sessions are answered before the program ends, 1 to 64 (256 with --size large); without it the program goes on until it is killed",
        )
}

/// How many sessions there are at once where they are served without an end. The most depend on the size, which is
/// another option.
fn at_once<'a>(alloc: Global) -> Result<Arg<'a>, AllocError> {
    let at_once = Arg::new(alloc, "at-once")
        .long("at-once")
        .value_name("NUMBER")
        .action(ArgAction::Set)
        .value_parser(value_parser!(u32).range(0..))
        .conflicts_with("sessions")?
        .help(
            "How many sessions there are at once, 1 to 64 (256 with --size large), the most where it is left out; one connection more is told 69 and closed",
        );
    Ok(at_once)
}

/// After how many seconds without a word a session ends.
fn idle<'a>(alloc: Global) -> Arg<'a> {
    Arg::new(alloc, "idle")
        .long("idle")
        .value_name("SECONDS")
        .action(ArgAction::Set)
        .value_parser(value_parser!(u32).range(1..))
        .help("Ends a session whose client sends nothing for so many seconds, from 1 on")
}

/// Which file keeps the changes.
fn store<'a>(alloc: Global) -> Arg<'a> {
    Arg::new(alloc, "store")
        .long("store")
        .value_name("FILE")
        .action(ArgAction::Set)
        .help(
            "Keeps each accepted change in this SQLite file before it is answered, and begins with those that it has",
        )
}

/// Whether a store is opened whose log is damaged.
fn accept_loss<'a>(alloc: Global) -> Result<Arg<'a>, AllocError> {
    let accept_loss = Arg::new(alloc, "accept-loss")
        .long("accept-loss")
        .action(ArgAction::SetTrue)
        .requires_arg("store")?
        .help(
            "Opens the file of --store although its log is damaged, without the changes behind the damage",
        );
    Ok(accept_loss)
}

/// A port of one kind.
fn port<'a>(alloc: Global, name: &'a str, help: &'a str) -> Arg<'a> {
    Arg::new(alloc, name)
        .long(name)
        .value_name("NUMBER")
        .action(ArgAction::Set)
        .value_parser(value_parser!(u16).range(0..))
        .help(help)
}

/// Where sessions come in.
fn with_doors<'a>(alloc: Global, serve: Command<'a>) -> Result<Command<'a>, AllocError> {
    let unix = Arg::new(alloc, "unix")
        .long("unix")
        .value_name("PATH")
        .action(ArgAction::Set)
        .help("Lines over a socket file of this path, which its owner alone may open");
    let host = Arg::new(alloc, "host")
        .long("host")
        .value_name("ADDRESS")
        .action(ArgAction::Set)
        .help("The IPv4 or IPv6 address of --port and --web; 127.0.0.1 if it is left out");
    let doors = ArgGroup::new(alloc, "doors")
        .arg("port")?
        .arg("web")?
        .arg("unix")?
        .required(true)
        .multiple(true);
    serve
        .arg(port(
            alloc,
            "port",
            "Lines over TCP at this port, 0 to 65535; with 0 the system chooses one",
        ))?
        .arg(port(
            alloc,
            "web",
            "WebSockets at /session of this port, and files; with 0 the system chooses one",
        ))?
        .arg(unix)?
        .arg(host)?
        .group(doors)
}

/// What a browser may have.
fn with_web<'a>(alloc: Global, serve: Command<'a>) -> Result<Command<'a>, AllocError> {
    let origin = Arg::new(alloc, "origin")
        .long("origin")
        .value_name("URL")
        .action(ArgAction::Append)
        .requires_arg("web")?
        .help(
            "A page of this origin, as http://127.0.0.1:4712, may begin a session; it may be given several times",
        );
    let files = Arg::new(alloc, "files")
        .long("files")
        .value_name("FOLDER")
        .action(ArgAction::Set)
        .requires_arg("web")?
        .help("The files of this folder are served at --web; without it 404");
    serve.arg(origin)?.arg(files)
}

/// Whether sessions are told of.
fn log<'a>(alloc: Global) -> Arg<'a> {
    Arg::new(alloc, "log")
        .long("log")
        .action(ArgAction::SetTrue)
        .help("Writes a line on standard error where a session begins, and where it ends")
}

fn serve<'a>(alloc: Global) -> Result<Command<'a>, AllocError> {
    let serve = Command::new(alloc, "serve")
        .about("Answers sessions over TCP, WebSockets or a socket file")
        .long_about(
            "Answers sessions at doors: over TCP (--port), in the messages of WebSockets
(--web), over a socket file (--unix), at one or several of them. Standard input
isn't read. Printed is a line for each door, `port <number>`, `web <number>`,
`unix <path>`, in this order. A session has the form that `hub replay --help` tells;
all of them share one text. The program goes on until it is killed; with --sessions
it ends when so many sessions have ended. The text is gone with it, unless --store
keeps its changes.",
        )
        .after_help(AFTER_SERVE);
    with_web(alloc, with_doors(alloc, serve)?)?
        .arg(size(alloc))?
        .arg(store(alloc))?
        .arg(accept_loss(alloc)?)?
        .arg(sessions(alloc))?
        .arg(at_once(alloc)?)?
        .arg(idle(alloc))?
        .arg(log(alloc))?
        .arg(workers(alloc))?
        .arg(read(alloc))?
        .arg(counter_jump(alloc))?
        .arg(memory(alloc))?
        .arg(per_session(alloc))
}

/// The command line of the program.
pub fn hub<'a>(alloc: Global) -> Result<Command<'a>, AllocError> {
    Command::new(alloc, "hub")
        .version("0.2.0 (rattle-kit-13f)")
        .about("A hub for one shared rich text, with verdicts of BPF programs on its spans")
        .long_about(
            "A hub for one shared rich text, with verdicts of BPF programs on its spans. Each
command but `adopt` and `serve` reads standard input, in the form that its own help
tells (as `hub spans --help`), and prints on standard output.",
        )
        .after_help(STATUSES)
        .subcommand_required(true)
        .arg_required_else_help(true)
        .subcommand(adopt(alloc)?)?
        .subcommand(asm(alloc))?
        .subcommand(check(alloc)?)?
        .subcommand(dis(alloc))?
        .subcommand(join(alloc)?)?
        .subcommand(replay(alloc)?)?
        .subcommand(run(alloc)?)?
        .subcommand(serve(alloc)?)?
        .subcommand(spans(alloc)?)?
        .subcommand(straighten(alloc))?
        .subcommand(test(alloc)?)
}
