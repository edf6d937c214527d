use hub_program::command;
use hub_program::system::InMemory;
use std::fs::Files;
use std::net::{Net, TcpListener, TcpStream};
use std::rt::Clock;
use std::sync::Wait;
use std::test::Fail;
use std::thread::Threads;
use test_inputs::devices::{FailingReader, FailingWriter};

/// The command lines and inputs that the devices are tried with.
static LINES: [(&str, &str, u8); 9] = [
    ("hub run b7000000010000009500000000000000", "text", 0),
    ("hub run 9500000000000000", "", 1),
    ("hub asm", "mov r0, 1\nexit\n", 0),
    ("hub check", "b7000000010000009500000000000000\n", 0),
    (
        "hub check --explain",
        "b7000000010000009500000000000000\n",
        0,
    ),
    ("hub dis", "b7000000010000009500000000000000\n", 0),
    ("hub spans", "change 1 1\ni 1@1 - 61\n", 0),
    ("hub spans", "change 1 1\ni 1@1 - d800\n", 1),
    (
        "hub replay",
        "sub 8 b7000000010000009500000000000000\npull 0 1\n",
        0,
    ),
];

/// How a command ended over devices that fail.
#[derive(Drop)]
struct Outcome {
    status: u8,
    /// Whether it came to a read or a write that failed.
    failed: bool,
    /// What it said on standard error.
    told: String,
}

/// How a command ends where the reader fails after `reads` reads and the writer after `writes` writes.
fn outcome_where_fails<
    H: AllocGlobal
        + Threads
        + Wait
        + Net<Listener = TcpListener, Stream = TcpStream>
        + Files
        + Clock
        + Copy
        + Send
        + Sync,
>(rt: &H, line: &str, input: &str, reads: usize, writes: usize) -> Result<Outcome, Fail> {
    let alloc = rt.alloc();
    let words: Vec<&str> = line.split(' ').collect(alloc)?;
    let mut reader = FailingReader {
        rest: input.as_bytes(),
        good: reads,
        failed: false,
    };
    let mut writer = FailingWriter {
        bytes: Vec::new(alloc),
        good: writes,
        failed: false,
    };
    let mut errors = Vec::new(alloc);
    let status = command(
        rt,
        alloc,
        &InMemory { alloc },
        &InMemory { alloc },
        &words,
        &mut reader,
        &mut writer,
        &mut errors,
    );
    Ok(Outcome {
        status,
        failed: reader.failed || writer.failed,
        told: String::from_utf8(errors)?,
    })
}

#[derive(Clone, Copy)]
enum Device {
    Reader,
    Writer,
}

impl Device {
    /// What is said of its failure, with the system's words.
    fn fault(self) -> &'static str {
        match self {
            Device::Reader =>
                "hub: standard input could not be read: Input/output error (os error 5)\n",
            Device::Writer =>
                "hub: standard output could not be written: No space left on device (os error 28)\n",
        }
    }
}

/// Whether each failure of the device is told and gives the status 3, and the answer is the ample one where it doesn't
/// fail.
fn tells_failures<
    H: AllocGlobal
        + Threads
        + Wait
        + Net<Listener = TcpListener, Stream = TcpStream>
        + Files
        + Clock
        + Copy
        + Send
        + Sync,
>(rt: &H, line: &str, input: &str, ample: u8, device: Device) -> Result<bool, Fail> {
    for good in 0..1000 {
        let (reads, writes) = match device {
            Device::Reader => (good, usize::MAX),
            Device::Writer => (usize::MAX, good),
        };
        let outcome = outcome_where_fails(rt, line, input, reads, writes)?;
        if !outcome.failed {
            return Ok(good > 0 && outcome.status == ample && outcome.told.is_empty());
        }
        if outcome.status != 3 || outcome.told.as_str() != device.fault() {
            return Ok(false);
        }
    }
    Ok(false)
}

/// The first of these command lines that doesn't tell each read and each write that fails, if there is one.
fn first_untold<
    'a,
    H: AllocGlobal
        + Threads
        + Wait
        + Net<Listener = TcpListener, Stream = TcpStream>
        + Files
        + Clock
        + Copy
        + Send
        + Sync,
>(rt: &H, lines: &[(&'a str, &str, u8)]) -> Result<Option<&'a str>, Fail> {
    for &(line, input, ample) in lines {
        let tells = tells_failures(rt, line, input, ample, Device::Reader)?
            && tells_failures(rt, line, input, ample, Device::Writer)?;
        if !tells {
            return Ok(Some(line));
        }
    }
    Ok(None)
}

#[test]
fn a_failed_read_or_write_is_told(rt: HostRuntime) -> Result<(), Fail> {
    assert_eq!(rt; first_untold(&rt, &LINES)?, None);
    Ok(())
}

/// `run` reads one byte past the longest text, and nothing where the bytes are no program.
#[test]
fn run_reads_no_more_than_it_needs(rt: HostRuntime) -> Result<(), Fail> {
    let input = "a".repeat(rt.alloc(), 131_080)?;
    let line = "hub run b7000000010000009500000000000000";
    let long = outcome_where_fails(&rt, line, input.as_str(), 131_073, usize::MAX)?;
    assert_eq!(rt; (long.status, long.failed), (1, false));
    let refused = outcome_where_fails(&rt, "hub run 9", "text", 0, usize::MAX)?;
    assert_eq!(rt; (refused.status, refused.failed), (1, false));
    Ok(())
}
