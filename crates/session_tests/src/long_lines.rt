use change_ops::size::Size;
use hub_requests::limits::SessionOptions;
use hub_sessions::replaying::replay;
use std::alloc::{AllocError, Global};
use std::test::Fail;
use test_inputs::devices::FailingReader;

/// A `sub` of the longest program, whose verdict is the greatest, a change, and a pull.
fn longest_program(alloc: Global) -> Result<String, AllocError> {
    let mut lines = "b7000000ffffffff".repeat(alloc, 4095)?;
    lines.insert_str(0, "sub 2 ")?;
    lines.push_str("9500000000000000\nchange 1 1\ni 1@1 - 61\npull 0 5\n")?;
    Ok(lines)
}

const LONGEST_PROGRAM_REPLIES: &str = "ok sub 0
ok version 1
end 0 0
hit 1 0 18446744073709551615
end 1 1
ok items 3
";

#[test]
fn the_longest_program_comes_byte_by_byte(rt: HostRuntime) -> Result<(), Fail> {
    let lines = longest_program(rt.alloc())?;
    let mut reader = FailingReader {
        rest: lines.as_bytes(),
        good: usize::MAX,
        failed: false,
    };
    let mut out = Vec::new(rt.alloc());
    let ended = replay(
        &rt,
        rt.alloc(),
        Size::Small,
        &mut reader,
        &mut out,
        2,
        SessionOptions::unlimited(false),
    );
    assert!(rt; ended.is_ok());
    assert_eq!(rt; out.as_slice(), LONGEST_PROGRAM_REPLIES.as_bytes());
    Ok(())
}

/// A character, and 255 links of 1,024 bytes on it.
fn longest_change(alloc: Global) -> Result<String, AllocError> {
    let target = "a".repeat(alloc, 1024)?;
    let mut lines = format!(in alloc; "change 1 256\ni 1@1 - 61\n")?;
    for counter in 2..257u32 {
        let line = format!(in alloc; "m {counter}@1 link {target} <1@1 >1@1\n")?;
        lines.push_str(&line)?;
    }
    Ok(lines)
}

#[test]
fn the_longest_links_are_one_change(rt: HostRuntime) -> Result<(), Fail> {
    let lines = longest_change(rt.alloc())?;
    let mut out = Vec::new(rt.alloc());
    let ended = replay(
        &rt,
        rt.alloc(),
        Size::Small,
        lines.as_bytes(),
        &mut out,
        1,
        SessionOptions::unlimited(false),
    );
    assert!(rt; ended.is_ok());
    assert_eq!(rt; out.as_slice(), "ok version 1\n".as_bytes());
    Ok(())
}
