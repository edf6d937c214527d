use std::alloc::{AllocError, Global};

/// The first word of a line, and what stands behind it.
pub fn parted(line: &str) -> (&str, &str) {
    line.split_once(' ').unwrap_or((line, ""))
}

/// The number that a text is of, or one that names nothing.
pub fn number(text: &str) -> usize {
    text.parse().unwrap_or(usize::MAX)
}

fn push_line(lines: &mut String, mark: &str, line: &str) -> Result<(), AllocError> {
    lines.push_str(mark)?;
    lines.push_str(line)?;
    lines.push('\n')
}

/// Appends a line with a number for `{n}`, and the one before for `{n-1}`.
fn push_numbered(
    alloc: Global,
    lines: &mut String,
    mark: &str,
    line: &str,
    number: u32,
) -> Result<(), AllocError> {
    let before = format!(in alloc; "{}", number.saturating_sub(1))?;
    let here = format!(in alloc; "{number}")?;
    let line = line.replace(alloc, "{n-1}", before.as_str())?;
    let line = line.as_str().replace(alloc, "{n}", here.as_str())?;
    push_line(lines, mark, line.as_str())
}

/// Appends a line for each of the numbers, all but the last as one that is not told of.
fn push_counted(
    alloc: Global,
    lines: &mut String,
    first: u32,
    last: u32,
    line: &str,
) -> Result<(), AllocError> {
    for number in first..last {
        push_numbered(alloc, lines, "~", line, number)?;
    }
    push_numbered(alloc, lines, "", line, last)
}

/// Appends the lines that a line of a case stands for.
fn push_lines(alloc: Global, lines: &mut String, line: &str) -> Result<(), AllocError> {
    let (key, rest) = parted(line);
    let (count, text) = parted(rest);
    match key {
        "#" => Ok(()),
        "times" => push_counted(alloc, lines, 1, count.parse().unwrap_or(1), text),
        "count" => {
            let (last, text) = parted(text);
            push_counted(
                alloc,
                lines,
                count.parse().unwrap_or(1),
                last.parse().unwrap_or(1),
                text,
            )
        }
        _ => push_line(lines, "", line),
    }
}

/// The lines of a case, without comments, and with those that stand for many lines written out. All but the last of
/// these begin with
/// `~`.
pub fn written_out(alloc: Global, case: &str) -> Result<String, AllocError> {
    let mut lines = String::new(alloc);
    for line in case.lines() {
        push_lines(alloc, &mut lines, line)?;
    }
    Ok(lines)
}

/// What a line says without its mark, and whether it had one.
pub fn unmarked(line: &str) -> (&str, bool) {
    match line.strip_prefix('~') {
        Some(rest) => (rest, true),
        None => (line, false),
    }
}

/// The text of a change: the one that was kept, or else the rest of an event's line, whose lines are parted by ` / `.
pub fn change_text(alloc: Global, kept: &str, rest: &str) -> Result<String, AllocError> {
    if rest.is_empty() {
        return String::from_str(alloc, kept);
    }
    let mut text = rest.replace(alloc, " / ", "\n")?;
    text.push('\n')?;
    Ok(text)
}

/// Keeps further text, if this line says so. It answers whether it does.
pub fn keep(kept: &mut String, key: &str, rest: &str) -> Result<bool, AllocError> {
    match key {
        "line" => {
            kept.push_str(rest)?;
            kept.push('\n')?;
            Ok(true)
        }
        "text" => {
            kept.push_str(rest)?;
            Ok(true)
        }
        _ => Ok(false),
    }
}
