//! The lines that say what loads can read of a span.
ghost use Rattle.std.specs.Prelude.{◌≡◌, ◌++◌, ◌∷◌, [], drop, OnOk, string_bytes};
ghost use Rattle.program_reads.specs.Positions.{marked, position_fields};
ghost use Rattle.program_reads.specs.Lines.{comma, names_text, fields_line, bytes_line, runs_text, runs_line};
ghost use Rattle.program_reads.specs.Lines.{read_lines};
ghost use Rattle.span_context.specs.ContextField.{name_of, every_field};

use crate::reads::Reads;
use span_context::context_field::ContextField;
use span_context::profile::Profile;
use std::alloc::AllocError;
use std::fmt::Write as _;

/// Appends a field's name, behind a comma where there is one before it.
fn push_name(text: &mut String, some: bool, field: ContextField) -> Result<(), AllocError>
    ensures { OnOk result (string_bytes text.new ≡ (string_bytes text.old ++ comma some) ++ name_of field) }
{
    if some {
        text.push_str(", ")?;
    }
    text.push_str(field.name())
}

/// Appends the names of the fields that are marked.
fn push_names(text: &mut String, fields: &[bool; 13]) -> Result<(), AllocError>
    ensures { OnOk result (string_bytes text.new ≡ string_bytes text.old
        ++ names_text (marked fields.now every_field)) }
{
    let mut some = false;
    for i in 0..13 {
        if fields[i] {
            push_name(text, some, ContextField::ALL[i])?;
            some = true;
        }
    }
    if !some {
        text.push_str("nothing")?;
    }
    Ok(())
}

/// Appends which fields of the context.
fn push_fields(text: &mut String, fields: &[bool; 13]) -> Result<(), AllocError>
    ensures { OnOk result (string_bytes text.new ≡ string_bytes text.old ++ fields_line fields.now) }
{
    text.push_str("context: ")?;
    push_names(text, fields)?;
    text.push('\n')
}

/// Appends which bytes of a region.
fn push_bytes(text: &mut String, name: &str, count: u64) -> Result<(), AllocError>
    ensures { OnOk result (string_bytes text.new ≡ string_bytes text.old ++ bytes_line name.now count) }
{
    match count.checked_sub(1) {
        Some(last) => writeln!(text, "{name}: bytes 0..={last}"),
        None => writeln!(text, "{name}: nothing"),
    }
}

/// On which spans the verdict is found again, where these of the three fields that give a span's position are listed.
#[tactic(auto, unfolding(crate::specs::Positions::marked))]
fn runs_on(index: bool, count: bool, version: bool) -> &'static str
    ensures { result.now ≡ runs_text (marked (index ∷ count ∷ version ∷ []) position_fields) }
{
    match (index, count, version) {
        (false, false, false) => "runs where a span changes",
        (true, false, false) => "runs on every span: it reads the index",
        (false, true, false) => "runs on every span: it reads the count",
        (false, false, true) => "runs on every span: it reads the version",
        (true, true, false) => "runs on every span: it reads the index, the count",
        (true, false, true) => "runs on every span: it reads the index, the version",
        (false, true, true) => "runs on every span: it reads the count, the version",
        (true, true, true) => "runs on every span: it reads the index, the count, the version",
    }
}

/// Appends on which spans the verdict is found again in the next version.
fn push_runs(text: &mut String, fields: &[bool; 13]) -> Result<(), AllocError>
    ensures { OnOk result (string_bytes text.new ≡ string_bytes text.old
        ++ runs_text (marked (drop 8 fields.now) position_fields) ++ 10 ∷ []) }
{
    text.push_str(runs_on(fields[8], fields[9], fields[10]))?;
    text.push('\n')
}

/// Appends a line for the fields of the context, one for the text, one for the link where the profile lends it, and one
/// that says on which spans of the next version the program is run.
pub fn push_reads(text: &mut String, reads: &Reads, profile: Profile) -> Result<(), AllocError>
    ensures { OnOk result (string_bytes text.new ≡ string_bytes text.old ++ read_lines profile reads.now) }
{
    push_fields(text, &reads.fields)?;
    push_bytes(text, "text", reads.text)?;
    if profile.lends_link() {
        push_bytes(text, "link", reads.link)?;
    }
    push_runs(text, &reads.fields)
}
