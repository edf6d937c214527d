ghost use Rattle.std.specs.Prelude.{◌≡◌, ◌++◌, IfSome, OnOk, OnErr, string_bytes};
ghost use Rattle.bpf_words.specs.Encoding.{IsInsn};
ghost use Rattle.bpf_words.specs.Words.{program_of};
ghost use Rattle.assembler.specs.Text.{AsmText};
ghost use Rattle.disassembler.specs.Canonical.{line_of, canonical};

use crate::line::Line;
use bpf_words::instruction::Insn;
use bpf_words::words::Words;
use std::alloc::AllocError;

/// Appends the line of a slot, where an instruction begins there.
#[tactic(auto, unfolding(crate::specs::Canonical::canonical_line))]
fn push_line(lines: &mut String, insn: Option<Insn>) -> Result<(), AllocError>
    ensures { OnOk result (string_bytes lines.new ≡ string_bytes lines.old ++ line_of insn) }
{
    match insn {
        Some(insn) => writeln!(lines, "{}", Line(insn)),
        None => Ok(()),
    }
}

/// Appends a program's canonical text, which assembles back to the program's bytes. After a refusal the text is as it
/// was.
#[tactic(auto, using(crate::proofs::Listing::listing))]
pub fn disassemble(words: &Words<'_>, text: &mut String) -> Result<(), AllocError>
    ensures appended { OnOk result (string_bytes text.new ≡ string_bytes text.old ++ canonical (program_of words.now)) }
    ensures assembles { AsmText (canonical (program_of words.now)) words.now }
    ensures unchanged { OnErr result (string_bytes text.new ≡ string_bytes text.old) }
{
    let mut lines = String::new(*text.allocator());
    for index in 0..words.len() {
        push_line(&mut lines, words.insn(index))?;
    }
    text.push_str(lines.as_str())
}
