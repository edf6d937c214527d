ghost use Rattle.std.specs.Prelude.{◌≡◌, ◌≤◌, ◌<◌, length, take, drop, sum_by, option_map, IfOk, OnOk, OnErr};
ghost use Rattle.std.specs.List.{list_any};
ghost use Rattle.assembler_lines.specs.Lending.{bytes_seen};
ghost use Rattle.assembler_lines.specs.Slots.{definition, has_label, lines_of, first_slot, slots, label_of};
ghost use Rattle.assembler.specs.Labels.{defined_at, Defines, DefinesLabel, held, HoldsLabels, HoldsSame, is_before};
ghost use Rattle.assembler.specs.Lines.{lines_left};

use crate::lines::first_line;
use assembler_lines::form::Form;
use assembler_lines::mnemonics::mnemonic;
use assembler_lines::reading::reading;
use assembler_lines::scanner::next;
use assembler_lines::statement::Statement;
use assembler_lines::token::{Next, Sign, Token};
use std::alloc::{AllocError, Global};
use std::collections::BTreeMap;

/// The line that defines a label, by its index, and the slot that the label stands for.
#[derive(Clone, Copy)]
pub(crate) struct Definition {
    pub(crate) index: usize,
    pub(crate) slot: usize,
}

/// Labels by their names.
type Definitions<'a> = BTreeMap<&'a [u8], Definition>;

/// The slots that a line takes, right or at fault.
#[tactic(auto, unfolding(assembler_lines::specs::Slots::slots, assembler_lines::specs::Mnemonics::name_of))]
fn slots(line: &[u8]) -> usize
    ensures value { result ≡ slots line.now }
    ensures bound { result ≤ length line.now }
{
    let Next::Found(first, behind) = next(line) else {
        return 0;
    };
    let Token::Word(word) = first else {
        return 1;
    };
    if let Next::Found(Token::Mark(Sign::Colon), _) = next(behind) {
        return 0;
    }
    if word == mnemonic(Form::LoadWide).as_bytes() {
        2
    } else {
        1
    }
}

/// The name of a line that is a label.
#[tactic(auto, unfolding(assembler_lines::specs::Slots::label_of))]
fn label(line: &[u8]) -> Option<&[u8]>
    ensures { option_map bytes_seen result ≡ label_of line.now }
{
    match reading(line) {
        Ok(Statement::Label(name)) => Some(name),
        _ => None,
    }
}

/// The definition of a label among those that are known.
fn definition_of<'a>(known: &Definitions<'a>, name: &'a [u8]) -> Option<Definition>
    ensures { result ≡ held known.now name.now }
{
    known.get(&name).copied()
}

/// Whether there is a definition, before the line of an index.
fn is_before(found: Option<Definition>, index: usize) -> bool
    ensures { result ≡ is_before index found }
{
    match found {
        Some(definition) => definition.index < index,
        None => false,
    }
}

/// Defines a label, unless it is defined before.
fn define<'a>(
    known: &mut Definitions<'a>,
    name: &'a [u8],
    definition: Definition,
) -> Result<(), AllocError>
    ensures defined { OnOk result (Defines known.old known.new name.now definition) }
    ensures kept { OnErr result (HoldsSame known.old known.new) }
{
    if !known.contains_key(&name) {
        known.insert(name, definition)?;
    }
    Ok(())
}

/// Defines a line's label, where it is one: whether it is.
fn define_in<'a>(
    known: &mut Definitions<'a>,
    line: &'a [u8],
    definition: Definition,
) -> Result<bool, AllocError>
    ensures defined { OnOk result (DefinesLabel known.old known.new (label_of line.now) definition) }
    ensures kept { OnErr result (HoldsSame known.old known.new) }
{
    match label(line) {
        Some(name) => {
            define(known, name, definition)?;
            Ok(true)
        }
        None => Ok(false),
    }
}

/// The labels of a text, which is read as far as they are asked for.
#[derive(Drop)]
pub(crate) struct Labels<'a> {
    source: &'a [u8],
    /// The labels of the lines that were read, each by the first line that has it.
    known: Definitions<'a>,
    /// How many lines were read.
    count: usize,
    /// The slot at which the next line begins.
    slot: usize,
    /// The text that is still to be read, where there is a next line.
    rest: Option<&'a [u8]>,
    ghost left: { lines_left rest ≡ drop count (lines_of source.now) },
    ghost held: { HoldsLabels (lines_of source.now) count known },
    ghost at_slot: { slot ≡ first_slot (lines_of source.now) count },
    ghost fits: { slot ≤ sum_by length (take count (lines_of source.now)) },
}

impl<'a> Labels<'a> {
    /// No line is read yet.
    pub(crate) fn new(alloc: Global, source: &'a str) -> Labels<'a>
        ensures same { result.source.now ≡ source.now }
    {
        Labels {
            source: source.as_bytes(),
            known: BTreeMap::new(alloc),
            count: 0,
            slot: 0,
            rest: Some(source.as_bytes()),
        }
    }

    /// Reads the line at the front of the text that is left: whether it is a label.
    fn read_line(&mut self, text: &'a [u8]) -> Result<bool, AllocError>
        requires text { lines_left self.old.rest ≡ lines_of text.now }
        ensures same { OnOk result (self.new.source ≡ self.old.source) }
        ensures fewer { OnOk result (length (lines_left self.new.rest) < length (lines_left self.old.rest)) }
    {
        let (line, behind) = first_line(text);
        let definition = Definition {
            index: self.count,
            slot: self.slot,
        };
        let is_label = define_in(&mut self.known, line, definition)?;
        self.count += 1;
        self.slot += slots(line);
        self.rest = behind;
        Ok(is_label)
    }

    /// Reads on until a line is a label, or to the end.
    fn read_label(&mut self) -> Result<(), AllocError>
        requires { 0 < length (lines_left self.old.rest) }
        ensures same { OnOk result (self.new.source ≡ self.old.source) }
        ensures fewer { OnOk result (length (lines_left self.new.rest) < length (lines_left self.old.rest)) }
    {
        while let Some(text) = self.rest {
            if self.read_line(text)? {
                break;
            }
        }
        Ok(())
    }

    /// Where a label is defined. Lines are read on until one defines it.
    pub(crate) fn find(&mut self, name: &'a [u8]) -> Result<Option<Definition>, AllocError>
        ensures same { OnOk result (self.new.source ≡ self.old.source) }
        ensures found { IfOk result (λ found. found
            ≡ option_map (defined_at (lines_of self.old.source.now))
            (definition (lines_of self.old.source.now) name.now)) }
    {
        loop {
            let found = definition_of(&self.known, name);
            if found.is_some() || self.rest.is_none() {
                return Ok(found);
            }
            self.read_label()?;
        }
    }

    /// Whether a line before that of an index is a label of the name. The lines before it are read.
    pub(crate) fn is_taken(&mut self, name: &'a [u8], index: usize) -> Result<bool, AllocError>
        ensures same { OnOk result (self.new.source ≡ self.old.source) }
        ensures found { IfOk result (λ is_taken. is_taken
            ≡ list_any (has_label name.now) (take index (lines_of self.old.source.now))) }
    {
        while self.count < index {
            let Some(text) = self.rest else {
                break;
            };
            self.read_line(text)?;
        }
        Ok(is_before(definition_of(&self.known, name), index))
    }
}
