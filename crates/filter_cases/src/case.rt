//! One case.
ghost use Rattle.std.specs.Prelude.{◌≡◌, ◌≤◌, ℕ, List, ◌∷◌, IfOk, MatchOption, length};
ghost use Rattle.span_context.specs.Context.{Fits, span_bytes, context_bytes};
ghost use Rattle.filter_cases.specs.Cases.{Case as CaseValue, CaseForm, SaysCase};
ghost use Rattle.filter_cases.specs.Marks.{facts_of, link_of};

use crate::marks::Marks;
use crate::quoted::quoted;
use crate::said::said;
use crate::wanted::Wanted;
use span_context::context::{Context, TEXT_LIMIT};
use std::alloc::{AllocError, Global};
use std::marker::Model;

/// A span, and the verdict that a filter is to give on it.
#[derive(Drop)]
pub struct Case {
    /// From 1.
    line: usize,
    text: String,
    marks: Marks,
    wanted: Wanted,
}

impl Model for Case {
    ghost use Rattle.std.specs.Prelude.{◌≤◌, length};
    ghost use Rattle.std.specs.String.{string_bytes};
    ghost use Rattle.filter_cases.specs.Cases.{Case as CaseValue};

    ghost Value = { CaseValue };

    ghost view = { λ c. record { line = c.line; text = string_bytes c.text; marks = c.marks; wanted = c.wanted } };

    ghost invariant = { λ c. length (string_bytes c.text) ≤ 131072 };
}

impl Case {
    /// The number of its line, from 1.
    pub fn line(&self) -> usize
        ensures { result ≡ self.now.line }
    {
        self.line
    }

    /// The span's text.
    pub fn text(&self) -> &str
        ensures value { result.now ≡ self.now.text }
        ensures short { length result.now ≤ 131072 }
    {
        self.text.as_str()
    }

    /// The text of the span's link, none where there is no link.
    pub fn link(&self) -> &[u8]
        ensures value { result.now ≡ link_of self.now.marks }
        ensures short { length result.now ≤ 1024 }
    {
        self.marks.link()
    }

    /// Which verdict is wanted.
    pub fn wanted(&self) -> Wanted
        ensures { result ≡ self.now.wanted }
    {
        self.wanted
    }

    /// What a program may read of the span beside the texts.
    pub fn context(&self) -> Context
        ensures value { result ≡ context_bytes (facts_of self.now.marks self.now.text) }
        ensures fits { Fits (span_bytes result self.now.text (link_of self.now.marks)) }
    {
        Context::new(&self.marks.facts(self.text.as_str()))
    }
}

/// The case of a text and of what a line says behind it.
fn case_with(
    alloc: Global,
    number: usize,
    text: Vec<u8>,
    rest: &[u8],
) -> Result<Option<Case>, AllocError>
    ensures { IfOk result (λ read. MatchOption read ((case : CaseValue) → ¬ SaysCase case text.items rest.now)
        (λ case. (case.line ≡ number) × SaysCase case text.items rest.now)) }
{
    let Ok(text) = String::from_utf8(text) else {
        return Ok(None);
    };
    if text.len() > TEXT_LIMIT {
        return Ok(None);
    }
    let Some((marks, wanted)) = said(alloc, rest)? else {
        return Ok(None);
    };
    Ok(Some(Case {
        line: number,
        text,
        marks,
        wanted,
    }))
}

/// What stands behind a byte at the front of a text.
fn behind(mark: u8, text: &[u8]) -> Option<&[u8]>
    ensures { MatchOption result ((rest : List ℕ) → ¬ (text.now ≡ mark ∷ rest)) (λ rest. text.now ≡ mark ∷ rest.now) }
{
    let Some((first, rest)) = text.split_first() else {
        return None;
    };
    if *first != mark {
        return None;
    }
    Some(rest)
}

/// The case that a line says, the line of a number; None where it says none.
pub(crate) fn case_of(alloc: Global, number: usize, line: &[u8]) -> Result<Option<Case>, AllocError>
    ensures { IfOk result (λ read. MatchOption read ((case : CaseValue) → ¬ CaseForm case line.now)
        (λ case. (case.line ≡ number) × CaseForm case line.now)) }
{
    let Some(input) = behind(b'"', line) else {
        return Ok(None);
    };
    let Some((text, after)) = quoted(alloc, input)? else {
        return Ok(None);
    };
    let Some(rest) = behind(b' ', after) else {
        return Ok(None);
    };
    let Some(case) = case_with(alloc, number, text, rest)? else {
        return Ok(None);
    };
    Ok(Some(case))
}
