//! What is reported of cases that were tried.
ghost use Rattle.std.specs.Prelude.{◌≡◌, ◌++◌, Some, IfOk, OnOk};
ghost use Rattle.std.specs.List.{flat_map};
ghost use Rattle.std.specs.String.{string_bytes};
ghost use Rattle.filter_cases.specs.Report.{passes, passed, failed, line_of, element_end, element_of, summary, junit};
ghost use Rattle.filter_cases.specs.Report.{report};

use crate::case::Case;
use crate::xml::XmlText;
use std::alloc::{AllocError, Global};
use std::fmt;
use std::marker::Model;

/// In which form it is reported.
#[derive(Clone, Copy)]
pub enum ReportForm {
    /// A line for each case that didn't pass, and how many passed.
    Lines,
    /// XML of JUnit, which has all cases.
    Junit,
}

/// A case, and the verdict that the filter gave on its span.
#[derive(Drop)]
pub struct Tried {
    pub case: Case,
    pub got: u64,
}

impl Model for Tried {
    ghost use Rattle.filter_cases.specs.Report.{Tried as TriedValue};

    ghost Value = { TriedValue };

    ghost view = { λ t. record { case = t.case; got = t.got } };
}

impl Tried {
    /// Whether the verdict is the wanted one.
    pub fn passes(&self) -> bool
        ensures { result ≡ passes self.now }
    {
        self.case.wanted().is_met(self.got)
    }
}

/// How many passed.
pub fn passed(all: &[Tried]) -> usize
    ensures { result ≡ passed all.now }
{
    let mut count = 0;
    for tried in all {
        if tried.passes() {
            count += 1;
        }
    }
    count
}

/// How many didn't pass.
pub fn failed(all: &[Tried]) -> usize
    ensures { result ≡ failed all.now }
{
    let mut count = 0;
    for tried in all {
        if !tried.passes() {
            count += 1;
        }
    }
    count
}

/// Appends the line of a case that didn't pass.
fn push_line(alloc: Global, text: &mut String, tried: &Tried) -> Result<(), AllocError>
    ensures { OnOk result (string_bytes text.new ≡ string_bytes text.old ++ line_of tried.now) }
{
    if tried.passes() {
        return Ok(());
    }
    let line = tried.case.line();
    let wanted = tried.case.wanted();
    let got = tried.got;
    let failure = format!(in alloc; "case {line} wanted {wanted} got {got}\n")?;
    text.push_str(failure.as_str())
}

/// The cases that didn't pass, a line each, and how many passed.
fn lines(alloc: Global, all: &[Tried]) -> Result<String, AllocError>
    ensures { IfOk result (λ text. string_bytes text ≡ flat_map line_of all.now ++ summary all.now) }
{
    let mut text = String::new(alloc);
    for tried in all {
        push_line(alloc, &mut text, tried)?;
    }
    let passed = passed(all);
    let failed = failed(all);
    let summary = format!(in alloc; "{passed} passed, {failed} failed\n")?;
    text.push_str(summary.as_str())?;
    Ok(text)
}

/// How the element of a case ends.
#[derive(Clone, Copy)]
struct ElementEnd<'a>(&'a Tried);

impl fmt::Display for ElementEnd<'_> {
    ghost output = { λ end. Some (element_end end.0.now) };

    fn fmt<W: fmt::Write>(&self, f: &mut fmt::Formatter<W>) -> fmt::Result {
        let tried = self.0;
        if tried.passes() {
            return f.write_str("\"/>\n");
        }
        let wanted = tried.case.wanted();
        let got = tried.got;
        write!(
            f,
            "\"><failure message=\"wanted {wanted}, got {got}\"/></testcase>\n"
        )
    }
}

/// The element of a case.
#[derive(Clone, Copy)]
struct Element<'a>(&'a Tried);

impl fmt::Display for Element<'_> {
    ghost output = { λ element. Some (element_of element.0.now) };

    #[tactic(auto, unfolding(crate::specs::Report::element_of))]
    fn fmt<W: fmt::Write>(&self, f: &mut fmt::Formatter<W>) -> fmt::Result {
        let tried = self.0;
        let line = tried.case.line();
        let name = XmlText(tried.case.text());
        let end = ElementEnd(tried);
        write!(
            f,
            "  <testcase classname=\"hub test\" name=\"line {line}: {name}{end}"
        )
    }
}

/// Appends the element of a case.
fn push_element(alloc: Global, text: &mut String, tried: &Tried) -> Result<(), AllocError>
    ensures { OnOk result (string_bytes text.new ≡ string_bytes text.old ++ element_of tried.now) }
{
    let element = format!(in alloc; "{}", Element(tried))?;
    text.push_str(element.as_str())
}

/// The elements of the cases.
fn elements(alloc: Global, all: &[Tried]) -> Result<String, AllocError>
    ensures { IfOk result (λ text. string_bytes text ≡ flat_map element_of all.now) }
{
    let mut text = String::new(alloc);
    for tried in all {
        push_element(alloc, &mut text, tried)?;
    }
    Ok(text)
}

/// The XML of JUnit.
fn junit(alloc: Global, all: &[Tried]) -> Result<String, AllocError>
    ensures { IfOk result (λ text. string_bytes text ≡ junit all.now) }
{
    let tests = all.len();
    let failures = failed(all);
    let elements = elements(alloc, all)?;
    format!(in alloc;
        "<?xml version=\"1.0\" encoding=\"UTF-8\"?>\n<testsuite name=\"hub test\" tests=\"{tests}\" failures=\"{failures}\">\n{elements}</testsuite>\n"
    )
}

/// What is reported of the cases.
pub fn report(alloc: Global, form: ReportForm, all: &[Tried]) -> Result<String, AllocError>
    ensures { IfOk result (λ text. string_bytes text ≡ report form all.now) }
{
    match form {
        ReportForm::Lines => lines(alloc, all),
        ReportForm::Junit => junit(alloc, all),
    }
}
