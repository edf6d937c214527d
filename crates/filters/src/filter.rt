//! Filters, and their runs.
ghost use Rattle.std.specs.Prelude.{◌≡◌, ◌≤◌, ◌↔◌, IsTrue, MatchOption, length};
ghost use Rattle.span_context.specs.Context.{Fits, SpanBytes, span_bytes};
ghost use Rattle.bpf_words.specs.Words.{program_of};
ghost use Rattle.semantics.specs.declared.Outcome.TheVariants.{Done};
ghost use Rattle.semantics.specs.Safe.{IsSpan};
ghost use Rattle.block_layout.specs.Meaning.{IsForward};
ghost use Rattle.loop_check.specs.Labels.{bound_of};
ghost use Rattle.loop_verifier.specs.Labelled.{HasLabels};
ghost use Rattle.program_reads.specs.declared.reads.Reads.{Reads as TheReads};
ghost use Rattle.program_reads.specs.Reads.{AgreesOn};
ghost use Rattle.filters.specs.Filters.{IsFilter, IsBoundOf, DeterminesRuns, constant_bound};
ghost use Rattle.filters.specs.Filters.{longest_run, whole_outcome};

use decoded_rows::rows::Rows;
use interpreter::run::run_within;
use loop_check::label::Bound;
use loop_verifier::verify::STEP_LIMIT;
use program_reads::reads::Reads;
use span_context::context::Context;
use std::marker::Model;
use verifier::verify::Verified;

/// No run of a filter takes more steps: 2^23.
pub fn longest_run() -> usize
    ensures { result ≡ longest_run }
{
    STEP_LIMIT as usize
}

/// How a filter is run.
#[derive(Drop)]
pub(crate) enum Code {
    /// It has no jump back.
    Straight(Verified),
    /// It has a jump back, and this bound.
    Looping(Rows, Bound),
}

/// A program of which every run on a span ends with a number, the verdict: within as many steps as it has slots, where
/// it has no jump back, and within its bound, at most 2^23, where it has one.
pub struct Filter {
    pub(crate) code: Code,
}

impl Drop for Filter {
    fn drop(self) {
        let Filter { code: _ } = self;
    }
}

impl Model for Filter {
    ghost use Rattle.semantics.specs.Step.{Program};
    ghost use Rattle.filters.specs.Codes.{program_in, IsKept};

    ghost Value = { Program };

    ghost view = { λ f. program_in f.code };

    ghost invariant = { λ f. IsKept f.code };
}

impl Filter {
    /// The law that every run of it ends with a number.
    pub fn every_run_ends(&self)
        ensures { IsFilter self.now }
    {
        match &self.code {
            Code::Straight(program) => {
                let _rows = program.rows().len();
            }
            Code::Looping(rows, bound) => {
                let _rows = rows;
                let _bound = bound;
            }
        }
    }

    /// The number of its slots, 1 to 4,096.
    pub fn slots(&self) -> usize
        ensures value { result ≡ length self.now }
        ensures few { result ≤ 4096 }
    {
        match &self.code {
            Code::Straight(program) => program.rows().len(),
            Code::Looping(rows, _) => rows.len(),
        }
    }

    /// Whether no jump of it leads back.
    pub fn is_straight(&self) -> bool
        ensures { IsTrue result ↔ IsForward self.now }
    {
        match &self.code {
            Code::Straight(_) => true,
            Code::Looping(_, _) => false,
        }
    }

    /// A bound of the steps of its runs: the number of its slots, where no jump leads back (`straight`), and the bound
    /// for which it has inductive labels, where one does (`labels`).
    pub fn bound(&self) -> Bound
        ensures bound { IsBoundOf self.now (bound_of result) }
        ensures straight { IsForward self.now → bound_of result ≡ constant_bound (length self.now) }
        ensures labels { ¬ IsForward self.now → HasLabels self.now (bound_of result) }
    {
        match &self.code {
            Code::Straight(program) => Bound {
                constant: program.rows().len() as u64,
                per_byte: 0,
                per_link_byte: 0,
            },
            Code::Looping(_, bound) => *bound,
        }
    }

    /// What its loads can read of a span: spans that agree on it have one verdict. It is unknown only where a jump
    /// leads back.
    pub fn reads(&self) -> Option<Reads>
        ensures { MatchOption result (¬ IsForward self.now) (λ reads. DeterminesRuns reads self.now) }
    {
        match &self.code {
            Code::Straight(program) => {
                let _rows = program.rows().len();
                Some(program.reads())
            }
            Code::Looping(_, _) => None,
        }
    }

    /// The number with which the run on a span ends.
    fn ended(&self, context: &Context, text: &[u8], link: &[u8]) -> u64
        requires { Fits (span_bytes context.now text.now link.now) }
        ensures verdict { whole_outcome self.now (span_bytes context.now text.now link.now) ≡ Done result }
        ensures lent { IsSpan (span_bytes context.now text.now link.now) }
    {
        match &self.code {
            Code::Straight(program) => {
                let rows = program.rows();
                run_within(rows, rows.len(), context, text, link)
            }
            Code::Looping(rows, _) => run_within(rows, longest_run(), context, text, link),
        }
    }

    /// The verdict on a span, and on each that agrees with it on what the filter reads. A run of it meets no fault, so
    /// there is none to answer; it takes no memory.
    pub fn run(&self, context: &Context, text: &[u8], link: &[u8]) -> u64
        requires { Fits (span_bytes context.now text.now link.now) }
        ensures verdict { whole_outcome self.now (span_bytes context.now text.now link.now) ≡ Done result }
        ensures alike { (reads : TheReads) (other : SpanBytes) → DeterminesRuns reads self.now → IsSpan other
            → AgreesOn reads (span_bytes context.now text.now link.now) other
            → whole_outcome self.now other ≡ Done result }
    {
        self.ended(context, text, link)
    }
}
