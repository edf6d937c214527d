//! Numbers to which widening goes: those of the program and their neighbors, and the limits.

ghost use Rattle.std.specs.Prelude.{◌≤◌, IfSome};

use abstract_state::state::extended;
use bpf_words::instruction::{Insn, Operand};
use bpf_words::words::Words;
use span_context::context::{LINK_LIMIT, TEXT_LIMIT};
use span_context::size::Size;
use std::alloc::{AllocError, Global};

const TEXT: u64 = TEXT_LIMIT as u64;

const LINK: u64 = LINK_LIMIT as u64;

const WORD: u64 = (1 << 32) - 1;

/// The limits, to which a bound goes in any program.
const LIMITS: [u64; 13] = [
    0,
    1,
    255,
    65_535,
    LINK,
    TEXT,
    LINK - 1,
    TEXT - 1,
    TEXT + 8,
    1 << 20,
    (1 << 31) - 1,
    WORD,
    u64::MAX,
];

/// Those of a bound that grew more often.
const FEW_LIMITS: [u64; 5] = [0, TEXT, 1 << 20, WORD, u64::MAX];

/// How far a bound or a tail goes.
#[derive(Clone, Copy)]
pub(crate) enum Pace {
    /// To the program's own numbers.
    Fine,
    /// To a few limits.
    Coarse,
    /// To all numbers.
    All,
}

#[derive(Drop)]
pub(crate) struct Thresholds {
    bounds: Vec<u64>,
    tails: Vec<u32>,
}

/// The constant of an instruction.
fn constant_of(insn: &Insn) -> Option<u64> {
    let operand = match *insn {
        Insn::Compute { operand, .. } => operand,
        Insn::Branch { right, .. } => right,
        Insn::LoadWide { value, .. } => return Some(value),
        _ => return None,
    };
    match operand {
        Operand::Immediate(value) => Some(extended(value)),
        Operand::Source(_) => None,
    }
}

/// How many bytes an instruction reads from its base on.
fn reach_of(insn: &Insn) -> Option<u32> {
    let Insn::Load { size, offset, .. } = *insn else {
        return None;
    };
    let offset = u32::try_from(offset).ok()?;
    offset.checked_add(bytes_of(size))
}

fn bytes_of(size: Size) -> u32 {
    match size {
        Size::Byte => 1,
        Size::Half => 2,
        Size::Word => 4,
        Size::Double => 8,
    }
}

fn least_from(numbers: &[u64], bound: u64) -> u64 {
    let mut least = u64::MAX;
    for number in numbers {
        if *number >= bound && *number < least {
            least = *number;
        }
    }
    least
}

fn greatest_up_to(numbers: &[u64], bound: u64) -> u64 {
    let mut greatest = 0;
    for number in numbers {
        if *number <= bound && *number > greatest {
            greatest = *number;
        }
    }
    greatest
}

impl Thresholds {
    pub(crate) fn of(alloc: Global, words: &Words<'_>) -> Result<Thresholds, AllocError> {
        let mut thresholds = Thresholds {
            bounds: Vec::new(alloc),
            tails: Vec::new(alloc),
        };
        for slot in 0..words.len() {
            if let Some(insn) = words.insn(slot) {
                thresholds.add_insn(&insn)?;
            }
        }
        Ok(thresholds)
    }

    fn add_insn(&mut self, insn: &Insn) -> Result<(), AllocError> {
        if let Some(constant) = constant_of(insn) {
            self.add_constant(constant)?;
        }
        if let Some(reach) = reach_of(insn) {
            self.tails.push(reach)?;
        }
        Ok(())
    }

    /// The number and its neighbors, at both widths; a small one may count bytes.
    fn add_constant(&mut self, constant: u64) -> Result<(), AllocError> {
        for near in [constant.wrapping_sub(1), constant, constant.wrapping_add(1)] {
            self.bounds.push(near)?;
            self.bounds.push(near & WORD)?;
        }
        if 0 < constant && constant < 4096 {
            self.tails.push(constant as u32)?;
            self.bounds.push(TEXT + constant)?;
        }
        Ok(())
    }

    /// The least threshold from a bound on.
    pub(crate) fn above(&self, pace: Pace, bound: u64) -> u64 {
        match pace {
            Pace::Fine => least_from(&self.bounds, bound).min(least_from(&LIMITS, bound)),
            Pace::Coarse => least_from(&FEW_LIMITS, bound),
            Pace::All => u64::MAX,
        }
    }

    /// The greatest threshold up to a bound.
    pub(crate) fn below(&self, pace: Pace, bound: u64) -> u64 {
        match pace {
            Pace::Fine => greatest_up_to(&self.bounds, bound).max(greatest_up_to(&LIMITS, bound)),
            Pace::Coarse => greatest_up_to(&FEW_LIMITS, bound),
            Pace::All => 0,
        }
    }

    /// The greatest tail of the program up to one.
    pub(crate) fn tail_below(&self, pace: Pace, tail: u32) -> Option<u32>
        ensures { IfSome result (λ t. t ≤ tail) }
    {
        match pace {
            Pace::Fine => {}
            Pace::Coarse => return Some(0),
            Pace::All => return None,
        }
        let mut greatest = if tail > 0 { 1 } else { 0 };
        for other in &self.tails {
            if *other <= tail && *other > greatest {
                greatest = *other;
            }
        }
        Some(greatest.min(tail))
    }
}
