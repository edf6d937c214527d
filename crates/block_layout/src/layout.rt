//! A program laid out from its last slot to its first.
ghost use Rattle.std.specs.Prelude.{◌<◌, ◌^◌};

use crate::check::aimed;
use crate::ways::{falls, target};
use bpf_words::encoding::encode;
use bpf_words::instruction::Insn;
use bpf_words::words::Words;
use std::alloc::{AllocError, Global};

/// A program's bytes, and by old slots where each went and how high it stands: lower than all that lead to it, and 0
/// where no run comes.
#[derive(Drop)]
pub(crate) struct Layout {
    pub(crate) bytes: Vec<u8>,
    pub(crate) places: Vec<usize>,
    pub(crate) heights: Vec<usize>,
}

/// The slots that are laid out, from the last to the first, and by old slots how many there are from its place on.
#[derive(Drop)]
struct Laying {
    slots: Vec<Option<Insn>>,
    ends: Vec<usize>,
    heights: Vec<usize>,
}

impl Laying {
    fn new(alloc: Global, count: usize) -> Result<Laying, AllocError> {
        Ok(Laying {
            slots: Vec::new(alloc),
            ends: vec![in alloc; 0; count]?,
            heights: vec![in alloc; 0; count]?,
        })
    }

    fn end_of(&self, slot: usize) -> usize {
        self.ends.get(slot).copied().unwrap_or(0)
    }

    /// How far a jump that is laid out next leads to the place of an old slot.
    fn distance_to(&self, slot: usize) -> i16 {
        let ahead = self.slots.len().saturating_sub(self.end_of(slot));
        i16::try_from(ahead).unwrap_or(i16::MAX)
    }

    /// Lays out a jump to the place of an old slot, unless that comes next.
    fn lead_to(&mut self, slot: usize) -> Result<(), AllocError> {
        let distance = self.distance_to(slot);
        if distance > 0 {
            self.slots.push(Some(Insn::Jump { distance }))?;
        }
        Ok(())
    }

    fn place(&mut self, slot: usize, end: usize, height: usize) {
        if let Some(place) = self.ends.get_mut(slot) {
            *place = end;
        }
        if let Some(place) = self.heights.get_mut(slot) {
            *place = height;
        }
    }

    /// Lays out an instruction before all that are laid out, and before it leads to what comes behind it.
    fn push(&mut self, slot: usize, insn: Insn) -> Result<(), AllocError>
        requires { slot < 2 ^ 32 }
    {
        if falls(&insn) {
            self.lead_to(slot + insn.slots())?;
        }
        let to = insn.distance().and_then(|distance| target(slot, distance));
        let onward = self.distance_to(to.unwrap_or(slot));
        if let Insn::LoadWide { .. } = insn {
            self.slots.push(None)?;
        }
        self.slots.push(Some(aimed(insn, onward)))?;
        Ok(())
    }

    /// Lays out the instruction of an old slot; a jump that is none but that isn't needed, since what leads to it may
    /// lead to where it jumps.
    fn lay(&mut self, slot: usize, insn: Insn, height: usize) -> Result<(), AllocError>
        requires { slot < 2 ^ 32 }
    {
        match insn {
            Insn::Jump { .. } | Insn::JumpLong { .. } => {
                let to = insn.distance().and_then(|distance| target(slot, distance));
                let end = self.end_of(to.unwrap_or(slot));
                self.place(slot, end, height);
            }
            _ => {
                self.push(slot, insn)?;
                let end = self.slots.len();
                self.place(slot, end, height);
            }
        }
        Ok(())
    }

    fn bytes(&self, alloc: Global) -> Result<Vec<u8>, AllocError> {
        let mut bytes = Vec::new(alloc);
        for insn in self.slots.iter().rev() {
            if let Some(insn) = insn {
                bytes.extend_from_slice(encode(*insn).bytes())?;
            }
        }
        Ok(bytes)
    }

    fn places(&self, alloc: Global) -> Result<Vec<usize>, AllocError> {
        let mut places = Vec::new(alloc);
        for end in &self.ends {
            places.push(self.slots.len().saturating_sub(*end))?;
        }
        Ok(places)
    }
}

/// Lays out the instructions of old slots, each of which stands behind all that it leads to.
pub(crate) fn lay_out(
    alloc: Global,
    words: &Words<'_>,
    order: &[usize],
) -> Result<Layout, AllocError> {
    let count = words.len();
    let mut laying = Laying::new(alloc, count)?;
    for (index, slot) in order.iter().enumerate() {
        if *slot < count {
            if let Some(insn) = words.insn(*slot) {
                laying.lay(*slot, insn, index + 1)?;
            }
        }
    }
    Ok(Layout {
        bytes: laying.bytes(alloc)?,
        places: laying.places(alloc)?,
        heights: laying.heights,
    })
}
