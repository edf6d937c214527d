//! A walk over all that a run may come to, each slot left once all that it leads to are left.
ghost use Rattle.std.specs.Prelude.{◌<◌, ◌^◌};

use crate::ways::{falls, target};
use bpf_words::instruction::Insn;
use bpf_words::words::Words;
use std::alloc::{AllocError, Global};

/// How far the walk has come with a slot: it looks first where the slot jumps, then behind it, and then it goes back.
#[derive(Clone, Copy)]
enum Mark {
    New,
    Entered,
    Jumped,
    Fallen,
    Left,
}

#[derive(Drop)]
struct Walk {
    marks: Vec<Mark>,
    path: Vec<usize>,
    order: Vec<usize>,
}

impl Walk {
    fn new(alloc: Global, slots: usize) -> Result<Walk, AllocError> {
        Ok(Walk {
            marks: vec![in alloc; Mark::New; slots]?,
            path: Vec::new(alloc),
            order: Vec::new(alloc),
        })
    }

    fn mark(&self, slot: usize) -> Mark {
        self.marks.get(slot).copied().unwrap_or(Mark::Left)
    }

    fn set_mark(&mut self, slot: usize, mark: Mark) {
        if let Some(place) = self.marks.get_mut(slot) {
            *place = mark;
        }
    }

    /// Goes on to a slot, unless it was there.
    fn enter(&mut self, slot: usize) -> Result<(), AllocError> {
        if let Mark::New = self.mark(slot) {
            self.set_mark(slot, Mark::Entered);
            self.path.push(slot)?;
        }
        Ok(())
    }

    fn leave(&mut self, slot: usize) -> Result<(), AllocError> {
        self.set_mark(slot, Mark::Left);
        self.path.pop();
        self.order.push(slot)?;
        Ok(())
    }

    /// The next thing to do at the path's last slot.
    fn step(&mut self, slot: usize, insn: &Insn) -> Result<(), AllocError>
        requires { slot < 2 ^ 32 }
    {
        match self.mark(slot) {
            Mark::Entered => {
                self.set_mark(slot, Mark::Jumped);
                match insn.distance().and_then(|distance| target(slot, distance)) {
                    Some(to) => self.enter(to),
                    None => Ok(()),
                }
            }
            Mark::Jumped if falls(insn) => {
                self.set_mark(slot, Mark::Fallen);
                self.enter(slot + insn.slots())
            }
            _ => self.leave(slot),
        }
    }
}

/// Walks over a program in which no run goes round, from its first slot on: the slots that a run may come to, each
/// behind all that it leads to.
pub(crate) fn visit_all(alloc: Global, words: &Words<'_>) -> Result<Vec<usize>, AllocError> {
    let count = words.len();
    let mut walk = Walk::new(alloc, count)?;
    walk.enter(0)?;
    // There are at most three things to do at each slot.
    for _ in 0..3 * count {
        let Some(&slot) = walk.path.last() else {
            break;
        };
        if slot >= count {
            break;
        }
        if let Some(insn) = words.insn(slot) {
            walk.step(slot, &insn)?;
        }
    }
    Ok(walk.order)
}
