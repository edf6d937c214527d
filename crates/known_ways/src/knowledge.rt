//! What the verifier knows before the slots of a program, and on the ways between them.
ghost use Rattle.std.specs.Prelude.{◌≡◌, ◌++◌, ◌+◌, ◌<◌, ◌≤◌, [], length, option_map, slice_get, false, IfOk};
ghost use Rattle.std.specs.Prelude.{MatchOption, Some, None};
ghost use Rattle.std.specs.Prelude.{◌≢◌, nat_eq, if◌then◌else◌};
ghost use Rattle.bpf_words.specs.Flow.{StartsAt, jump_of, slots_of, written_by};
ghost use Rattle.bpf_words.specs.Words.{program_of};
ghost use Rattle.tracked_state.specs.Rules.{TrackedWays};
ghost use Rattle.tracked_state.specs.Tracked.{tracked_of};
ghost use Rattle.verifier.specs.Decides.{IsAllowedBelow, granted, known_before, led};
ghost use Rattle.verifier.specs.Structure.{IsStructured};
ghost use Rattle.known_ways.specs.Ways as rules;
ghost use Rattle.known_ways.specs.Ways.{KnownBelow, ways_at, ways_below, ways_by, leads_to, forward_target, target_at};
ghost use Rattle.known_ways.specs.Ways.{situation_before, only_from};
ghost use Rattle.known_ways.specs.Told.{AreTargets, AreJumpedTo, IsBehind, way_from, ways_seen, situation_seen};

use crate::before::states_until;
use crate::behind::{Behind, pass};
use crate::jumps::{are_jumped_to, leads, target, targets};
use crate::place::insn_at;
use crate::way::{KnownWay, push_way};
use crate::whole::is_whole;
use abstract_state::state::AbsState;
use bpf_words::instruction::Insn;
use bpf_words::words::Words;
use span_context::profile::Profile;
use std::alloc::{AllocError, Global};
use tracked_state::state::TrackedState;

/// What is known of a program before its slots, with the copies that are followed there, up to one of them, and where
/// its jumps lead.
#[derive(Drop)]
pub struct Knowledge<'a> {
    pub words: &'a Words<'a>,
    pub profile: Profile,
    states: Vec<Option<TrackedState>>,
    /// Where each slot's jump leads, and to which slots one does.
    targets: Vec<Option<usize>>,
    are_jumped_to: Vec<bool>,
    ghost within: { length states.items ≤ length (program_of words.now) },
    ghost structured: { IsStructured (program_of words.now) },
    ghost targeted: { AreTargets (program_of words.now) targets.items },
    ghost jumped: { AreJumpedTo (program_of words.now) are_jumped_to.items },
}

/// Appends the way on to the next instruction, if that stands at a slot.
fn push_next(
    ways: &mut Vec<KnownWay>,
    from: usize,
    slot: usize,
    insn: &Insn,
    next: &Option<AbsState>,
) -> Result<(), AllocError>
    requires { from < 4096 }
    ensures { IfOk result (λ _. ways_seen ways.new.items ≡ ways_seen ways.old.items
        ++ (if nat_eq slot (from + slots_of insn.now) then way_from from next.now else [])) }
{
    let leads = slot == from + insn.slots();
    push_way(ways, leads, from, next)
}

/// Appends the way along the jump of an instruction, if that leads to a slot.
fn push_jump(
    ways: &mut Vec<KnownWay>,
    from: usize,
    slot: usize,
    insn: &Insn,
    jumped: &Option<AbsState>,
) -> Result<(), AllocError>
    requires { from < 4096 }
    ensures { IfOk result (λ _. ways_seen ways.new.items ≡ ways_seen ways.old.items
        ++ (if leads_to slot (forward_target from (jump_of insn.now)) then way_from from jumped.now else [])) }
{
    let target = target(from, insn);
    push_way(ways, leads(target, slot), from, jumped)
}

/// Appends the ways along the edges of an instruction that lead to a slot: on to the next one, then by its jump.
fn push_behind(
    ways: &mut Vec<KnownWay>,
    from: usize,
    slot: usize,
    insn: &Insn,
    behind: &Behind,
) -> Result<(), AllocError>
    requires below { from < slot }
    requires few { from < 4096 }
    ensures { (w : TrackedWays) → IsBehind behind.now w → IfOk result (λ _. ways_seen ways.new.items
        ≡ ways_seen ways.old.items ++ ways_by slot from insn.now w) }
{
    push_next(ways, from, slot, insn, &behind.next)?;
    push_jump(ways, from, slot, insn, &behind.jumped)?;
    Ok(())
}

/// Appends the ways from an instruction to a slot, by what is known before it.
fn push_passed(
    alloc: Global,
    profile: Profile,
    ways: &mut Vec<KnownWay>,
    from: usize,
    slot: usize,
    insn: &Insn,
    before: &TrackedState,
) -> Result<(), AllocError>
    requires below { from < slot }
    requires few { from < 4096 }
    requires spares { written_by insn.now ≢ Some 10 }
    ensures { IfOk result (λ _. ways_seen ways.new.items ≡ ways_seen ways.old.items
        ++ ways_by slot from insn.now (granted (led profile from insn.now (tracked_of before.now)))) }
{
    let behind = pass(alloc, profile, before, insn)?;
    push_behind(ways, from, slot, insn, &behind)?;
    Ok(())
}

impl<'a> Knowledge<'a> {
    /// Of a program below whose last slot here none is refused.
    pub fn until(
        alloc: Global,
        words: &'a Words<'a>,
        profile: Profile,
        last: usize,
    ) -> Result<Knowledge<'a>, AllocError>
        requires within { last < length (program_of words.now) }
        requires allowed { IsAllowedBelow profile (program_of words.now) last }
        ensures words { IfOk result (λ knowledge. knowledge.words.now ≡ words.now) }
        ensures profile { IfOk result (λ knowledge. knowledge.profile ≡ profile) }
        ensures known { IfOk result (λ knowledge.
            KnownBelow knowledge.profile (program_of knowledge.words.now) knowledge.states.items) }
        ensures count { IfOk result (λ knowledge. length knowledge.states.items ≡ last + 1) }
    {
        let states = states_until(alloc, words, profile, last)?;
        Knowledge::of(alloc, words, profile, states)
    }

    /// Of a program and what is known before each of its first slots.
    pub fn of(
        alloc: Global,
        words: &'a Words<'a>,
        profile: Profile,
        states: Vec<Option<TrackedState>>,
    ) -> Result<Knowledge<'a>, AllocError>
        requires within { length states.items ≤ length (program_of words.now) }
        requires structured { IsStructured (program_of words.now) }
        requires known { KnownBelow profile (program_of words.now) states.items }
        ensures words { IfOk result (λ knowledge. knowledge.words.now ≡ words.now) }
        ensures profile { IfOk result (λ knowledge. knowledge.profile ≡ profile) }
        ensures known { IfOk result (λ knowledge.
            KnownBelow knowledge.profile (program_of knowledge.words.now) knowledge.states.items) }
        ensures count { IfOk result (λ knowledge. length knowledge.states.items ≡ length states.items) }
    {
        let targets = targets(alloc, words)?;
        let are_jumped_to = are_jumped_to(alloc, &targets)?;
        Ok(Knowledge {
            words,
            profile,
            states,
            targets,
            are_jumped_to,
        })
    }

    /// What is known before a slot, if a run may come there.
    pub fn before(&self, slot: usize) -> Option<&AbsState>
        ensures { KnownBelow self.now.profile (program_of self.now.words.now) self.now.states.items
            → slot < length self.now.states.items → situation_seen result
            ≡ situation_before self.now.profile (program_of self.now.words.now) slot }
    {
        match self.tracked_before(slot) {
            Some(before) => Some(&before.state),
            None => None,
        }
    }

    fn tracked_before(&self, slot: usize) -> Option<&TrackedState>
        ensures { KnownBelow self.now.profile (program_of self.now.words.now) self.now.states.items
            → slot < length self.now.states.items → MatchOption result
            (known_before self.now.profile (program_of self.now.words.now) slot ≡ None)
            (λ a. known_before self.now.profile (program_of self.now.words.now) slot ≡ Some (tracked_of a.now)) }
    {
        if slot >= self.states.len() {
            return None;
        }
        match &self.states[slot] {
            Some(state) => {
                is_whole(state);
                Some(state)
            }
            None => None,
        }
    }

    /// Whether a jump leads to a slot.
    #[tactic(auto, using(crate::proofs::Leading::past_jumped))]
    pub fn is_jumped_to(&self, slot: usize) -> bool
        ensures { result ≡ rules.is_jumped_to (program_of self.now.words.now) slot }
    {
        if slot < self.are_jumped_to.len() {
            self.are_jumped_to[slot]
        } else {
            false
        }
    }

    /// The slot to which the instruction of a slot jumps forward.
    #[tactic(auto, using(crate::proofs::Leading::no_target))]
    fn target_of(&self, from: usize) -> Option<usize>
        ensures { result ≡ target_at from (slice_get (program_of self.now.words.now) from) }
    {
        if from < self.targets.len() {
            self.targets[from]
        } else {
            None
        }
    }

    /// Whether an instruction may lead to a slot: it goes on past no more than two, or jumps there.
    #[tactic(auto, using(crate::proofs::Leading::no_way_when))]
    fn may_lead(&self, from: usize, slot: usize) -> bool
        requires { from < slot }
        ensures { result ≡ false → ways_at self.now.profile slot from
            (slice_get (program_of self.now.words.now) from)
            (known_before self.now.profile (program_of self.now.words.now) from) ≡ [] }
    {
        if slot - from <= 2 {
            true
        } else {
            leads(self.target_of(from), slot)
        }
    }

    /// Before which slot no instruction leads to this one.
    #[tactic(auto, using(crate::proofs::Leading::firsts))]
    fn first_into(&self, slot: usize) -> usize
        ensures below { result ≤ slot }
        ensures none { ways_below self.now.profile (program_of self.now.words.now) slot result ≡ [] }
    {
        if self.is_jumped_to(slot) {
            0
        } else {
            slot.saturating_sub(2)
        }
    }

    /// The ways on which a run may come to a slot, by rising slots.
    pub fn ways_into(&self, alloc: Global, slot: usize) -> Result<Vec<KnownWay>, AllocError>
        ensures { KnownBelow self.now.profile (program_of self.now.words.now) self.now.states.items
            → slot ≤ length self.now.states.items → IfOk result (λ ways. ways_seen ways.items
            ≡ rules.ways_into self.now.profile (program_of self.now.words.now) slot) }
    {
        let mut ways = Vec::new(alloc);
        for from in self.first_into(slot)..slot {
            self.push_ways(alloc, &mut ways, from, slot)?;
        }
        Ok(ways)
    }

    /// The slot from which the only way to a slot leads.
    pub fn only_way_into(&self, alloc: Global, slot: usize) -> Result<Option<usize>, AllocError>
        ensures { KnownBelow self.now.profile (program_of self.now.words.now) self.now.states.items
            → slot ≤ length self.now.states.items → IfOk result (λ from. from
            ≡ only_from (rules.ways_into self.now.profile (program_of self.now.words.now) slot)) }
    {
        match self.ways_into(alloc, slot)?.as_slice() {
            [way] => Ok(Some(way.from)),
            _ => Ok(None),
        }
    }

    /// Appends the ways from the instruction of a slot to another one.
    fn push_known(
        &self,
        alloc: Global,
        ways: &mut Vec<KnownWay>,
        from: usize,
        slot: usize,
        insn: &Insn,
    ) -> Result<(), AllocError>
        requires below { from < slot }
        requires few { from < 4096 }
        requires stands { StartsAt (program_of self.now.words.now) from insn.now }
        ensures { KnownBelow self.now.profile (program_of self.now.words.now) self.now.states.items
            → from < length self.now.states.items → IfOk result (λ _. ways_seen ways.new.items
            ≡ ways_seen ways.old.items ++ ways_at self.now.profile slot from
            (slice_get (program_of self.now.words.now) from)
            (known_before self.now.profile (program_of self.now.words.now) from)) }
    {
        match self.tracked_before(from) {
            Some(before) => push_passed(alloc, self.profile, ways, from, slot, insn, before),
            None => Ok(()),
        }
    }

    /// Appends the ways from a slot to another one, if an instruction begins there.
    fn push_from(
        &self,
        alloc: Global,
        ways: &mut Vec<KnownWay>,
        from: usize,
        slot: usize,
    ) -> Result<(), AllocError>
        requires { from < slot }
        ensures { KnownBelow self.now.profile (program_of self.now.words.now) self.now.states.items
            → from < length self.now.states.items → IfOk result (λ _. ways_seen ways.new.items
            ≡ ways_seen ways.old.items ++ ways_at self.now.profile slot from
            (slice_get (program_of self.now.words.now) from)
            (known_before self.now.profile (program_of self.now.words.now) from)) }
    {
        match insn_at(self.words, from) {
            Some(insn) => self.push_known(alloc, ways, from, slot, &insn),
            None => Ok(()),
        }
    }

    /// Appends the ways from a slot to another one.
    #[tactic(auto, using(crate::proofs::Edges::grown_by_none))]
    fn push_ways(
        &self,
        alloc: Global,
        ways: &mut Vec<KnownWay>,
        from: usize,
        slot: usize,
    ) -> Result<(), AllocError>
        requires { from < slot }
        ensures { KnownBelow self.now.profile (program_of self.now.words.now) self.now.states.items
            → from < length self.now.states.items → IfOk result (λ _. ways_seen ways.new.items
            ≡ ways_seen ways.old.items ++ ways_at self.now.profile slot from
            (slice_get (program_of self.now.words.now) from)
            (known_before self.now.profile (program_of self.now.words.now) from)) }
    {
        if self.may_lead(from, slot) {
            self.push_from(alloc, ways, from, slot)
        } else {
            Ok(())
        }
    }
}
