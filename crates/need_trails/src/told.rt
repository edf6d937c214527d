//! What the verifier knows before a slot, and which instruction begins there.
ghost use Rattle.std.specs.Prelude.{◌≡◌, ◌<◌, length};
ghost use Rattle.bpf_words.specs.Words.{program_of};
ghost use Rattle.known_ways.specs.Ways.{KnownBelow, situation_before};
ghost use Rattle.known_ways.specs.Told.{situation_seen};
ghost use Rattle.need_trails.specs.Trail.{insn_at};

use abstract_state::state::AbsState;
use bpf_words::instruction::Insn;
use known_ways::knowledge::Knowledge;
use known_ways::place::insn_at;

pub(crate) fn state_before<'k>(knowledge: &'k Knowledge<'_>, slot: usize) -> Option<&'k AbsState>
    requires known { KnownBelow knowledge.now.profile (program_of knowledge.now.words.now)
        knowledge.now.states.items }
    requires within { slot < length knowledge.now.states.items }
    ensures { situation_seen result
        ≡ situation_before knowledge.now.profile (program_of knowledge.now.words.now) slot }
{
    knowledge.before(slot)
}

#[tactic(auto, using(crate::proofs::Placed::insn_is))]
pub(crate) fn insn_of(knowledge: &Knowledge<'_>, slot: usize) -> Option<Insn>
    ensures { result ≡ insn_at (program_of knowledge.now.words.now) slot }
{
    insn_at(knowledge.words, slot)
}
