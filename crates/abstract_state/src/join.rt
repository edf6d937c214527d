//! What either of two states contains.
ghost use Rattle.std.specs.Prelude.{◌≡◌, ℕ, ◌<◌, ◌≤◌, min, Option, option_map, slice_index_or};
ghost use Rattle.semantics.specs.State.{State};
ghost use Rattle.abstract_state.specs.Lent.{Lengths, bound_of};
ghost use Rattle.abstract_state.specs.declared.region.Region.{Region};
ghost use Rattle.abstract_state.specs.Kinds.{JoinsReg, JoinsSlot};
ghost use Rattle.abstract_state.specs.State.{Bytes, Contains, ContainsRegister, ContainsSlot, IsLong};
ghost use Rattle.abstract_state.specs.State.{register_at, slot_at};
ghost use Rattle.abstract_state.specs.Stacks.{eight_of, either_eight, slots_of};
ghost use Rattle.abstract_state.specs.Situation as rules;
ghost use Rattle.abstract_state.specs.Situation.{registers_of, situation_of, least_of, register_of};

use crate::bounds::Bounds;
use crate::slot::Slot;
use crate::stack::{join as join_slot, join_slots};
use crate::state::{AbsReg, AbsState};
use span_context::profile::Profile;

/// What either register holds.
fn join_register(a: AbsReg, b: AbsReg) -> AbsReg
    ensures left { (lengths : Lengths) (o : Option ℕ) → ContainsRegister a lengths o
        → ContainsRegister result lengths o }
    ensures right { (lengths : Lengths) (o : Option ℕ) → ContainsRegister b lengths o
        → ContainsRegister result lengths o }
    ensures kinds { JoinsReg a b result }
    ensures rule { register_of result ≡ rules.either_register (register_of a) (register_of b) }
{
    let (AbsReg::Set(x), AbsReg::Set(y)) = (a, b) else {
        return AbsReg::Unset;
    };
    match x.join(y) {
        Some(known) => AbsReg::Set(known),
        None => AbsReg::Unset,
    }
}

/// Takes in what the other registers hold, for all of them.
fn join_registers(a: &mut [AbsReg; 11], b: &[AbsReg; 11])
    ensures left { (i : ℕ) (lengths : Lengths) (o : Option ℕ) → i < 11
        → ContainsRegister (register_at a.old i) lengths o → ContainsRegister (register_at a.new i) lengths o }
    ensures right { (i : ℕ) (lengths : Lengths) (o : Option ℕ) → i < 11
        → ContainsRegister (register_at b.now i) lengths o → ContainsRegister (register_at a.new i) lengths o }
    ensures kinds { (i : ℕ) → i < 11 → JoinsReg (register_at a.old i) (register_at b.now i) (register_at a.new i) }
    ensures rule { (i : ℕ) → i < 11
        → registers_of a.new i ≡ rules.either_register (registers_of a.old i) (registers_of b.now i) }
{
    for i in 0..11 {
        a[i] = join_register(a[i], b[i]);
    }
}

/// What either register holds, once its address has the tail that its own side's bounds give it.
fn join_bounded_register(a: AbsReg, ours: Bounds, b: AbsReg, theirs: Bounds) -> AbsReg
    ensures left { (lengths : Lengths) (o : Option ℕ) → IsLong ours lengths → ContainsRegister a lengths o
        → ContainsRegister result lengths o }
    ensures right { (lengths : Lengths) (o : Option ℕ) → IsLong theirs lengths → ContainsRegister b lengths o
        → ContainsRegister result lengths o }
    ensures kinds { JoinsReg a b result }
    ensures rule { register_of result
        ≡ rules.either_register (option_map (rules.bounded (least_of ours)) (register_of a))
        (option_map (rules.bounded (least_of theirs)) (register_of b)) }
{
    join_register(a.bounded(ours), b.bounded(theirs))
}

/// What either slot of the stack holds, once its address has the tail that its own side's bounds give it.
fn join_bounded_slot(a: Slot, ours: Bounds, b: Slot, theirs: Bounds) -> Slot
    ensures left { (lengths : Lengths) (bytes : Bytes) (i : ℕ) → IsLong ours lengths → ContainsSlot a lengths bytes i
        → ContainsSlot result lengths bytes i }
    ensures right { (lengths : Lengths) (bytes : Bytes) (i : ℕ) → IsLong theirs lengths
        → ContainsSlot b lengths bytes i → ContainsSlot result lengths bytes i }
    ensures joins { JoinsSlot a b result }
    ensures rule { eight_of result ≡ either_eight (rules.bounded_eight (least_of ours) (eight_of a))
        (rules.bounded_eight (least_of theirs) (eight_of b)) }
{
    match (a, b) {
        (Slot::Marks(_), Slot::Marks(_)) => join_slot(a, b),
        _ => join_slot(a.bounded(ours), b.bounded(theirs)),
    }
}

/// Takes in what the other registers hold, with the tails that the bounds of either side give its addresses.
fn join_bounded_registers(a: &mut [AbsReg; 11], ours: Bounds, b: &[AbsReg; 11], theirs: Bounds)
    ensures left { (i : ℕ) (lengths : Lengths) (o : Option ℕ) → IsLong ours lengths → i < 11
        → ContainsRegister (register_at a.old i) lengths o → ContainsRegister (register_at a.new i) lengths o }
    ensures right { (i : ℕ) (lengths : Lengths) (o : Option ℕ) → IsLong theirs lengths → i < 11
        → ContainsRegister (register_at b.now i) lengths o → ContainsRegister (register_at a.new i) lengths o }
    ensures kinds { (i : ℕ) → i < 11 → JoinsReg (register_at a.old i) (register_at b.now i) (register_at a.new i) }
    ensures rule { (i : ℕ) → i < 11 → registers_of a.new i
        ≡ rules.either_register (option_map (rules.bounded (least_of ours)) (registers_of a.old i))
        (option_map (rules.bounded (least_of theirs)) (registers_of b.now i)) }
{
    for i in 0..11 {
        a[i] = join_bounded_register(a[i], ours, b[i], theirs);
    }
}

/// Takes in what another stack holds, with the tails that the bounds of either side give its addresses.
fn join_bounded_slots(a: &mut [Slot; 64], ours: Bounds, b: &[Slot; 64], theirs: Bounds)
    ensures left { (i : ℕ) (lengths : Lengths) (bytes : Bytes) → IsLong ours lengths → i < 64
        → ContainsSlot (slot_at a.old i) lengths bytes i → ContainsSlot (slot_at a.new i) lengths bytes i }
    ensures right { (i : ℕ) (lengths : Lengths) (bytes : Bytes) → IsLong theirs lengths → i < 64
        → ContainsSlot (slot_at b.now i) lengths bytes i → ContainsSlot (slot_at a.new i) lengths bytes i }
    ensures joins { (i : ℕ) → i < 64 → JoinsSlot (slot_at a.old i) (slot_at b.now i) (slot_at a.new i) }
    ensures rule { (i : ℕ) → i < 64 → slots_of a.new i
        ≡ either_eight (rules.bounded_eight (least_of ours) (slots_of a.old i))
        (rules.bounded_eight (least_of theirs) (slots_of b.now i)) }
{
    for i in 0..64 {
        a[i] = join_bounded_slot(a[i], ours, b[i], theirs);
    }
}

impl Bounds {
    /// The bounds of either.
    fn join(self, other: Bounds) -> Bounds
        ensures left { (lengths : Lengths) → IsLong self lengths → IsLong result lengths }
        ensures right { (lengths : Lengths) → IsLong other lengths → IsLong result lengths }
        ensures text { result.text ≡ min self.text other.text }
        ensures link { result.link ≡ min self.link other.link }
        ensures rule { least_of result ≡ rules.shorter (least_of self) (least_of other) }
    {
        Bounds {
            text: self.text.min(other.text),
            link: self.link.min(other.link),
        }
    }
}

impl AbsState {
    /// Takes in what another state contains, by what both say.
    fn take_in(&mut self, other: &AbsState)
        ensures left { (lengths : Lengths) (s : State) → Contains self.old lengths s → Contains self.new lengths s }
        ensures right { (lengths : Lengths) (s : State) → Contains other.now lengths s → Contains self.new lengths s }
        ensures kinds { (i : ℕ) → i < 11 → JoinsReg (register_at self.old.registers i)
            (register_at other.now.registers i) (register_at self.new.registers i) }
        ensures slots { (i : ℕ) → i < 64 → JoinsSlot (slot_at self.old.stack i) (slot_at other.now.stack i)
            (slot_at self.new.stack i) }
        ensures bounds { (region : Region) → bound_of self.new.bounds region
            ≡ min (bound_of self.old.bounds region) (bound_of other.now.bounds region) }
        ensures rule { rules.IsSituation self.new
            (rules.either_situation (situation_of self.old) (situation_of other.now)) }
    {
        join_registers(&mut self.registers, &other.registers);
        join_slots(&mut self.stack, &other.stack);
        self.bounds = self.bounds.join(other.bounds);
    }

    /// Takes in what another state contains. By the rules that the first two profiles leave out, an address in a lent
    /// region first takes the tail that its own state's bounds give it, since the bounds that are left are the lesser.
    #[tactic(auto, unfolding(crate::specs::Situation::joined))]
    pub fn join(&mut self, profile: Profile, other: &AbsState)
        ensures left { (lengths : Lengths) (s : State) → Contains self.old lengths s → Contains self.new lengths s }
        ensures right { (lengths : Lengths) (s : State) → Contains other.now lengths s → Contains self.new lengths s }
        ensures kinds { (i : ℕ) → i < 11 → JoinsReg (register_at self.old.registers i)
            (register_at other.now.registers i) (register_at self.new.registers i) }
        ensures slots { (i : ℕ) → i < 64 → JoinsSlot (slot_at self.old.stack i) (slot_at other.now.stack i)
            (slot_at self.new.stack i) }
        ensures bounds { (region : Region) → bound_of self.new.bounds region
            ≡ min (bound_of self.old.bounds region) (bound_of other.now.bounds region) }
        ensures rule { rules.IsSituation self.new
            (rules.joined profile (situation_of self.old) (situation_of other.now)) }
    {
        if profile.has_more_rules() {
            self.join_bounded(other);
        } else {
            self.take_in(other);
        }
    }

    /// Takes in what another state contains, after the addresses of both have the tails that their bounds give them.
    fn join_bounded(&mut self, other: &AbsState)
        ensures left { (lengths : Lengths) (s : State) → Contains self.old lengths s → Contains self.new lengths s }
        ensures right { (lengths : Lengths) (s : State) → Contains other.now lengths s → Contains self.new lengths s }
        ensures kinds { (i : ℕ) → i < 11 → JoinsReg (register_at self.old.registers i)
            (register_at other.now.registers i) (register_at self.new.registers i) }
        ensures slots { (i : ℕ) → i < 64 → JoinsSlot (slot_at self.old.stack i) (slot_at other.now.stack i)
            (slot_at self.new.stack i) }
        ensures bounds { (region : Region) → bound_of self.new.bounds region
            ≡ min (bound_of self.old.bounds region) (bound_of other.now.bounds region) }
        ensures rule { rules.IsSituation self.new (rules.either_situation
            (rules.bounded_all (situation_of self.old)) (rules.bounded_all (situation_of other.now))) }
    {
        join_bounded_registers(
            &mut self.registers,
            self.bounds,
            &other.registers,
            other.bounds,
        );
        join_bounded_slots(&mut self.stack, self.bounds, &other.stack, other.bounds);
        self.bounds = self.bounds.join(other.bounds);
    }
}
