//! A run of removals: consecutive ones of a peer, which remove consecutive characters, upwards or downwards.
ghost use Rattle.std.specs.Prelude.{◌≡◌, ◌+◌, ◌-◌, ◌<◌, ◌≤◌, ◌^◌, ◌++◌, ◌∷◌, [], ℕ, None, Some, IfSome};
ghost use Rattle.removal_runs.specs.Removals.{removals_in, target_in, moved, HasTargets};

use change_ops::id::OpId;
use std::mem::size_of;

/// Whether the counters of a run's characters rise, as those of selected text, or fall, as under backspaces.
#[derive(Clone, Copy)]
pub(crate) enum Direction {
    Up,
    Down,
}

/// Removals of a peer with counters from `counter` on. The first removes the character of `target_counter`, and each
/// further one the next character in the direction. The fields stand in this order so that a run takes 24 bytes.
#[derive(Clone, Copy)]
pub(crate) struct Run {
    pub(crate) counter: u64,
    pub(crate) target_counter: u64,
    pub(crate) target_node: u16,
    pub(crate) length: u16,
    pub(crate) direction: Direction,
}

const _: () = prove!(size_of::<Run>() == 24);

impl Run {
    /// A run of one removal.
    pub(crate) fn one(counter: u64, target: OpId) -> Run
        ensures removals { removals_in result ≡ (record { counter = counter; target = target }) ∷ [] }
        ensures counter { result.counter ≡ counter }
        ensures length { result.length ≡ 1 }
        ensures targets { HasTargets result }
    {
        Run {
            counter,
            target_counter: target.counter(),
            target_node: target.node(),
            length: 1,
            direction: Direction::Up,
        }
    }

    /// The direction in which the run goes on to this character's counter, if it does. A run of one may go either way.
    fn direction_to(self, target_counter: u64) -> Option<Direction>
        requires length { 1 ≤ self.length }
        requires targets { HasTargets self }
        requires small { target_counter < 2 ^ 48 }
        ensures next { IfSome result (λ direction. moved direction self.target_counter self.length ≡ target_counter) }
        ensures same { IfSome result (λ direction. (steps : ℕ) → steps < self.length
            → moved direction self.target_counter steps ≡ moved self.direction self.target_counter steps) }
    {
        let steps = u64::from(self.length);
        let is_one = self.length == 1;
        let goes_up = is_one || matches!(self.direction, Direction::Up);
        let goes_down = is_one || matches!(self.direction, Direction::Down);
        if goes_up && target_counter == self.target_counter + steps {
            Some(Direction::Up)
        } else if goes_down && target_counter + steps == self.target_counter {
            Some(Direction::Down)
        } else {
            None
        }
    }

    /// The run with one more removal, if that goes on where the run ends.
    pub(crate) fn longer(self, counter: u64, target: OpId) -> Option<Run>
        requires length { 1 ≤ self.length }
        requires small { self.counter + self.length ≤ 2 ^ 48 }
        requires targets { HasTargets self }
        ensures removals { IfSome result (λ longer. removals_in longer
            ≡ removals_in self ++ (record { counter = counter; target = target }) ∷ []) }
        ensures counter { IfSome result (λ longer. longer.counter ≡ self.counter) }
        ensures length { IfSome result (λ longer. longer.length ≡ self.length + 1) }
        ensures end { IfSome result (λ longer. counter ≡ self.counter + self.length) }
        ensures targets { IfSome result HasTargets }
    {
        let end = self.counter + u64::from(self.length);
        if self.length == u16::MAX || counter != end || target.node() != self.target_node {
            return None;
        }
        let direction = self.direction_to(target.counter())?;
        Some(Run {
            length: self.length + 1,
            direction,
            ..self
        })
    }

    /// The character that the run's removal with this counter removes.
    pub(crate) fn target_of(self, counter: u64) -> Option<OpId>
        requires from { self.counter ≤ counter }
        requires targets { HasTargets self }
        ensures within { counter < self.counter + self.length
            → result ≡ Some (target_in self (counter - self.counter)) }
        ensures past { self.counter + self.length ≤ counter → result ≡ None }
    {
        let steps = counter - self.counter;
        if steps >= u64::from(self.length) {
            return None;
        }
        let target_counter = match self.direction {
            Direction::Up => self.target_counter + steps,
            Direction::Down => self.target_counter - steps,
        };
        OpId::new(target_counter, u64::from(self.target_node))
    }
}
