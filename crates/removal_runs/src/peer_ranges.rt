//! Counters of one peer, in ranges.
ghost use Rattle.std.specs.Prelude.{◌≡◌, ◌+◌, ◌-◌, ◌<◌, ◌≤◌, ◌^◌, ◌∷◌, ◌↔◌, [], IsTrue, OnOk, OnErr, Contains, length};
ghost use Rattle.std.specs.List.Sorted.{IsPermutation};
ghost use Rattle.removal_runs.specs.Apart.{HaveBegun};
ghost use Rattle.removal_runs.specs.IdSets.{AreRanges, begin_of_range, JoinsBefore, JoinsBehind};

use std::alloc::{AllocError, Global};
use std::marker::Model;

/// The counters from the first to the last.
#[derive(Clone, Copy)]
pub(crate) struct Range {
    pub(crate) first: u64,
    pub(crate) last: u64,
}

/// A set of a peer's counters: ranges in their order, with a counter between any two that isn't in the set.
#[derive(Drop)]
pub(crate) struct PeerRanges {
    node: u16,
    ranges: Vec<Range>,
}

impl Model for PeerRanges {
    ghost use Rattle.std.specs.Prelude.{flat_map};
    ghost use Rattle.removal_runs.specs.IdSets.{PeerCounters, counters_in, AreRanges};

    ghost Value = { PeerCounters };

    ghost view = { λ p. record { node = p.node; counters = flat_map counters_in p.ranges.items } };

    ghost invariant = { λ p. AreRanges p.ranges.items };
}

/// How many of the ranges begin at the counter or before it.
fn begun_by(ranges: &[Range], counter: u64) -> usize
    requires { AreRanges ranges.now }
    ensures { HaveBegun begin_of_range ranges.now counter result }
{
    ranges.partition_point(|range| range.first <= counter)
}

/// Whether the counter follows the range before the place.
fn joins_before(ranges: &[Range], place: usize, counter: u64) -> bool
    requires ranges { AreRanges ranges.now }
    requires within { place ≤ length ranges.now }
    ensures { IsTrue result ↔ JoinsBefore ranges.now place counter }
{
    place > 0 && ranges[place - 1].last + 1 == counter
}

/// Whether the range at the place follows the counter.
fn joins_behind(ranges: &[Range], place: usize, counter: u64) -> bool
    requires { counter < 2 ^ 48 }
    ensures { IsTrue result ↔ JoinsBehind ranges.now place counter }
{
    place < ranges.len() && ranges[place].first == counter + 1
}

impl PeerRanges {
    /// No counter of this peer.
    pub(crate) fn new(alloc: Global, node: u16) -> PeerRanges
        ensures node { result.node ≡ node }
        ensures counters { result.counters ≡ [] }
    {
        PeerRanges {
            node,
            ranges: Vec::new(alloc),
        }
    }

    /// The peer.
    pub(crate) fn node(&self) -> u16
        ensures { result ≡ self.now.node }
    {
        self.node
    }

    /// How many ranges the counters take.
    pub(crate) fn range_count(&self) -> usize
        ensures { result ≤ length self.now.counters }
    {
        self.ranges.len()
    }

    /// Whether the set has the counter.
    pub(crate) fn has(&self, counter: u64) -> bool
        ensures { IsTrue result ↔ Contains self.now.counters counter }
    {
        let begun = begun_by(&self.ranges, counter);
        begun > 0 && counter <= self.ranges[begun - 1].last
    }

    /// Adds a counter that isn't in the set.
    pub(crate) fn add(&mut self, counter: u64) -> Result<(), AllocError>
        requires small { counter < 2 ^ 48 }
        requires fresh { Contains self.old.counters counter → ⊥ }
        ensures node { self.new.node ≡ self.old.node }
        ensures ok { OnOk result (IsPermutation (counter ∷ self.old.counters) self.new.counters) }
        ensures err { OnErr result (self.new.counters ≡ self.old.counters) }
    {
        let place = begun_by(&self.ranges, counter);
        let before = joins_before(&self.ranges, place, counter);
        let behind = joins_behind(&self.ranges, place, counter);
        if before && behind {
            self.ranges[place - 1].last = self.ranges[place].last;
            self.ranges.remove(place);
        } else if before {
            self.ranges[place - 1].last = counter;
        } else if behind {
            self.ranges[place].first = counter;
        } else {
            self.ranges.insert(
                place,
                Range {
                    first: counter,
                    last: counter,
                },
            )?;
        }
        Ok(())
    }
}

impl Clone for PeerRanges {
    ghost is_clone = { λ old new. new ≡ old };

    fn clone(&self) -> Result<PeerRanges, AllocError> {
        let ranges = self.ranges.clone()?;
        Ok(PeerRanges {
            node: self.node,
            ranges,
        })
    }
}
