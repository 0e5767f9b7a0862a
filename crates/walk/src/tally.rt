ghost use Rattle.std.specs.Prelude.{◌≡◌, ℕ, ◌+◌, ◌%◌, ◌^◌, ◌<◌, length, pos};
ghost use Rattle.std.specs.Int.{int_wrap, w64};
ghost use Rattle.boxes.specs.declared.run.Quantity.{Quantity};
ghost use Rattle.walk.specs.Growth.{Credited};
ghost use Rattle.walk.specs.Told.{told, tallies_at};

use crate::totals::plus;
use boxes::node::Tallies;
use pruning::centers::MOST;

// What a walk has found so far: the tallies of every center's group, how many distances it took and how often it consulted a rule.
// An array: fixed memory, a session has no heap.
#[derive(Drop)]
pub struct Tally {
    pub(crate) groups: [Tallies; MOST],
    pub(crate) distances: u64,
    pub(crate) queries: u64,
    ghost long: { length groups ≡ 32 },
    ghost rows: { (k : ℕ) → k < 32 → length (tallies_at groups k).sums ≡ 4 },
    ghost near: { distances < 2 ^ 64 },
    ghost asked: { queries < 2 ^ 64 },
    ghost fits: { (q : Quantity) (k : ℕ) → told q (tallies_at groups k) ≡ int_wrap w64 (told q (tallies_at groups k)) },
}

impl Tally {
    // No center has anything yet.
    pub(crate) fn new() -> Tally
        ensures groups { (q : Quantity) (k : ℕ) → told q (tallies_at result.groups k) ≡ pos 0 }
        ensures distances { result.distances ≡ 0 }
        ensures queries { result.queries ≡ 0 }
    {
        Tally {
            groups: [Tallies::default(); MOST],
            distances: 0,
            queries: 0,
        }
    }

    // Gives tallies to the center of number k.
    pub(crate) fn credit(&mut self, k: usize, more: &Tallies)
        requires { k < 32 }
        ensures credited { Credited k more.now self.old.groups self.new.groups }
        ensures distances { self.new.distances ≡ self.old.distances }
        ensures queries { self.new.queries ≡ self.old.queries }
    {
        let old = self.groups[k];
        self.groups[k] = plus(&old, more);
    }

    // Counts distances and queries.
    pub(crate) fn note(&mut self, distances: u64, queries: u64)
        ensures groups { self.new.groups ≡ self.old.groups }
        ensures distances { self.new.distances ≡ (self.old.distances + distances) % 2 ^ 64 }
        ensures queries { self.new.queries ≡ (self.old.queries + queries) % 2 ^ 64 }
    {
        self.distances = self.distances.wrapping_add(distances);
        self.queries = self.queries.wrapping_add(queries);
    }
}
