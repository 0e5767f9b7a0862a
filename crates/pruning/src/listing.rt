ghost use Rattle.std.specs.Prelude.{◌≡◌, ℕ, ◌-◌, ◌<◌, ◌≤◌, length, slice_index};
ghost use Rattle.std.specs.List.{ContainsAt as Has};
ghost use Rattle.grouping.specs.Choice.{center};
ghost use Rattle.grouping.specs.Groups.{place_of};
ghost use Rattle.pruning.specs.Candidates.{listed, among};
ghost use Rattle.pruning.specs.Pruning.{numbers_of};

use crate::candidates::Candidates;
use crate::centers::Centers;
use crate::contender::Contender;
use std::array;

impl<'a> Candidates<'a> {
    // All centers.
    pub fn all(centers: &'a Centers) -> Candidates<'a>
        ensures among { result.centers.now ≡ centers.now }
        ensures all { (axes : ℕ) → listed result ≡ numbers_of (among axes result) }
    {
        Candidates {
            centers,
            numbers: array::from_fn(|k| k as u8),
            count: centers.count,
        }
    }

    // Their numbers, in rising order.
    pub fn numbers(&self) -> &[u8]
        ensures { result.now ≡ listed self.now }
    {
        &self.numbers[..self.count]
    }

    // How many there are.
    pub fn count(&self) -> usize
        ensures is { result ≡ length (listed self.now) }
        ensures range { (0 < result) × (result ≤ 32) }
    {
        self.count
    }

    // The center of this number.
    pub(crate) fn contender(&self, number: u8) -> Contender
        requires { number < self.now.centers.now.count }
        ensures number { result.number ≡ number }
        ensures stands { (axes : ℕ) → place_of axes result.position ≡ center (among axes self.now) result.number }
    {
        Contender {
            number,
            position: self.centers.positions[number as usize],
        }
    }

    // The candidate at place i of the list; past the last, the last. It cannot fail: `numbers` has as many as there are.
    pub fn get(&self, i: usize) -> Contender
        ensures at { i < length (listed self.now) → result.number ≡ slice_index (listed self.now) i }
        ensures past { length (listed self.now) ≤ i → result.number ≡ slice_index (listed self.now) (length (listed self.now) - 1) }
        ensures one { Has (listed self.now) result.number }
        ensures stands { (axes : ℕ) → place_of axes result.position ≡ center (among axes self.now) result.number }
    {
        let i = i.min(self.count - 1);
        self.contender(self.numbers[i])
    }
}
