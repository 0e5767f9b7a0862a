ghost use Rattle.std.specs.Prelude.{◌≡◌, ◌<◌, ◌≤◌, [], ◌∷◌, ◌++◌, length, MatchOption, MatchResult};
ghost use Rattle.pruning.specs.declared.fault.CenterFault.TheVariants.{TooMany};
ghost use Rattle.pruning.specs.Centers.{positions_of};
ghost use Rattle.pruning.specs.Positions.{position_at};

use crate::centers::{Centers, MOST};
use crate::fault::CenterFault;
use points::position::Position;

impl Centers {
    // One center.
    pub fn new(first: Position) -> Centers
        ensures { positions_of result ≡ first ∷ [] }
    {
        Centers {
            positions: [first; MOST],
            count: 1,
        }
    }

    // One more center, if there is room: its number. A refusal changes nothing.
    pub fn add(&mut self, position: Position) -> Result<usize, CenterFault>
        ensures { MatchResult result (λ k. (k ≡ length (positions_of self.old)) × (positions_of self.new ≡ positions_of self.old ++ position ∷ [])) (λ f. (f ≡ TooMany) × ((length (positions_of self.old) ≡ 32) × (self.new ≡ self.old))) }
    {
        if self.count == MOST {
            return Err(CenterFault::TooMany);
        }
        let number = self.count;
        self.positions[number] = position;
        self.count = number + 1;
        Ok(number)
    }

    // How many there are.
    pub fn count(&self) -> usize
        ensures is { result ≡ length (positions_of self.now) }
        ensures range { (0 < result) × (result ≤ 32) }
    {
        self.count
    }

    // The position of the center of number k, if there is one.
    pub fn position(&self, k: usize) -> Option<Position>
        ensures { MatchOption result (length (positions_of self.now) ≤ k) (λ p. (k < length (positions_of self.now)) × (p ≡ position_at (positions_of self.now) k)) }
    {
        self.positions[..self.count].get(k).copied()
    }
}
