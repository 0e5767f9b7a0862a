ghost use Rattle.std.specs.Prelude.{◌≡◌, ℕ, ◌*◌, ◌<◌, ℤ, pos, ◌≤ℤ◌};
ghost use Rattle.numbers.specs.Sums.{summed};
ghost use Rattle.grouping.specs.Boxes.{corner, far, near};
ghost use Rattle.grouping.specs.Distance.{dist};
ghost use Rattle.grouping.specs.Groups.{place_of};
ghost use Rattle.pruning.specs.Axes.{axes_of, near_on, far_on, corner_on};
ghost use Rattle.pruning.specs.Contenders.{stand_of};
ghost use Rattle.pruning.specs.Positions.{lows_of, highs_of};

use crate::contender::Contender;
use grouping::distance::axis_apart;
use points::bounds::Bounds;
use points::point::Point;
use points::position::Position;

// The bounds of a box, over the first `axes` of the four axes; more than four are all four.
#[derive(Clone, Copy)]
pub struct Region {
    pub axes: usize,
    pub bounds: Bounds,
}

// Each of these three asks something else of the two ends: one function with the choice as a closure would be no plainer.

// The squared difference on one axis of c and that number of the bounds that is nearest to it.
fn axis_near(bounds: &Bounds, c: &Position, a: usize) -> i64
    ensures is { result ≡ near_on bounds.now c.now a }
    ensures low { pos 0 ≤ℤ result }
    ensures high { result ≤ℤ pos (65535 * 65535) }
{
    if c.axis(a) < bounds.least.axis(a) {
        axis_apart(&bounds.least, c, a)
    } else if bounds.greatest.axis(a) < c.axis(a) {
        axis_apart(&bounds.greatest, c, a)
    } else {
        0
    }
}

// The squared difference on one axis of c and that end of the bounds that is farther from it.
fn axis_far(bounds: &Bounds, c: &Position, a: usize) -> i64
    ensures is { result ≡ far_on bounds.now c.now a }
    ensures low { pos 0 ≤ℤ result }
    ensures high { result ≤ℤ pos (65535 * 65535) }
{
    let low = axis_apart(&bounds.least, c, a);
    let high = axis_apart(&bounds.greatest, c, a);
    low.max(high)
}

// The squared difference on one axis of c and that end of the bounds that lies on the candidate's side.
fn axis_corner(
    bounds: &Bounds,
    leader: &Position,
    candidate: &Position,
    c: &Position,
    a: usize,
) -> i64
    ensures is { result ≡ corner_on bounds.now leader.now candidate.now c.now a }
    ensures low { pos 0 ≤ℤ result }
    ensures high { result ≤ℤ pos (65535 * 65535) }
{
    if leader.axis(a) < candidate.axis(a) {
        axis_apart(&bounds.greatest, c, a)
    } else {
        axis_apart(&bounds.least, c, a)
    }
}

impl Region {
    // The sum of what the summand gives for each axis of the region.
    // A loop: of a chain over a summand that is known by a relation alone, what `sum` asks stayed open.
    fn sum_over_axes<F: Fn(usize) -> i64>(&self, summand: F) -> i64
        requires callable { F.IsAlwaysCallable summand }
        requires small { (a : ℕ) (x : ℤ) → a < 4 → F.post summand a x → (pos 0 ≤ℤ x) × (x ≤ℤ pos (65535 * 65535)) }
        ensures is { (f : ℕ → ℤ) → ((a : ℕ) (x : ℤ) → a < 4 → F.post summand a x → x ≡ f a) → result ≡ summed f (axes_of self.now.axes) }
        ensures low { pos 0 ≤ℤ result }
        ensures high { result ≤ℤ pos (4 * 65535 * 65535) }
    {
        let mut d = 0;
        for a in 0..self.axes.min(Position::AXES) {
            d += summand(a);
        }
        d
    }

    // The least squared distance of a place of the region to c.
    pub fn near_to(&self, c: &Position) -> i64
        ensures is { result ≡ near (lows_of self.now) (highs_of self.now) (place_of self.now.axes c.now) }
        ensures low { pos 0 ≤ℤ result }
        ensures high { result ≤ℤ pos (4 * 65535 * 65535) }
    {
        self.sum_over_axes(|a| axis_near(&self.bounds, c, a))
    }

    // The greatest squared distance of a place of the region to c.
    pub fn far_from(&self, c: &Position) -> i64
        ensures is { result ≡ far (lows_of self.now) (highs_of self.now) (place_of self.now.axes c.now) }
        ensures low { pos 0 ≤ℤ result }
        ensures high { result ≤ℤ pos (4 * 65535 * 65535) }
    {
        self.sum_over_axes(|a| axis_far(&self.bounds, c, a))
    }

    // The squared distance to c of the corner of the region that is best for the candidate against the leader.
    pub fn corner_distance(&self, leader: &Contender, candidate: &Contender, c: &Contender) -> i64
        ensures is { result ≡ dist (corner (lows_of self.now) (highs_of self.now) (stand_of self.now leader.now) (stand_of self.now candidate.now)) (stand_of self.now c.now) }
        ensures low { pos 0 ≤ℤ result }
        ensures high { result ≤ℤ pos (4 * 65535 * 65535) }
    {
        self.sum_over_axes(|a| {
            axis_corner(
                &self.bounds,
                &leader.position,
                &candidate.position,
                &c.position,
                a,
            )
        })
    }
}
