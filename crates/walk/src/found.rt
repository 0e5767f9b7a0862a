// What a walk has found, told as groups and as what they cost.
ghost use Rattle.std.specs.Prelude.{◌≡◌, ℕ, ◌<◌, length, pos, ◌≤ℤ◌};
ghost use Rattle.std.specs.Int.{int_wrap, w64};
ghost use Rattle.numbers.specs.Sums.{summed_from};
ghost use Rattle.grouping.specs.Groups.{place_of, group_at};
ghost use Rattle.grouping.specs.Rounding.{axis_cost};
ghost use Rattle.pruning.specs.Centers.{positions_of, centers_of};
ghost use Rattle.pruning.specs.Positions.{position_at};
ghost use Rattle.walk.specs.Told.{tallies_at, cost_of, TellsGroup};

use crate::tally::Tally;
use boxes::node::Tallies;
use grouping::group::Group;
use points::point::Point;
use points::position::Position;
use pruning::centers::{Centers, MOST};
use std::array;

// The group of each center, what they cost, and how many distances and queries it took to find out.
// An array: fixed memory, a session has no heap.
#[derive(Drop)]
pub struct Survey {
    pub groups: [Group; MOST],
    pub distortion: i64,
    pub distances: u64,
    pub queries: u64,
}

// What a center at x costs one axis of a group of this weight and sum, but for the squares.
fn axis_costs(x: i16, sum: i64, weight: i64) -> i64
    ensures { result ≡ int_wrap w64 (axis_cost sum weight x) }
{
    let x = x as i64;
    weight
        .wrapping_mul(x * x)
        .wrapping_sub(sum.wrapping_mul(x + x))
}

// What a group costs a center.
fn costs_at<R: Point>(group: &Tallies, center: &Position) -> i64
    ensures { int_wrap w64 result ≡ int_wrap w64 (cost_of group.now (place_of R.Point.AXES center.now)) }
{
    (0..R::AXES).fold(group.squares, |cost, a| {
        cost.wrapping_add(axis_costs(center.axis(a), group.sums[a], group.weight))
    })
}

// What the group of the center of number k costs it; nothing, if there is no such center.
fn costs_of<R: Point>(found: &Tally, centers: &Centers, k: usize) -> i64
    requires { k < 32 }
    ensures { k < length (positions_of centers.now) → int_wrap w64 result ≡ int_wrap w64 (cost_of (tallies_at found.now.groups k) (place_of R.Point.AXES (position_at (positions_of centers.now) k))) }
{
    centers
        .position(k)
        .map_or(0, |center| costs_at::<R>(&found.groups[k], &center))
}

// What all groups cost their centers.
pub(crate) fn distortion_of<R: Point>(found: &Tally, centers: &Centers) -> i64
    ensures { int_wrap w64 result ≡ int_wrap w64 (summed_from (λ k c. cost_of (tallies_at found.now.groups k) c) 0 (centers_of R.Point.AXES centers.now)) }
{
    (0..centers.count()).fold(0i64, |sum, k| {
        sum.wrapping_add(costs_of::<R>(found, centers, k))
    })
}

// The group of a center.
fn group_at(center: Position, tallies: &Tallies) -> Group
    ensures { TellsGroup tallies.now center result }
{
    Group {
        center,
        weight: tallies.weight.clamp(0, u32::MAX as i64) as u32,
        sums: tallies.sums,
    }
}

// The group of the center of number k; an empty one, if there is no such center.
fn group_of(found: &Tally, centers: &Centers, k: usize) -> Group
    requires { k < 32 }
    ensures { k < length (positions_of centers.now) → TellsGroup (tallies_at found.now.groups k) (position_at (positions_of centers.now) k) result }
{
    centers.position(k).map_or(
        Group::default(),
        |center| group_at(center, &found.groups[k]),
    )
}

// The groups of the centers; past them, empty ones.
pub(crate) fn groups_of(found: &Tally, centers: &Centers) -> [Group; MOST]
    ensures { (k : ℕ) → k < length (positions_of centers.now) → TellsGroup (tallies_at found.now.groups k) (position_at (positions_of centers.now) k) (group_at result k) }
{
    array::from_fn(|k| group_of(found, centers, k))
}
