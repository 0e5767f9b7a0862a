ghost use Rattle.std.specs.Prelude.{◌≡◌, ℕ, ◌<◌, ◌≤◌, true, false, pos, ◌≢◌};
ghost use Rattle.points.specs.Kinds.{position_place};
ghost use Rattle.grouping.specs.Advances.{Advances};
ghost use Rattle.grouping.specs.Distance.{number};
ghost use Rattle.grouping.specs.Groups.{place_of, Goes};

use crate::group::Group;
use crate::mean::rounded_mean;
use points::point::Point;
use points::position::Position;
use std::array;

// Where the center of the group goes on axis a.
fn axis_moved(group: &Group, a: usize) -> i16
    requires { a < 4 }
    ensures { Goes group.now a result }
{
    if group.weight == 0 {
        return group.center.axis(a);
    }
    let mean = rounded_mean(group.sums[a], group.weight);
    mean.clamp(i16::MIN as i64, i16::MAX as i64) as i16
}

// Where the center of the group goes; on the axes that the points have not, to 0.
pub fn moved<R: Point>(group: &Group) -> Position
    ensures goes { (a : ℕ) → a < R.Point.AXES → Goes group.now a (number (position_place result) a) }
    ensures flat { (a : ℕ) → R.Point.AXES ≤ a → number (position_place result) a ≡ pos 0 }
{
    Position {
        at: array::from_fn(|a| if a < R::AXES { axis_moved(group, a) } else { 0 }),
    }
}

// Whether two positions are one place for these points.
pub fn same_place<R: Point>(p: &Position, q: &Position) -> bool
    ensures same { result ≡ true → place_of R.Point.AXES p.now ≡ place_of R.Point.AXES q.now }
    ensures other { result ≡ false → place_of R.Point.AXES p.now ≢ place_of R.Point.AXES q.now }
{
    (0..R::AXES).all(|a| p.axis(a) == q.axis(a))
}

// Every center goes where its group sends it; how many of them changed their place.
pub fn move_centers<R: Point>(groups: &mut [Group]) -> usize
    ensures { Advances R.Point.AXES groups.old groups.new result }
{
    // a loop that counts: it moves what it looks at
    let mut changed = 0;
    for group in groups {
        let to = moved::<R>(group);
        if !same_place::<R>(&to, &group.center) {
            changed += 1;
        }
        group.center = to;
    }
    changed
}
