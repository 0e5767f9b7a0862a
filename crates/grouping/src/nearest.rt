ghost use Rattle.std.specs.Prelude.{◌≡◌, ◌<◌, length, MatchOption};
ghost use Rattle.grouping.specs.Choice.{Chosen, choose};
ghost use Rattle.grouping.specs.Groups.{places};

use crate::distance::squared_distance;
use crate::group::Group;
use points::point::Point;

// The number of the center that is nearest to the point, the lowest of several; none where there is no center.
pub fn nearest<R: Point>(r: &R, groups: &[Group]) -> Option<usize>
    ensures { MatchOption result (length groups.now ≡ 0) (λ k. (k < length groups.now) × (Chosen (places R.Point.AXES groups.now) (R.Point.place r.now) k × (k ≡ choose (places R.Point.AXES groups.now) (R.Point.place r.now)))) }
{
    (0..groups.len()).min_by_key(|k| squared_distance(r, &groups[*k].center))
}
