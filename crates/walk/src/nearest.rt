// The nearest of some candidates: the leader at a box of one place.
ghost use Rattle.std.specs.Prelude.{◌≡◌, ◌<◌};
ghost use Rattle.std.specs.List.{ContainsAt as Has};
ghost use Rattle.grouping.specs.Choice.{choose};
ghost use Rattle.grouping.specs.Groups.{place_of};
ghost use Rattle.pruning.specs.Candidates.{listed, among};

use points::bounds::Bounds;
use points::point::Point;
use points::position::Position;
use pruning::candidates::Candidates;
use pruning::leader::leader;
use pruning::region::Region;
use std::array;

// Where the point is.
fn position_of<R: Point>(r: &R) -> Position
    ensures { place_of R.Point.AXES result ≡ R.Point.place r.now }
{
    Position {
        at: array::from_fn(|a| r.axis(a)),
    }
}

// The number of the candidate nearest to the point, the lowest of several: that of the center which the point chooses, if it is a candidate.
pub(crate) fn nearest_of<R: Point>(r: &R, candidates: &Candidates) -> u8
    ensures chosen { Has (listed candidates.now) (choose (among R.Point.AXES candidates.now) (R.Point.place r.now)) → result ≡ choose (among R.Point.AXES candidates.now) (R.Point.place r.now) }
    ensures known { result < 32 }
{
    let here = position_of(r);
    let region = Region {
        axes: R::AXES,
        bounds: Bounds {
            least: here,
            greatest: here,
        },
    };
    leader(&region, candidates).number
}
