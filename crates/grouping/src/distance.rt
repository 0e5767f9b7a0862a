ghost use Rattle.std.specs.Prelude.{◌≡◌, ◌*◌, ℤ, pos, ◌-ℤ◌, ◌*ℤ◌, ◌≤ℤ◌};
ghost use Rattle.grouping.specs.Distance.{dist, number};
ghost use Rattle.grouping.specs.Groups.{place_of};

use points::point::Point;
use points::position::Position;

// How large a distance is stands in two clauses of each: a type for it would be taken apart at every comparison.

// The squared difference on one axis.
pub fn axis_apart<P: Point, Q: Point>(p: &P, q: &Q, a: usize) -> i64
    ensures is { result ≡ (number (P.Point.place p.now) a -ℤ number (Q.Point.place q.now) a) *ℤ (number (P.Point.place p.now) a -ℤ number (Q.Point.place q.now) a) }
    ensures low { pos 0 ≤ℤ result }
    ensures high { result ≤ℤ pos (65535 * 65535) }
{
    let gap = p.axis(a) as i64 - q.axis(a) as i64;
    gap * gap
}

// The squared distance of a point and a center, over the axes of the point.
pub fn squared_distance<R: Point>(r: &R, c: &Position) -> i64
    ensures is { result ≡ dist (R.Point.place r.now) (place_of R.Point.AXES c.now) }
    ensures low { pos 0 ≤ℤ result }
    ensures high { result ≤ℤ pos (4 * 65535 * 65535) }
{
    (0..R::AXES).map(|a| axis_apart(r, c, a)).sum()
}
