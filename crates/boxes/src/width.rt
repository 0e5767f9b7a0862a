// How wide bounds are, and the middle of them.
ghost use Rattle.std.specs.Prelude.{◌≡◌, ◌+◌, ◌/◌, ◌<◌, ◌≤◌, pos, ◌+ℤ◌};
ghost use Rattle.points.specs.Kinds.{position_place};
ghost use Rattle.grouping.specs.Distance.{number};
ghost use Rattle.boxes.specs.Widths.{width_on, WidestOf};

use points::bounds::Bounds;
use points::point::Point;

// How far the greatest number on the axis is above the least.
pub(crate) fn width_at(bounds: &Bounds, axis: usize) -> u32
    ensures is { result ≡ width_on bounds.now axis }
    ensures small { result ≤ 65535 }
{
    let least = bounds.least.axis(axis) as i32;
    let greatest = bounds.greatest.axis(axis) as i32;
    if greatest > least {
        (greatest - least) as u32
    } else {
        0
    }
}

// The first of the axes on which the bounds are widest.
pub(crate) fn widest_axis(bounds: &Bounds, axes: usize) -> usize
    requires { 0 < axes }
    ensures { WidestOf bounds.now axes result }
{
    // the first of the least: `max_by_key` would keep the last of several
    (0..axes)
        .min_by_key(|a| -(width_at(bounds, *a) as i64))
        .unwrap()
}

// The middle of the bounds on an axis on which they have a width: half of it above the least number, and 1 more. Where they have none, 1
// more may be past the numbers of 16 bits.
pub(crate) fn middle_at(bounds: &Bounds, axis: usize) -> i16
    ensures { 0 < width_on bounds.now axis → result ≡ number (position_place bounds.now.least) axis +ℤ pos (width_on bounds.now axis / 2 + 1) }
{
    let half = width_at(bounds, axis) / 2;
    let middle = bounds.least.axis(axis) as i32 + half as i32 + 1;
    middle.min(32767) as i16
}
