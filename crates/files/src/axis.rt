ghost use Rattle.std.specs.Prelude.{◌≡◌, map};
ghost use Rattle.points.specs.Kinds.{told};

use rows::kind::FULL;

// The number of 16 bits that is nearest to a value.
fn nearest_axis(value: i32) -> i16
    ensures { result ≡ told value }
{
    FULL.nearest(value) as i16
}

// Those that are nearest to the values.
pub(crate) fn nearest_axes(values: &[i32; 4]) -> [i16; 4]
    ensures { result ≡ map told values.now }
{
    values.map(nearest_axis)
}
