ghost use Rattle.std.specs.Prelude.{◌≡◌};

use crate::node::Tallies;
use points::bounds::Bounds;

// How a box was cut: the first child has its records below the value on the axis, and the second child the others.
#[derive(Clone, Copy)]
pub struct CutReport {
    pub axis: usize,
    pub value: i16,
    pub first: usize,
    pub second: usize,
}

// What a box tells: the bounds of its records, how many they are and what they add up to; and how it was cut, if it was.
#[derive(Clone, Copy)]
pub struct BoxReport {
    pub bounds: Bounds,
    pub records: usize,
    pub tallies: Tallies,
    pub cut: Option<CutReport>,
}

// The number under which it is reported that there is no box.
const NO_BOX: u32 = 10;

// There is no box of that number.
#[derive(Clone, Copy, Debug, PartialEq, Eq)]
pub struct NoBox;

impl NoBox {
    // The number under which it is reported. No trait over the faults: each would write its own body.
    pub fn number(&self) -> u32
        ensures { result ≡ 10 }
    {
        NO_BOX
    }
}
