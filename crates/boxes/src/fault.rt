ghost use Rattle.std.specs.Prelude.{◌≡◌};
ghost use Rattle.boxes.specs.Faults.{number_of};

// Why a cut is refused.
#[derive(Clone, Copy, Debug, PartialEq, Eq)]
pub enum CutFault {
    // There is no such box, or it is cut.
    NoUncutBox = 4,
    // The records have no such axis.
    NoAxis = 5,
    // All boxes are there.
    Full = 6,
    // One side would have no record.
    OneSided = 7,
}

impl CutFault {
    // The number under which the fault is reported. No trait over the faults: each would write its own body.
    pub fn number(&self) -> u32
        ensures { result ≡ number_of self.now }
    {
        *self as u32
    }
}
