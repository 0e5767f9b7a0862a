ghost use Rattle.std.specs.Prelude.{◌≡◌};
ghost use Rattle.points.specs.Faults.{number_of};

// What can be wrong with the length of a recording.
#[derive(Clone, Copy, Debug, PartialEq, Eq)]
pub enum RecordingFault {
    // It has no record.
    Empty = 1,
    // It has more records than 4,096.
    TooLong = 2,
}

impl RecordingFault {
    // The number under which the fault is reported. No trait over the faults: each would write its own body.
    pub fn number(&self) -> u32
        ensures { result ≡ number_of self.now }
    {
        *self as u32
    }
}
