ghost use Rattle.std.specs.Prelude.{◌≡◌};

// The number under which the fault is reported.
const WRONG_LENGTH: u32 = 8;

// A table that has not one place for each record.
#[derive(Clone, Copy, Debug, PartialEq, Eq)]
pub struct LengthFault;

impl LengthFault {
    // The number under which it is reported. No trait over the faults: each would write its own body.
    pub fn number(&self) -> u32
        ensures { result ≡ 8 }
    {
        WRONG_LENGTH
    }
}
