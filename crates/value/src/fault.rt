ghost use Rattle.std.specs.Prelude.{◌≡◌};
ghost use Rattle.value.specs.Faults.{number_of};

// The layer that found a fault.
#[derive(Clone, Copy, Debug, PartialEq, Eq)]
pub enum Layer {
    Value,
    Row,
    File,
    Program,
}

// What can be wrong with one value.
#[derive(Clone, Copy, Debug, PartialEq, Eq)]
pub enum ValueFault {
    // The bytes spell no value.
    NotAValue = 23,
    // The value lies outside the range of its column.
    OutOfRange = 24,
}

impl ValueFault {
    // The number under which the fault is reported. No trait over the faults: each would write its own body.
    pub fn number(&self) -> u32
        ensures { result ≡ number_of self.now }
    {
        *self as u32
    }
}
