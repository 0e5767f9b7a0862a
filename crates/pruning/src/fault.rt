ghost use Rattle.std.specs.Prelude.{◌≡◌};
ghost use Rattle.pruning.specs.Faults.{number_of};

// Why a center is refused.
#[derive(Clone, Copy, Debug, PartialEq, Eq)]
pub enum CenterFault {
    // There are 32 centers already.
    TooMany = 3,
}

impl CenterFault {
    // The number under which the fault is reported. No trait over the faults: each would write its own body.
    pub fn number(&self) -> u32
        ensures { result ≡ number_of self.now }
    {
        *self as u32
    }
}
