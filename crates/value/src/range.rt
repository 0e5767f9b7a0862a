ghost use Rattle.std.specs.Prelude.{◌≡◌, MatchResult};
ghost use Rattle.value.specs.Ranges.{Within, nearest_in};
ghost use Rattle.value.specs.declared.fault.ValueFault.TheVariants.{OutOfRange};

use crate::fault::ValueFault;

// The values from `least` to `greatest`, both included.
#[derive(Clone, Copy)]
pub struct ValueRange {
    pub least: i32,
    pub greatest: i32,
}

impl ValueRange {
    // The value itself where it lies in the range; else it is refused.
    pub fn admit(&self, value: i32) -> Result<i32, ValueFault>
        ensures { MatchResult result (λ z. (z ≡ value) × Within self.now value) (λ f. (f ≡ OutOfRange) × (Within self.now value → ⊥)) }
    {
        if (self.least..=self.greatest).contains(&value) {
            Ok(value)
        } else {
            Err(ValueFault::OutOfRange)
        }
    }

    // The value of the range that is nearest to `value`. No `clamp`: it asks for bounds in order.
    pub fn nearest(&self, value: i32) -> i32
        ensures { result ≡ nearest_in self.now value }
    {
        value.min(self.greatest).max(self.least)
    }
}
