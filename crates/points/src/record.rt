ghost use Rattle.std.specs.Prelude.{◌≡◌, ℕ, ◌≤◌};

use crate::point::Point;

// A point that was held a number of times.
pub trait Record: Point {
    ghost hold: { Self → ℕ };

    // How many times.
    fn hold(&self) -> u16
        ensures { result ≡ hold self.now };

    ghost held: { (r : Self) → (1 ≤ hold r) × (hold r ≤ 65535) };
}
