ghost use Rattle.std.specs.Prelude.{◌≡◌, ℕ, ◌≤◌, List, length, ℤ, pos, negsuc, ◌≤ℤ◌, slice_index_or};

// What has a place: one whole number of 16 bits on each of 1 to 4 axes.
pub trait Point {
    // The number of axes.
    const AXES: usize;

    ghost AXES: { ℕ };

    ghost place: { Self → List ℤ };

    // The number on axis k; 0 on an axis that the point has not.
    fn axis(&self, k: usize) -> i16
        ensures { result ≡ slice_index_or (place self.now) k (pos 0) };

    // The number of axes, where a function is asked for.
    fn axis_count() -> usize
        ensures { result ≡ AXES }
    {
        Self::AXES
    }

    ghost few: { (1 ≤ AXES) × (AXES ≤ 4) };

    ghost sized: { (p : Self) → length (place p) ≡ AXES };

    ghost ranged: { (p : Self) (k : ℕ) → (negsuc 32767 ≤ℤ slice_index_or (place p) k (pos 0)) × (slice_index_or (place p) k (pos 0) ≤ℤ pos 32767) };
}
