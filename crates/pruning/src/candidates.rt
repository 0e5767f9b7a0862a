ghost use Rattle.std.specs.Prelude.{◌≡◌, ℕ, ◌<◌, ◌≤◌, length, slice_index};

use crate::centers::{Centers, MOST};

// The numbers of those centers that are still candidates, at least one, in rising order.
// An array with a count: fixed memory, and no `ArrayVec`, which is not `Copy`.
#[derive(Clone, Copy)]
pub struct Candidates<'a> {
    pub(crate) centers: &'a Centers,
    pub(crate) numbers: [u8; MOST],
    pub(crate) count: usize,
    ghost long: { length numbers ≡ 32 },
    ghost some: { 0 < count },
    ghost few: { count ≤ 32 },
    ghost known: { (i : ℕ) → i < count → slice_index numbers i < centers.now.count },
    ghost rises: { (i j : ℕ) → i < j → j < count → slice_index numbers i < slice_index numbers j },
}
