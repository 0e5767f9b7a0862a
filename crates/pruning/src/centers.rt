ghost use Rattle.std.specs.Prelude.{◌≡◌, ◌<◌, ◌≤◌, length};

use points::position::Position;

// The most centers.
pub const MOST: usize = 32;

// 1 to 32 centers; the number of a center is its place in the order in which they were added.
// An array with a count: fixed memory, and no `ArrayVec`, which is not `Copy`.
#[derive(Clone, Copy)]
pub struct Centers {
    pub(crate) positions: [Position; MOST],
    pub(crate) count: usize,
    ghost long: { length positions ≡ 32 },
    ghost some: { 0 < count },
    ghost few: { count ≤ 32 },
}
