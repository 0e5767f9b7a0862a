ghost use Rattle.std.specs.Prelude.{◌≡◌, ℕ, ◌<◌, length, ◌≢◌, slice_index};
ghost use Rattle.rows.specs.Columns.{width};

use crate::kind::FileKind;

// In which order the lines of a file have its columns: the k-th field is of the column `at[k]`. Each column stands once.
#[derive(Clone, Copy)]
pub struct Order {
    pub(crate) kind: FileKind,
    // No heap: there are places for the most columns that a kind has.
    pub(crate) at: [usize; 4],
    ghost long: { length at ≡ 4 },
    ghost known: { (k : ℕ) → k < width kind → slice_index at k < width kind },
    ghost once: { (i j : ℕ) → i < j → j < width kind → slice_index at i ≢ slice_index at j },
}
