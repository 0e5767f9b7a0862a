ghost use Rattle.std.specs.Prelude.{◌≡◌, ◌≤◌, length};

use grouping::group::Group;
use rows::kind::FileKind;

// The groups that the program found: the first `count` of the table. The kind is that of the center file, whose columns are the axes.
#[derive(Clone, Copy)]
pub struct Report {
    pub(crate) kind: FileKind,
    // an array with a count: no heap, and no `ArrayVec`, which is not `Copy`
    pub(crate) count: usize,
    pub(crate) groups: [Group; 32],
    ghost few: { count ≤ 32 },
    ghost long: { length groups ≡ 32 },
}
