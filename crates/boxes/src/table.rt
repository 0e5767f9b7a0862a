ghost use Rattle.std.specs.Prelude.{◌≡◌, ◌≤◌, length, take};
ghost use Rattle.points.specs.Entries.{recorded};
ghost use Rattle.boxes.specs.Agreement.{Agrees};
ghost use Rattle.boxes.specs.Table.{Known, HasRuns, HasCuts, Rises};

use crate::cut::Cut;
use crate::node::BoxNode;
use points::record::Record;
use points::recording::{MOST, Recording};

// The most boxes that a table has.
pub const MOST_BOXES: usize = 255;

// The most cuts, each of which makes two boxes.
pub const MOST_CUTS: usize = 127;

// The boxes over a recording. The cuts are kept in the order in which they were made; cut i made the boxes 1 + 2i and 2 + 2i. The
// numbers of the records are kept so that each box has one run of them, and a cut parts the run of its box in place.
#[derive(Drop)]
pub struct BoxTable<'a, R: Record> {
    pub(crate) recording: Recording<'a, R>,
    pub(crate) nodes: [BoxNode; MOST_BOXES],
    // arrays with one count: no heap, and an `ArrayVec` for boxes and one for cuts would keep two counts that have to agree
    pub(crate) cuts: [Cut; MOST_CUTS],
    pub(crate) count: usize,
    pub(crate) order: [u16; MOST],
    ghost wide: { length nodes ≡ 255 },
    ghost logged: { length cuts ≡ 127 },
    ghost long: { length order ≡ 4096 },
    ghost few: { count ≤ 127 },
    ghost known: { Known order (length recording.records.now) },
    ghost runs: { HasRuns nodes count (length recording.records.now) },
    ghost links: { HasCuts nodes count },
    ghost rising: { Rises nodes count },
    // the arrays are those that the cuts give; bare of its proof, as a ghost field must be
    ghost stands: { ∥ Agrees (recorded R.Point R.Record recording) (take count cuts) nodes order ∥₁ },
}
