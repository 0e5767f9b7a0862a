// The table of a recording before the first cut.
ghost use Rattle.std.specs.Prelude.{◌≡◌, ℕ, ◌<◌, [], length, slice_index};
ghost use Rattle.boxes.specs.Standing.{cuts_of};

use crate::cut::Cut;
use crate::node::BoxNode;
use crate::run::Run;
use crate::table::{BoxTable, MOST_BOXES, MOST_CUTS};
use points::record::Record;
use points::recording::{MOST, Recording};
use std::array;

// The record numbers in their order.
fn numbers() -> [u16; MOST]
    ensures long { length result ≡ 4096 }
    ensures each { (k : ℕ) → k < 4096 → slice_index result k ≡ k }
{
    array::from_fn(|i| i as u16)
}

impl<'a, R: Record> BoxTable<'a, R> {
    // The table of the recording: one box, with all records.
    pub fn new(recording: Recording<'a, R>) -> BoxTable<'a, R>
        ensures uncut { cuts_of result ≡ [] }
        ensures same { result.recording ≡ recording.entry }
    {
        let records = recording.records();
        let order = numbers();
        let all = Run {
            records,
            numbers: &order[0..records.len()],
        };
        let mut nodes = [BoxNode::default(); MOST_BOXES];
        nodes[0] = all.node(0);
        BoxTable {
            recording,
            nodes,
            cuts: [Cut::default(); MOST_CUTS],
            count: 0,
            order,
        }
    }
}
