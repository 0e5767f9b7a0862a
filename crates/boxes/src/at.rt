// One box of a table, and how it was cut.
ghost use Rattle.std.specs.Prelude.{◌≡◌, ◌+◌, ◌*◌, ◌<◌, IfSome, MatchOption, length};
ghost use Rattle.boxes.specs.Regions.{contents, Uncut, SplitInto};
ghost use Rattle.boxes.specs.Standing.{cuts_of, entries_of, run_of};
ghost use Rattle.boxes.specs.Table.{node_at};

use crate::cut::Cut;
use crate::node::BoxNode;
use crate::run::Run;
use crate::table::BoxTable;
use points::record::Record;
use std::alloc::AllocError;

// A box that a table has.
pub struct BoxAt<'t, 'a, R: Record> {
    pub(crate) table: &'t BoxTable<'a, R>,
    pub(crate) number: usize,
    ghost there: { number < 2 * table.now.count + 1 },
}

// by hand: derived, they would ask that the records are copied too
impl<'t, 'a, R: Record> Copy for BoxAt<'t, 'a, R> {}

impl<'t, 'a, R: Record> Clone for BoxAt<'t, 'a, R> {
    ghost is_clone = { λ x y. y ≡ x };

    ghost is_infallible = { λ _. Unit {0} };

    fn clone(&self) -> Result<BoxAt<'t, 'a, R>, AllocError> {
        Ok(*self)
    }
}

// The cut of a box, and the two boxes that it made.
#[derive(Drop)]
pub struct Split<'t, 'a, R: Record> {
    pub cut: Cut,
    pub first: BoxAt<'t, 'a, R>,
    pub second: BoxAt<'t, 'a, R>,
}

impl<'t, 'a, R: Record> BoxAt<'t, 'a, R> {
    // The number of the box.
    pub fn number(self) -> usize
        ensures { result ≡ self.entry.number }
    {
        self.number
    }

    // What the table keeps of the box.
    pub fn node(self) -> BoxNode
        ensures { result ≡ node_at self.entry.table.now.nodes self.entry.number }
    {
        self.table.nodes[self.number]
    }

    // How many records the box has.
    pub fn size(self) -> usize
        ensures { result ≡ length (contents (cuts_of self.entry.table.now) self.entry.number (entries_of self.entry.table.now)) }
    {
        let node = self.node();
        node.to - node.from
    }

    // The records of the box.
    pub fn run(self) -> Run<'t, 'a, R>
        ensures records { result.records.now ≡ self.entry.table.now.recording.records.now }
        ensures numbers { result.numbers.now ≡ run_of self.entry.table.now self.entry.number }
    {
        let node = self.node();
        let table = self.table;
        Run {
            records: table.recording.records(),
            numbers: &table.order[node.from..node.to],
        }
    }

    // How the box was cut, if it was.
    pub fn split(self) -> Option<Split<'t, 'a, R>>
        ensures is { MatchOption result (Uncut (cuts_of self.entry.table.now) self.entry.number) (λ s. SplitInto (cuts_of self.entry.table.now) self.entry.number s.cut s.first.number s.second.number) }
        ensures tables { IfSome result (λ s. (s.first.table.now ≡ self.entry.table.now) × (s.second.table.now ≡ self.entry.table.now)) }
    {
        let i = self.node().cut?;
        Some(Split {
            cut: self.table.cuts[i],
            first: BoxAt {
                table: self.table,
                number: 2 * i + 1,
            },
            second: BoxAt {
                table: self.table,
                number: 2 * i + 2,
            },
        })
    }
}
