// What a box tells.
ghost use Rattle.std.specs.Prelude.{◌≤◌, MatchResult};
ghost use Rattle.boxes.specs.Regions.{boxes_after};
ghost use Rattle.boxes.specs.Reports.{Reports};
ghost use Rattle.boxes.specs.Standing.{cuts_of, entries_of};

use crate::at::BoxAt;
use crate::report::{BoxReport, CutReport, NoBox};
use crate::table::BoxTable;
use points::record::Record;

impl<'t, 'a, R: Record> BoxAt<'t, 'a, R> {
    // What the box tells.
    fn report(self) -> BoxReport
        ensures { Reports (entries_of self.entry.table.now) (cuts_of self.entry.table.now) self.entry.number result }
    {
        let node = self.node();
        BoxReport {
            bounds: node.bounds,
            records: self.size(),
            tallies: node.tallies,
            cut: self.split().map(|split| CutReport {
                axis: split.cut.axis,
                value: split.cut.value,
                first: split.first.number,
                second: split.second.number,
            }),
        }
    }
}

impl<'a, R: Record> BoxTable<'a, R> {
    // What the box of number b tells, if there is one.
    pub fn tell(&self, b: usize) -> Result<BoxReport, NoBox>
        ensures { MatchResult result (λ t. Reports (entries_of self.now) (cuts_of self.now) b t) (λ _. boxes_after (cuts_of self.now) ≤ b) }
    {
        let at = self.at(b).ok_or(NoBox)?;
        Ok(at.report())
    }
}
