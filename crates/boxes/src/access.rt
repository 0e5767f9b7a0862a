// Reading a table.
ghost use Rattle.std.specs.Prelude.{◌≡◌, ℕ, ◌+◌, ◌*◌, ◌<◌, ◌≤◌, length, Some, MatchOption};
ghost use Rattle.std.specs.List.{AllByRecursion};
ghost use Rattle.boxes.specs.Regions.{boxes_after};
ghost use Rattle.boxes.specs.Standing.{cuts_of, run_of};
ghost use Rattle.boxes.specs.Table.{node_at};

use crate::at::BoxAt;
use crate::node::BoxNode;
use crate::table::BoxTable;
use points::record::Record;
use points::recording::Recording;

impl<'a, R: Record> BoxTable<'a, R> {
    // The recording that the boxes are over.
    pub fn recording(&self) -> Recording<'a, R>
        ensures { result ≡ self.now.recording }
    {
        self.recording
    }

    // How many boxes there are.
    pub fn count(&self) -> usize
        ensures { result ≡ boxes_after (cuts_of self.now) }
    {
        1 + 2 * self.count
    }

    // The box of all records.
    pub fn root(&self) -> BoxAt<'_, 'a, R>
        ensures is { result.number ≡ 0 }
        ensures table { result.table.now ≡ self.now }
    {
        BoxAt {
            table: self,
            number: 0,
        }
    }

    // The box of this number, if there is one.
    pub fn at(&self, number: usize) -> Option<BoxAt<'_, 'a, R>>
        ensures { MatchOption result (boxes_after (cuts_of self.now) ≤ number) (λ a. (a.number ≡ number) × (a.table.now ≡ self.now)) }
    {
        if number < 2 * self.count + 1 {
            Some(BoxAt {
                table: self,
                number,
            })
        } else {
            None
        }
    }

    // The box of this number, or box 0 where there is none.
    fn at_or_root(&self, number: usize) -> BoxAt<'_, 'a, R>
        ensures is { number < boxes_after (cuts_of self.now) → result.number ≡ number }
        ensures past { boxes_after (cuts_of self.now) ≤ number → result.number ≡ 0 }
        ensures table { result.table.now ≡ self.now }
    {
        self.at(number).unwrap_or(self.root())
    }

    // The box of number b, or box 0 where there is none of that number. It cannot fail: `at` tells whether there is one.
    pub fn node(&self, b: usize) -> BoxNode
        ensures is { b < boxes_after (cuts_of self.now) → result ≡ node_at self.now.nodes b }
        ensures past { boxes_after (cuts_of self.now) ≤ b → result ≡ node_at self.now.nodes 0 }
        ensures run { (result.from < result.to) × (result.to ≤ length self.now.recording.records.now) }
        ensures children { (i : ℕ) → b < boxes_after (cuts_of self.now) → result.cut ≡ Some i → (2 * i + 2 < boxes_after (cuts_of self.now)) × (b < 2 * i + 1) }
    {
        self.at_or_root(b).node()
    }

    // The numbers of the records of box b, or of box 0 where there is none of that number. It cannot fail either.
    pub fn run(&self, b: usize) -> &[u16]
        ensures is { b < boxes_after (cuts_of self.now) → result.now ≡ run_of self.now b }
        ensures past { boxes_after (cuts_of self.now) ≤ b → result.now ≡ run_of self.now 0 }
        ensures known { AllByRecursion (λ i. i < length self.now.recording.records.now) result.now }
    {
        self.at_or_root(b).run().numbers
    }
}
