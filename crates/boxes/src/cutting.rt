// Cutting a box in two.
ghost use Rattle.std.specs.Prelude.{◌≡◌, ◌+◌, ◌*◌, ◌<◌, ◌≤◌, ◌⊎◌, true, false, [], ◌∷◌, ◌++◌, MatchOption, MatchResult};
ghost use Rattle.boxes.specs.Faults.{Against, Refused, Accepted};
ghost use Rattle.boxes.specs.declared.fault.CutFault.TheVariants.{OneSided};
ghost use Rattle.boxes.specs.Regions.{boxes_after, cut_by, Uncut};
ghost use Rattle.boxes.specs.Standing.{cuts_of, entries_of};

use crate::at::BoxAt;
use crate::cut::Cut;
use crate::fault::CutFault;
use crate::node::BoxNode;
use crate::run::{Run, part};
use crate::table::{BoxTable, MOST_CUTS};
use points::record::Record;

impl<'t, 'a, R: Record> BoxAt<'t, 'a, R> {
    // Whether one side of the box, cut so, would have no record.
    fn is_one_sided(self, cut: &Cut) -> bool
        ensures yes { result ≡ true → Against R.Point.AXES (entries_of self.entry.table.now) (cuts_of self.entry.table.now) (cut_by self.entry.number cut.now.axis cut.now.value) OneSided }
        ensures no { result ≡ false → Against R.Point.AXES (entries_of self.entry.table.now) (cuts_of self.entry.table.now) (cut_by self.entry.number cut.now.axis cut.now.value) OneSided → ⊥ }
    {
        let lower = self.run().count_below(cut);
        lower == 0 || lower == self.size()
    }
}

impl<'a, R: Record> BoxTable<'a, R> {
    // The box of this number, if there is one that is uncut.
    fn uncut_at(&self, number: usize) -> Option<BoxAt<'_, 'a, R>>
        ensures { MatchOption result ((boxes_after (cuts_of self.now) ≤ number) ⊎ (Uncut (cuts_of self.now) number → ⊥)) (λ at. (at.number ≡ number) × (at.table.now ≡ self.now) × Uncut (cuts_of self.now) number) }
    {
        let at = self.at(number)?;
        if at.split().is_some() {
            return None;
        }
        Some(at)
    }

    // Why the cut is refused, if it is.
    fn check(&self, cut: &Cut) -> Result<(), CutFault>
        ensures { MatchResult result (λ _. Accepted R.Point.AXES (entries_of self.now) (cuts_of self.now) cut.now) (λ f. Refused R.Point.AXES (entries_of self.now) (cuts_of self.now) cut.now f) }
    {
        let at = self.uncut_at(cut.parent).ok_or(CutFault::NoUncutBox)?;
        if cut.axis >= R::AXES {
            return Err(CutFault::NoAxis);
        }
        if self.count == MOST_CUTS {
            return Err(CutFault::Full);
        }
        if at.is_one_sided(cut) {
            return Err(CutFault::OneSided);
        }
        Ok(())
    }

    // Makes the cut: parts the run of its box in place, and gives the box two children. What `stood` and `room` say follows from `accepted`,
    // and is said once more for the index and the count.
    fn divide(&mut self, cut: Cut)
        requires accepted { Accepted R.Point.AXES (entries_of self.old) (cuts_of self.old) cut }
        requires stood { cut.parent < 2 * self.old.count + 1 }
        requires room { self.old.count < 127 }
        ensures noted { cuts_of self.new ≡ cuts_of self.old ++ cut ∷ [] }
        ensures recording { self.new.recording ≡ self.old.recording }
    {
        let records = self.recording.records();
        let node = self.nodes[cut.parent];
        let (from, to) = (node.from, node.to);
        let mid = from + part(&mut self.order[from..to], records, &cut);
        let first = Run {
            records,
            numbers: &self.order[from..mid],
        };
        let first = first.node(from);
        let second = Run {
            records,
            numbers: &self.order[mid..to],
        };
        let second = second.node(mid);
        let i = self.count;
        self.nodes[cut.parent] = BoxNode {
            cut: Some(i),
            ..node
        };
        self.nodes[2 * i + 1] = first;
        self.nodes[2 * i + 2] = second;
        self.cuts[i] = cut;
        self.count = i + 1;
    }

    // Cuts the box of this number: of its records, those below the value on the axis go to a first new box, the others to a second one. A
    // refusal changes nothing.
    pub fn cut(&mut self, parent: usize, axis: usize, value: i16) -> Result<(), CutFault>
        ensures made { MatchResult result (λ _. Accepted R.Point.AXES (entries_of self.old) (cuts_of self.old) (cut_by parent axis value)) (λ f. Refused R.Point.AXES (entries_of self.old) (cuts_of self.old) (cut_by parent axis value) f) }
        ensures noted { MatchResult result (λ _. cuts_of self.new ≡ cuts_of self.old ++ cut_by parent axis value ∷ []) (λ _. self.new ≡ self.old) }
        ensures recording { self.new.recording ≡ self.old.recording }
    {
        let cut = Cut {
            parent,
            axis,
            value,
        };
        self.check(&cut)?;
        self.divide(cut);
        Ok(())
    }
}
