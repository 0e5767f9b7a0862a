// Halving: cutting the largest box at the middle of its widest axis, while there is a box with many records that differ.
ghost use Rattle.std.specs.Prelude.{◌≡◌, ℕ, ◌+◌, true, false, if◌then◌else◌, MatchOption};
ghost use Rattle.boxes.specs.Halving.{Halvable, Largest, Halves, Halvings, Rests, Stepped};
ghost use Rattle.boxes.specs.Standing.{cuts_of, entries_of};

use crate::at::BoxAt;
use crate::cut::Cut;
use crate::table::{BoxTable, MOST_CUTS};
use crate::width::{middle_at, widest_axis, width_at};
use points::record::Record;

// A box with no more records than these is not halved.
pub const FEW_RECORDS: usize = 16;

impl<'t, 'a, R: Record> BoxAt<'t, 'a, R> {
    // Whether the box can be halved.
    fn is_halvable(self) -> bool
        ensures yes { result ≡ true → Halvable R.Point.AXES (entries_of self.entry.table.now) (cuts_of self.entry.table.now) self.entry.number }
        ensures no { result ≡ false → Halvable R.Point.AXES (entries_of self.entry.table.now) (cuts_of self.entry.table.now) self.entry.number → ⊥ }
    {
        if self.split().is_some() || self.size() <= FEW_RECORDS {
            return false;
        }
        let bounds = self.node().bounds;
        width_at(&bounds, widest_axis(&bounds, R::AXES)) > 0
    }

    // The cut of the box at the middle of its widest axis.
    fn middle_cut(self) -> Cut
        ensures { Largest R.Point.AXES (entries_of self.entry.table.now) (cuts_of self.entry.table.now) self.entry.number → Halves R.Point.AXES (entries_of self.entry.table.now) (cuts_of self.entry.table.now) result }
    {
        let bounds = self.node().bounds;
        let axis = widest_axis(&bounds, R::AXES);
        Cut {
            parent: self.number,
            axis,
            value: middle_at(&bounds, axis),
        }
    }
}

impl<'a, R: Record> BoxTable<'a, R> {
    // The largest box that can be halved, the first of them.
    fn largest(&self) -> Option<BoxAt<'_, 'a, R>>
        ensures { MatchOption result ((b : ℕ) → Halvable R.Point.AXES (entries_of self.now) (cuts_of self.now) b → ⊥) (λ at. (at.table.now ≡ self.now) × Largest R.Point.AXES (entries_of self.now) (cuts_of self.now) at.number) }
    {
        // a loop: of a box that is no larger than the largest so far it is not asked whether it can be halved
        let mut largest: Option<BoxAt<R>> = None;
        for number in 0..self.count() {
            let at = BoxAt {
                table: self,
                number,
            };
            // a `match`, whose arms a proof can follow
            let more = match largest {
                Some(most) => at.size() > most.size(),
                None => true,
            };
            if more && at.is_halvable() {
                largest = Some(at);
            }
        }
        largest
    }

    // The cut that halves next, if there is a box to halve.
    fn next_halving(&self) -> Option<Cut>
        ensures { MatchOption result ((b : ℕ) → Halvable R.Point.AXES (entries_of self.now) (cuts_of self.now) b → ⊥) (λ c. Halves R.Point.AXES (entries_of self.now) (cuts_of self.now) c) }
    {
        Some(self.largest()?.middle_cut())
    }

    // Halves one box, if there is one to halve and room for two more; whether there was.
    fn halve_one(&mut self) -> bool
        ensures step { Stepped R.Point.AXES (entries_of self.old) (cuts_of self.old) result (cuts_of self.new) }
        ensures counted { self.new.count ≡ (if result then self.old.count + 1 else self.old.count) }
        ensures recording { self.new.recording ≡ self.old.recording }
    {
        if self.count == MOST_CUTS {
            return false;
        }
        // no `is_some_and`: its closure would have to change the table
        let Some(cut) = self.next_halving() else {
            return false;
        };
        self.cut(cut.parent, cut.axis, cut.value).is_ok()
    }

    // Halves boxes until none is left to halve or all boxes are there; how many cuts that took.
    pub fn halve(&mut self) -> usize
        ensures halved { Halvings R.Point.AXES (entries_of self.old) (cuts_of self.old) result (cuts_of self.new) }
        ensures rests { Rests R.Point.AXES (entries_of self.old) (cuts_of self.new) }
        ensures recording { self.new.recording ≡ self.old.recording }
    {
        let mut n = 0;
        // a `while`: each turn changes what the next one looks at
        while self.halve_one() {
            n += 1;
        }
        n
    }
}
