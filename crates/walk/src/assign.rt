// Which center each record of a recording belongs to, found down its boxes.
ghost use Rattle.std.specs.Prelude.{◌≡◌, length, MatchResult, OnOk, ◌≢◌};
ghost use Rattle.boxes.specs.Standing.{entries_of};
ghost use Rattle.pruning.specs.Centers.{centers_of};
ghost use Rattle.walk.specs.Assignments.{Written, chosen_by, AssignedIn, Assigned};
ghost use Rattle.walk.specs.Visits.{box_of, cuts_in, run_in, all_entries, centers_in, OneForEach};

use crate::length_fault::LengthFault;
use crate::nearest::nearest_of;
use crate::visit::Visit;
use boxes::table::BoxTable;
use points::record::Record;
use pruning::centers::Centers;
use pruning::rule::Rule;

// Each asks that `out` has a place for each record: a struct that kept it would have to ask that its table is that of the visit.
impl<'t, 'a, 'c, R: Record> Visit<'t, 'a, 'c, R> {
    // Writes k for every record of the box.
    // Beside `look`, whose number is of each record: one function with that as a closure would be no plainer.
    fn give(&self, k: u8, out: &mut [u8])
        requires { OneForEach self.now out.old }
        ensures { Written (λ _. k) (run_in self.now) out.old out.new }
    {
        for i in self.at.run().numbers {
            out[*i as usize] = k;
        }
    }

    // Writes the nearest of the candidates for every record of the box.
    fn look(&self, out: &mut [u8])
        requires { OneForEach self.now out.old }
        ensures { Written (chosen_by (centers_in self.now) (all_entries self.now)) (run_in self.now) out.old out.new }
    {
        let run = self.at.run();
        for i in run.numbers {
            let r = &run.records[*i as usize];
            out[*i as usize] = nearest_of(r, &self.candidates);
        }
    }

    // Writes the number of its center for every record of the box.
    fn assign<T: Rule>(&self, rule: &T, out: &mut [u8])
        requires { OneForEach self.now out.old }
        ensures { AssignedIn (centers_in self.now) (all_entries self.now) (cuts_in self.now) (box_of self.now) out.old out.new }
    {
        let left = self.pruned(rule);
        if let Some(only) = left.only() {
            self.give(only, out);
            return;
        }
        match left.split() {
            Some((first, second)) => {
                first.assign(rule, out);
                second.assign(rule, out);
            }
            None => left.look(out),
        }
    }
}

// Writes, for each record, the number of the center that it belongs to. A refusal writes nothing.
pub fn assign<R: Record, T: Rule>(
    rule: &T,
    table: &BoxTable<R>,
    centers: &Centers,
    out: &mut [u8],
) -> Result<(), LengthFault>
    ensures assigned { OnOk result (Assigned (centers_of R.Point.AXES centers.now) (entries_of table.now) out.new) }
    ensures refused { MatchResult result (λ _. length out.old ≡ length table.now.recording.records.now) (λ _. (length out.old ≢ length table.now.recording.records.now) × (out.new ≡ out.old)) }
{
    if out.len() != table.recording().records().len() {
        return Err(LengthFault);
    }
    Visit::root(table, centers).assign(rule, out);
    Ok(())
}
