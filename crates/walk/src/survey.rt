// What every center gets of a recording, found down its boxes.
ghost use Rattle.std.specs.Prelude.{◌≡◌, ◌+◌, ◌*◌, ◌%◌, ◌^◌, length};
ghost use Rattle.boxes.specs.Standing.{cuts_of, entries_of};
ghost use Rattle.walk.specs.Growth.{Grown};
ghost use Rattle.walk.specs.Surveys.{Surveyed};
ghost use Rattle.walk.specs.Visits.{entries_in, centers_in, candidates_in, CountedFrom};

use crate::found::{Survey, distortion_of, groups_of};
use crate::nearest::nearest_of;
use crate::tally::Tally;
use crate::totals::of_record;
use crate::visit::Visit;
use boxes::table::BoxTable;
use points::record::Record;
use pruning::centers::Centers;
use pruning::rule::Rule;

impl<'t, 'a, 'c, R: Record> Visit<'t, 'a, 'c, R> {
    // Gives each record of the box to the nearest of the candidates.
    fn read(&self, out: &mut Tally)
        ensures grown { Grown (centers_in self.now) (entries_in self.now) out.old.groups out.new.groups }
        ensures distances { out.new.distances ≡ (out.old.distances + length (entries_in self.now) * length (candidates_in self.now)) % 2 ^ 64 }
        ensures queries { out.new.queries ≡ (out.old.queries + 0) % 2 ^ 64 }
    {
        let run = self.at.run();
        for i in run.numbers {
            let r = &run.records[*i as usize];
            out.credit(nearest_of(r, &self.candidates) as usize, &of_record(r));
        }
        out.note(run.numbers.len() as u64 * self.candidates.count() as u64, 0);
    }

    // Gives what is in the box to the candidates.
    fn tally<T: Rule>(&self, rule: &T, out: &mut Tally)
        ensures grown { Grown (centers_in self.now) (entries_in self.now) out.old.groups out.new.groups }
        ensures counted { CountedFrom (T.Rule.prunes rule.now) self.now out.old out.new }
    {
        let left = self.pruned(rule);
        out.note(0, self.candidates.count() as u64 - 1);
        if let Some(only) = left.only() {
            out.credit(only as usize, &self.at.node().tallies);
            return;
        }
        match left.split() {
            Some((first, second)) => {
                first.tally(rule, out);
                second.tally(rule, out);
            }
            None => left.read(out),
        }
    }
}

// Gives each box or record of the recording to the center that the record itself would choose, and tells what every center gets, what
// that costs, and what it took to find out.
pub fn survey_groups<R: Record, T: Rule>(rule: &T, table: &BoxTable<R>, centers: &Centers) -> Survey
    ensures { Surveyed (T.Rule.prunes rule.now) R.Point.AXES (entries_of table.now) (cuts_of table.now) centers.now result }
{
    let mut found = Tally::new();
    Visit::root(table, centers).tally(rule, &mut found);
    Survey {
        groups: groups_of(&found, centers),
        distortion: distortion_of::<R>(&found, centers),
        distances: found.distances,
        queries: found.queries,
    }
}
