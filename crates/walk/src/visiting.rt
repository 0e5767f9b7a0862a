// Where a walk begins, and how it goes on.
ghost use Rattle.std.specs.Prelude.{◌≡◌, ◌<◌, [], ◌∷◌, length, IfSome, MatchOption, ◌≢◌};
ghost use Rattle.boxes.specs.Regions.{Uncut};
ghost use Rattle.pruning.specs.Pruning.{numbers_of};
ghost use Rattle.walk.specs.Visits.{box_of, cuts_in, all_entries, entries_in, centers_in, candidates_in, Pruned, Parts};

use crate::visit::Visit;
use boxes::table::BoxTable;
use points::record::Record;
use pruning::candidates::Candidates;
use pruning::centers::Centers;
use pruning::prune::prune;
use pruning::region::Region;
use pruning::rule::Rule;

impl<'t, 'a, 'c, R: Record> Visit<'t, 'a, 'c, R> {
    // The first: the box of all records, with all centers.
    pub(crate) fn root(table: &'t BoxTable<'a, R>, centers: &'c Centers) -> Visit<'t, 'a, 'c, R>
        ensures box_is { box_of result ≡ 0 }
        ensures table { result.at.table.now ≡ table.now }
        ensures centers { result.candidates.centers.now ≡ centers.now }
        ensures all { candidates_in result ≡ numbers_of (centers_in result) }
    {
        Visit {
            at: table.root(),
            candidates: Candidates::all(centers),
        }
    }

    // The same box, with the candidates that the rule leaves there.
    pub(crate) fn pruned<T: Rule>(&self, rule: &T) -> Visit<'t, 'a, 'c, R>
        ensures { Pruned (T.Rule.prunes rule.now) self.now result }
    {
        let region = Region {
            axes: R::AXES,
            bounds: self.at.node().bounds,
        };
        Visit {
            at: self.at,
            candidates: prune(rule, &region, &self.candidates),
        }
    }

    // The only candidate, if there is just one.
    pub(crate) fn only(&self) -> Option<u8>
        ensures is { MatchOption result (length (candidates_in self.now) ≢ 1) (λ k. candidates_in self.now ≡ k ∷ []) }
        ensures known { IfSome result (λ k. k < 32) }
    {
        match self.candidates.numbers() {
            [only] => Some(*only),
            _ => None,
        }
    }

    // The two boxes that the box was cut into, if it was, with the same candidates.
    pub(crate) fn split(&self) -> Option<(Visit<'t, 'a, 'c, R>, Visit<'t, 'a, 'c, R>)>
        ensures { MatchOption result (Uncut (cuts_in self.now) (box_of self.now)) (λ s. Parts self.now s.0 s.1) }
    {
        let split = self.at.split()?;
        let first = Visit {
            at: split.first,
            candidates: self.candidates,
        };
        let second = Visit {
            at: split.second,
            candidates: self.candidates,
        };
        Some((first, second))
    }
}
