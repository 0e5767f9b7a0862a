ghost use Rattle.std.specs.Prelude.{◌≡◌, not, ◌||◌, ◌==◌};
ghost use Rattle.std.specs.List.{ContainsAt as Has};
ghost use Rattle.grouping.specs.Boxes.{Inside};
ghost use Rattle.grouping.specs.Choice.{center, choose};
ghost use Rattle.grouping.specs.Distance.{Place};
ghost use Rattle.pruning.specs.Candidates.{listed, among};
ghost use Rattle.pruning.specs.Contenders.{answer, stand_of};
ghost use Rattle.pruning.specs.Positions.{lows_of, highs_of};
ghost use Rattle.pruning.specs.Pruning.{Leader, Left};

use crate::candidates::Candidates;
use crate::centers::MOST;
use crate::contender::Contender;
use crate::leader::leader;
use crate::region::Region;
use crate::rule::Rule;

// Region and candidates are two parameters throughout: the candidates go on to the boxes below, and the region does not.

// Whether the leader leaves the candidate: itself always, any other where the rule does not prune it.
fn leaves<T: Rule>(rule: &T, region: &Region, leader: &Contender, candidate: &Contender) -> bool
    ensures { result ≡ (candidate.now.number == leader.now.number || not (answer (T.Rule.prunes rule.now) region.now leader.now candidate.now)) }
{
    candidate.number == leader.number || !rule.prunes(region, leader, candidate)
}

// The candidates that the leader leaves, in their order.
// Copied one by one into an array: fixed memory, a session has no heap.
fn left_by<'a, T: Rule>(
    rule: &T,
    region: &Region,
    candidates: &Candidates<'a>,
    leader: &Contender,
) -> Candidates<'a>
    requires leads { Leader (lows_of region.now) (highs_of region.now) (among region.now.axes candidates.now) (listed candidates.now) leader.now.number }
    requires stands { stand_of region.now leader.now ≡ center (among region.now.axes candidates.now) leader.now.number }
    ensures among { result.centers.now ≡ candidates.now.centers.now }
    ensures left { Left (T.Rule.prunes rule.now) (lows_of region.now) (highs_of region.now) (among region.now.axes candidates.now) (listed candidates.now) (listed result) }
{
    let mut numbers = [0; MOST];
    let mut count = 0;
    for number in candidates.numbers() {
        let candidate = candidates.contender(*number);
        if leaves(rule, region, leader, &candidate) {
            numbers[count] = candidate.number;
            count += 1;
        }
    }
    Candidates {
        centers: candidates.centers,
        numbers,
        count,
    }
}

// The candidates that are left for the region: the one nearest to it leads, and the rule says which of the others it prunes. No place
// of the region loses the center that it belongs to.
pub fn prune<'a, T: Rule>(rule: &T, region: &Region, candidates: &Candidates<'a>) -> Candidates<'a>
    ensures among { result.centers.now ≡ candidates.now.centers.now }
    ensures left { Left (T.Rule.prunes rule.now) (lows_of region.now) (highs_of region.now) (among region.now.axes candidates.now) (listed candidates.now) (listed result) }
    ensures covers { (p : Place) → Inside (lows_of region.now) (highs_of region.now) p → Has (listed candidates.now) (choose (among region.now.axes candidates.now) p) → Has (listed result) (choose (among region.now.axes candidates.now) p) }
{
    let first = leader(region, candidates);
    left_by(rule, region, candidates, &first)
}
