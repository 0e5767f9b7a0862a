ghost use Rattle.std.specs.Prelude.{◌≡◌, ◌<◌, length, slice_index};
ghost use Rattle.grouping.specs.Boxes.{near};
ghost use Rattle.grouping.specs.Choice.{center};
ghost use Rattle.pruning.specs.Positions.{lows_of, highs_of};
ghost use Rattle.pruning.specs.Candidates.{listed, among};
ghost use Rattle.pruning.specs.Contenders.{stand_of};
ghost use Rattle.pruning.specs.Pruning.{Leader};

use crate::candidates::Candidates;
use crate::contender::Contender;
use crate::region::Region;

// The least squared distance of the region to the candidate at place i of the list.
fn distance_at(region: &Region, candidates: &Candidates, i: usize) -> i64
    ensures { i < length (listed candidates.now) → result ≡ near (lows_of region.now) (highs_of region.now) (center (among region.now.axes candidates.now) (slice_index (listed candidates.now) i)) }
{
    region.near_to(&candidates.get(i).position)
}

// The candidate that is nearest to the region, the lowest number of several.
pub fn leader(region: &Region, candidates: &Candidates) -> Contender
    ensures leads { Leader (lows_of region.now) (highs_of region.now) (among region.now.axes candidates.now) (listed candidates.now) result.number }
    ensures stands { stand_of region.now result ≡ center (among region.now.axes candidates.now) result.number }
{
    let first = (0..candidates.count())
        .min_by_key(|i| distance_at(region, candidates, *i))
        .unwrap();
    candidates.get(first)
}
