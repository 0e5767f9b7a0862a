ghost use Rattle.pruning.specs.Rules.{min_max_prunes};
ghost use Rattle.pruning.specs.Safety.{min_max_safe};

use crate::contender::Contender;
use crate::region::Region;
use crate::rule::Rule;

// The rule that prunes a candidate that is farther from all of the box than the leader is from any of it.
#[derive(Clone, Copy)]
pub struct MinMax;

impl Rule for MinMax {
    ghost prunes = { λ _. min_max_prunes };

    ghost safe = { λ rule. min_max_safe };

    fn prunes(&self, region: &Region, leader: &Contender, candidate: &Contender) -> bool {
        region.far_from(&leader.position) < region.near_to(&candidate.position)
    }
}
