ghost use Rattle.pruning.specs.Rules.{corner_prunes};
ghost use Rattle.pruning.specs.Safety.{corner_safe};

use crate::contender::Contender;
use crate::region::Region;
use crate::rule::Rule;

// The rule that prunes a candidate that the leader beats at the corner of the box that is best for the candidate.
#[derive(Clone, Copy)]
pub struct Corner;

impl Rule for Corner {
    ghost prunes = { λ _. corner_prunes };

    ghost safe = { λ rule. corner_safe };

    fn prunes(&self, region: &Region, leader: &Contender, candidate: &Contender) -> bool {
        let of_leader = region.corner_distance(leader, candidate, leader);
        let of_candidate = region.corner_distance(leader, candidate, candidate);
        // as near is enough for the lower number
        if leader.number < candidate.number {
            of_leader <= of_candidate
        } else {
            of_leader < of_candidate
        }
    }
}
