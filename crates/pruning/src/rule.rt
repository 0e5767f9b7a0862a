ghost use Rattle.std.specs.Prelude.{◌≡◌};
ghost use Rattle.pruning.specs.Rules.{Test, Safe};
ghost use Rattle.pruning.specs.Contenders.{answer};

use crate::contender::Contender;
use crate::region::Region;

// Which candidates a leader prunes from a box: only such as it beats at every place of the box.
pub trait Rule {
    ghost prunes: { Self → Test };

    // Whether the leader prunes the candidate from the region.
    fn prunes(&self, region: &Region, leader: &Contender, candidate: &Contender) -> bool
        ensures { result ≡ answer (prunes self.now) region.now leader.now candidate.now };

    ghost safe: { (rule : Self) → Safe (prunes rule) };
}
