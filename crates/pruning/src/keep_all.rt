ghost use Rattle.std.specs.Prelude.{false};
ghost use Rattle.std.proofs.Common.{rules};

use crate::contender::Contender;
use crate::region::Region;
use crate::rule::Rule;

// The rule that never prunes.
#[derive(Clone, Copy)]
pub struct KeepAll;

impl Rule for KeepAll {
    ghost prunes = { λ _ _ _ _ _ _ _. false };

    ghost safe = { Prim.search rules };

    fn prunes(&self, _region: &Region, _leader: &Contender, _candidate: &Contender) -> bool {
        false
    }
}
