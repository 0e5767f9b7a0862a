// The laws of pruning, over any number of axes and any list of centers: each is the contract of a function that does nothing.
ghost use Rattle.std.specs.Prelude.{ℕ};
ghost use Rattle.pruning.specs.Candidates.{listed, among};
ghost use Rattle.pruning.specs.Examples.{WorkedFigures};
ghost use Rattle.pruning.specs.Pruning.{Fit, PrunesNone, ReachedCovers, LeadsAll};
ghost use Rattle.pruning.specs.Rules.{CornerPrunes};

use crate::candidates::Candidates;

// Candidates, however they were made, are numbers of their centers, at least one, each above the one before.
pub fn candidates_fit(candidates: &Candidates)
    ensures { (axes : ℕ) → Fit (among axes candidates.now) (listed candidates.now) }
{}

// The rule by corners prunes a candidate exactly where the leader beats it at the corner that is best for the candidate.
pub fn corner_law()
    ensures { CornerPrunes }
{}

// Whatever safe rules prune, a place keeps the center that it belongs to: at one box, and from all centers down to a box.
pub fn pruning_laws()
    ensures none { PrunesNone }
    ensures covers { ReachedCovers }
{}

// The leader of a box is, of all centers, the one nearest to the box, the lowest number of several: whichever safe rules pruned before.
pub fn leader_law()
    ensures { LeadsAll }
{}

// What the rules prune, worked by hand.
pub fn worked_figures()
    ensures { WorkedFigures }
{}
