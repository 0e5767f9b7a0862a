ghost use Rattle.boxes.specs.Regions.{contents};
ghost use Rattle.boxes.specs.Standing.{cuts_of, entries_of};
ghost use Rattle.pruning.specs.Candidates.{listed, among};
ghost use Rattle.walk.specs.Growth.{Covered};

use boxes::at::BoxAt;
use points::record::Record;
use pruning::candidates::Candidates;

// A box that a walk comes to, and the candidates with which it comes: every record of the box belongs to one of them.
#[derive(Drop)]
pub(crate) struct Visit<'t, 'a, 'c, R: Record> {
    pub(crate) at: BoxAt<'t, 'a, R>,
    pub(crate) candidates: Candidates<'c>,
    ghost covered: { ∥ Covered (among R.Point.AXES candidates) (listed candidates) (contents (cuts_of at.table.now) at.number (entries_of at.table.now)) ∥₁ },
}
