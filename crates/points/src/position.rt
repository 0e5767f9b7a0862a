ghost use Rattle.points.specs.Kinds.{position_place};
ghost use Rattle.std.specs.Prelude.{pos, slice_index_or};
ghost use Rattle.points.specs.Told.{told_ranged};
ghost use Rattle.std.proofs.Common.{rules};

use crate::point::Point;

// A place on four axes; a kind with fewer axes uses the first of them.
#[derive(Clone, Copy, Default)]
pub struct Position {
    pub at: [i16; 4],
}

impl Point for Position {
    const AXES: usize = 4;

    ghost AXES = { 4 };

    ghost place = { position_place };

    ghost few = { Prim.search rules };

    ghost sized = { Prim.search rules };

    ghost ranged = { λ p k. told_ranged (slice_index_or p.at 0 (pos 0)) (slice_index_or p.at 1 (pos 0)) (slice_index_or p.at 2 (pos 0)) (slice_index_or p.at 3 (pos 0)) k };

    fn axis(&self, k: usize) -> i16 {
        self.at.get(k).copied().unwrap_or(0)
    }
}
