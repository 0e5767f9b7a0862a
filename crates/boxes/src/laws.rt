// The laws of boxes and of tables: each is the contract of a function that does nothing.
ghost use Rattle.boxes.specs.Examples.{WorkedFigures, WorkedBoxes};
ghost use Rattle.boxes.specs.Laws.{OneSmallest};
ghost use Rattle.boxes.specs.Standing.{Stands};

use crate::table::BoxTable;
use points::record::Record;

// A place has exactly one smallest box.
pub fn box_laws()
    ensures { OneSmallest }
{}

// A table is in order.
pub fn table_stands<R: Record>(table: &BoxTable<R>)
    ensures { Stands table.now }
{}

// Cuts worked by hand.
pub fn worked_figures()
    ensures cuts { WorkedFigures }
    ensures boxes { WorkedBoxes }
{}
