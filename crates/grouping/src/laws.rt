// The laws of exact k-means, over any number of axes and any list of entries: each is the contract of a function that does nothing.
ghost use Rattle.points.specs.Entries.{recorded};
ghost use Rattle.grouping.specs.Bounds.{WeightBound, SumBound, DistortionBound};
ghost use Rattle.grouping.specs.Boxes.{CornerDecides, FarBelowNear, FarAndNear, FarAndNearReached};
ghost use Rattle.grouping.specs.Examples.{WorkedFigures};
ghost use Rattle.grouping.specs.Expansion.{Expands, GroupExpands};
ghost use Rattle.grouping.specs.Ranges.{Limited};
ghost use Rattle.grouping.specs.RoundLaws.{OneChosen, OneMean, MeanBest, MeanLower, Moves, MovesOnly, SameWeights, SameSums, SameDistortion, SameMoves, SameSettled, SameChoices};
ghost use Rattle.grouping.specs.RunLaws.{NeverRises, Descends, StaysFitting, Ends, ComesToRest, BestAssignment, BestPosition, SettlesAt};

use points::record::Record;
use points::recording::Recording;

// Of one or more centers a place chooses exactly one.
pub fn choice_laws()
    ensures { OneChosen }
{}

// There is one rounded mean, it costs its axis least, and it is the lower of two that do.
pub fn mean_laws()
    ensures one { OneMean }
    ensures best { MeanBest }
    ensures lower { MeanLower }
{}

// What entries cost at a position follows from their squares, their sums and their weight.
pub fn expansion_laws()
    ensures entries { Expands }
    ensures group { GroupExpands }
{}

// A round has exactly one outcome.
pub fn outcome_laws()
    ensures some { Moves }
    ensures only { MovesOnly }
{}

// No round raises the distortion. Where a center moves, the distortion falls, or it stays and the coordinate total falls.
pub fn descent_laws()
    ensures never { NeverRises }
    ensures lowers { Descends }
{}

// Rounds keep the centers within the range of the places, only so many in a row can move a center, and where they stop is one list of
// centers.
pub fn ending_laws()
    ensures range { StaysFitting }
    ensures ends { Ends }
    ensures rests { ComesToRest }
    ensures settles { SettlesAt }
{}

// Where a round moves nothing, neither another assignment nor another position of a center costs less.
pub fn rest_laws()
    ensures assignment { BestAssignment }
    ensures position { BestPosition }
{}

// Entries that hold the same places as often have the same groups and the same rounds, in any order and however they are split.
pub fn sameness_laws()
    ensures weights { SameWeights }
    ensures sums { SameSums }
    ensures distortion { SameDistortion }
    ensures moves { SameMoves }
    ensures settled { SameSettled }
    ensures choices { SameChoices }
{}

// Within the limits of a recording weights are below 2^28, sums below 2^43 in size, and the distortion is below 2^62.
pub fn bound_laws()
    ensures weight { WeightBound }
    ensures sums { SumBound }
    ensures distortion { DistortionBound }
{}

// The records of a recording, of whatever kind, are within these limits.
pub fn recording_limits<R: Record>(recording: &Recording<R>)
    ensures { Limited R.Point.AXES (recorded R.Point R.Record.own recording.now) }
{}

// Which of two centers is nearer to all of a box, by one corner, and by the greatest and the least distance.
pub fn box_laws()
    ensures corner { CornerDecides }
    ensures distances { FarBelowNear }
    ensures range { FarAndNear }
    ensures reached { FarAndNearReached }
{}

// Rounds worked by hand.
pub fn worked_figures()
    ensures { WorkedFigures }
{}
