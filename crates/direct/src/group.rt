ghost use Rattle.std.specs.Prelude.{◌≡◌};
ghost use Rattle.points.specs.Entries.{recorded};
ghost use Rattle.grouping.specs.Groups.{places, Tallied, Flat};
ghost use Rattle.grouping.specs.Moving.{settled_centers};
ghost use Rattle.direct.specs.Answers.{RoundsTo};

use crate::round::round;
use crate::tally::tally;
use grouping::group::Group;
use points::record::Record;
use points::recording::Recording;

// The most rounds that are made.
pub const MOST_ROUNDS: u32 = 100;

// Rounds, until one moves nothing: how many were made. None where the most were made and each of them moved a center.
fn settle<R: Record>(recording: &Recording<R>, groups: &mut [Group]) -> Option<u32>
    ensures rounds { RoundsTo (recorded R.Point R.Record.own recording.now) (places R.Point.AXES groups.old) (places R.Point.AXES groups.new) result }
    ensures flat { Flat R.Point.AXES groups.new }
{
    // no `find`: of what its closure changes, as the groups, a proof learns nothing
    for n in 0..MOST_ROUNDS {
        if round(recording, groups) == 0 {
            return Some(n + 1);
        }
    }
    None
}

// Groups the records of the recording: rounds from the centers that the groups have, until one moves nothing or the most were
// made; then the weight and the sums of every group, for the centers as they stand at the end. The answer is how many rounds were made, if
// the last of them moved nothing.
pub fn group<R: Record>(recording: &Recording<R>, groups: &mut [Group]) -> Option<u32>
    ensures rounds { RoundsTo (recorded R.Point R.Record.own recording.now) (places R.Point.AXES groups.old) (places R.Point.AXES groups.new) result }
    ensures centers { places R.Point.AXES groups.new ≡ settled_centers (recorded R.Point R.Record.own recording.now) 100 (places R.Point.AXES groups.old) }
    ensures flat { Flat R.Point.AXES groups.new }
    ensures tallied { Tallied (recorded R.Point R.Record.own recording.now) (places R.Point.AXES groups.new) groups.new }
{
    let rounds = settle(recording, groups);
    tally(recording, groups);
    rounds
}
