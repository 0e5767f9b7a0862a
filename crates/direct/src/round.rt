ghost use Rattle.std.specs.Prelude.{◌≡◌};
ghost use Rattle.points.specs.Entries.{recorded};
ghost use Rattle.grouping.specs.Groups.{places, Tallied, Flat};
ghost use Rattle.grouping.specs.Rounds.{Moved, Changes};

use crate::tally::tally;
use grouping::group::Group;
use grouping::moved::move_centers;
use points::record::Record;
use points::recording::Recording;

// One round: every record is assigned to its nearest center, then every center with weight goes to the rounded mean of its group. The answer is how
// many centers changed their place. On the axes that the records have not, every center stands at 0 after it.
pub fn round<R: Record>(recording: &Recording<R>, groups: &mut [Group]) -> usize
    ensures moved { Moved (recorded R.Point R.Record.own recording.now) (places R.Point.AXES groups.old) (places R.Point.AXES groups.new) }
    ensures changed { Changes (places R.Point.AXES groups.old) (places R.Point.AXES groups.new) result }
    ensures idle { result ≡ 0 → places R.Point.AXES groups.new ≡ places R.Point.AXES groups.old }
    ensures busy { places R.Point.AXES groups.new ≡ places R.Point.AXES groups.old → result ≡ 0 }
    ensures flat { Flat R.Point.AXES groups.new }
    ensures tallied { Tallied (recorded R.Point R.Record.own recording.now) (places R.Point.AXES groups.old) groups.new }
{
    tally(recording, groups);
    move_centers::<R>(groups)
}
