ghost use Rattle.std.specs.Prelude.{◌≡◌, ◌+◌, ◌*◌, ◌<◌, ◌≤◌, ℤ, pos, ◌*ℤ◌, neg_ℤ, ◌≤ℤ◌};
ghost use Rattle.points.specs.Entries.{recorded};
ghost use Rattle.grouping.specs.Distance.{number};
ghost use Rattle.grouping.specs.Groups.{centers, places, Tallied};
ghost use Rattle.direct.specs.Additions.{Clear, Room, Added};

use grouping::group::Group;
use grouping::nearest::nearest;
use points::record::Record;
use points::recording::Recording;
use std::array;

// How much a record adds to a sum: its number on axis a as often as it is held.
fn moment<R: Record>(r: &R, a: usize) -> i64
    ensures is { result ≡ pos (R.Record.hold r.now) *ℤ number (R.Point.place r.now) a }
    ensures low { neg_ℤ (pos (65535 * 32768)) ≤ℤ result }
    ensures high { result ≤ℤ pos (65535 * 32768) }
{
    r.hold() as i64 * r.axis(a) as i64
}

// The group with one record more.
fn with_record<R: Record>(group: &Group, r: &R) -> Group
    requires { Room group.now }
    ensures { Added group.now (R.Point.place r.now) (R.Record.hold r.now) result }
{
    Group {
        weight: group.weight + r.hold() as u32,
        sums: array::from_fn(|a| group.sums[a] + moment(r, a)),
        ..*group
    }
}

// Takes the records out of the groups.
fn clear(groups: &mut [Group])
    ensures clear { Clear groups.new }
    ensures centers { centers groups.new ≡ centers groups.old }
{
    for group in groups {
        group.weight = 0;
        group.sums = [0; 4];
    }
}

// Puts every record into the group of its nearest center.
fn assign<R: Record>(recording: &Recording<R>, groups: &mut [Group])
    requires { Clear groups.old }
    ensures tallied { Tallied (recorded R.Point R.Record.own recording.now) (places R.Point.AXES groups.old) groups.new }
    ensures centers { centers groups.new ≡ centers groups.old }
{
    for r in recording.records() {
        if let Some(k) = nearest(r, groups) {
            groups[k] = with_record(&groups[k], r);
        }
    }
}

// Every group's weight and sums become those of the records that its center is the nearest of.
// Two parameters, here and in the other functions of this crate: the recording is read, the groups are written, and no fact ties them.
pub fn tally<R: Record>(recording: &Recording<R>, groups: &mut [Group])
    ensures tallied { Tallied (recorded R.Point R.Record.own recording.now) (places R.Point.AXES groups.old) groups.new }
    ensures centers { centers groups.new ≡ centers groups.old }
{
    clear(groups);
    assign(recording, groups);
}
