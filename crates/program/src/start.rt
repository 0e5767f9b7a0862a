ghost use Rattle.std.specs.Prelude.{◌≡◌, ℕ, ◌<◌, ◌≤◌, map, length, take};
ghost use Rattle.points.specs.Entries.{entries};
ghost use Rattle.grouping.specs.Groups.{places};
ghost use Rattle.program.specs.Answers.{GroupedFrom, start_at};

use crate::report::Report;
use direct::group::group;
use files::row::{CenterRow, Row};
use grouping::group::Group;
use points::record::Record;
use points::recording::Recording;

// Puts the centers of the rows into the first groups.
fn start_groups<C: CenterRow>(rows: &[C], groups: &mut [Group])
    requires { length rows.now ≤ length groups.old }
    ensures { (axes : ℕ) → places axes (take (length rows.now) groups.new) ≡ map (start_at axes C.Row.fields) rows.now }
{
    // by number: of groups that a zip lends, a proof learns nothing
    for (k, row) in rows.iter().enumerate() {
        groups[k].center = row.position();
    }
}

// Groups the records around the centers of the rows.
pub(crate) fn group_rows<R: Record, C: CenterRow>(records: &[R], rows: &[C]) -> Report
    requires some { 0 < length records.now }
    requires few { length records.now ≤ 4096 }
    requires centers { length rows.now ≤ 32 }
    ensures { GroupedFrom C.Row.KIND R.Point.AXES (entries R.Point R.Record.own records.now) (map (start_at R.Point.AXES C.Row.fields) rows.now) result }
{
    let count = rows.len();
    let mut groups = [Group::default(); 32];
    start_groups(rows, &mut groups);
    let recording = Recording::check(records).unwrap();
    group(&recording, &mut groups[0..count]);
    Report {
        kind: C::KIND,
        count,
        groups,
    }
}
