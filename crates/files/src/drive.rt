ghost use Rattle.std.specs.Prelude.{◌≡◌, List, ℤ};
ghost use Rattle.rows.specs.declared.kind.FileKind.TheVariants.{DriveRecords, DriveCenters};
ghost use Rattle.files.specs.Rows.{drive_fields};

use crate::axis::nearest_axes;
use crate::row::{CenterRow, Row};
use points::drive::DriveRecord;
use points::position::Position;
use rows::kind::FileKind;

impl Row for DriveRecord {
    const KIND: FileKind = FileKind::DriveRecords;

    ghost KIND = { DriveRecords };

    ghost fields = { drive_fields };

    fn from_values(values: &[i32; 4]) -> DriveRecord {
        let [lag, torque, speed, temp] = nearest_axes(values);
        DriveRecord {
            lag,
            torque,
            speed,
            temp,
        }
    }
}

// A center among drive records: it has the place of such a record.
#[derive(Clone, Copy)]
pub struct DriveCenter {
    pub at: DriveRecord,
}

impl Row for DriveCenter {
    const KIND: FileKind = FileKind::DriveCenters;

    ghost KIND = { DriveCenters };

    ghost fields = { λ c. drive_fields c.at };

    fn from_values(values: &[i32; 4]) -> DriveCenter {
        DriveCenter {
            at: <DriveRecord as Row>::from_values(values),
        }
    }
}

impl CenterRow for DriveCenter {
    fn position(&self) -> Position {
        Position {
            at: [self.at.lag, self.at.torque, self.at.speed, self.at.temp],
        }
    }
}
