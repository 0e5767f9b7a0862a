ghost use Rattle.std.specs.Prelude.{◌≡◌};
ghost use Rattle.rows.specs.Columns.{columns_of, is_centers};

use crate::column::Column;
use crate::name::Name;
use points::telegram::TelegramRecord;
use value::range::ValueRange;

// What a file has a row for: the records of a kind, or the centers that are placed among them.
#[derive(Clone, Copy)]
pub enum FileKind {
    DriveRecords,
    TelegramRecords,
    DriveCenters,
    TelegramCenters,
}

// Every whole number of 16 bits.
pub const FULL: ValueRange = ValueRange {
    least: -32768,
    greatest: 32767,
};

// Each range is written out: the value of a static calls no function.
static DRIVE: [Column; 4] = [
    Column {
        name: Name::Lag,
        range: FULL,
    },
    Column {
        name: Name::Torque,
        range: FULL,
    },
    Column {
        name: Name::Speed,
        range: FULL,
    },
    Column {
        name: Name::Temp,
        range: FULL,
    },
];

static TELEGRAM: [Column; 3] = [
    Column {
        name: Name::Gap,
        range: TelegramRecord::GAP,
    },
    Column {
        name: Name::Length,
        range: TelegramRecord::LENGTH,
    },
    Column {
        name: Name::Hold,
        range: TelegramRecord::HOLD,
    },
];

static TELEGRAM_CENTERS: [Column; 2] = [
    Column {
        name: Name::Gap,
        range: FULL,
    },
    Column {
        name: Name::Length,
        range: FULL,
    },
];

impl FileKind {
    // The columns of such a file, in the order in which a row keeps their values.
    pub fn columns(self) -> &'static [Column]
        ensures { result.now ≡ columns_of self }
    {
        match self {
            FileKind::DriveRecords | FileKind::DriveCenters => &DRIVE,
            FileKind::TelegramRecords => &TELEGRAM,
            FileKind::TelegramCenters => &TELEGRAM_CENTERS,
        }
    }

    // Whether the rows of such a file are centers.
    pub fn is_centers(self) -> bool
        ensures { result ≡ is_centers self }
    {
        matches!(self, FileKind::DriveCenters | FileKind::TelegramCenters)
    }
}
