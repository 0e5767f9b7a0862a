ghost use Rattle.std.specs.Prelude.{◌≡◌, List, ℤ};
ghost use Rattle.rows.specs.declared.kind.FileKind.TheVariants.{TelegramRecords, TelegramCenters};
ghost use Rattle.files.specs.Rows.{telegram_fields, telegram_center_fields};

use crate::axis::nearest_axes;
use crate::row::{CenterRow, Row};
use points::position::Position;
use points::telegram::TelegramRecord;
use rows::kind::FileKind;

impl Row for TelegramRecord {
    const KIND: FileKind = FileKind::TelegramRecords;

    ghost KIND = { TelegramRecords };

    ghost fields = { telegram_fields };

    fn from_values(values: &[i32; 4]) -> TelegramRecord {
        let [gap, length, hold, _] = *values;
        TelegramRecord::nearest(gap, length, hold)
    }
}

// A center among telegram records.
#[derive(Clone, Copy)]
pub struct TelegramCenter {
    pub gap: i16,
    pub length: i16,
}

impl Row for TelegramCenter {
    const KIND: FileKind = FileKind::TelegramCenters;

    ghost KIND = { TelegramCenters };

    ghost fields = { telegram_center_fields };

    fn from_values(values: &[i32; 4]) -> TelegramCenter {
        let [gap, length, ..] = nearest_axes(values);
        TelegramCenter { gap, length }
    }
}

impl CenterRow for TelegramCenter {
    fn position(&self) -> Position {
        Position {
            at: [self.gap, self.length, 0, 0],
        }
    }
}
