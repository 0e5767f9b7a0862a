ghost use Rattle.std.specs.Prelude.{◌≡◌, [], ◌∷◌, pos, MatchResult};
ghost use Rattle.value.specs.Ranges.{nearest_in};
ghost use Rattle.value.specs.declared.fault.ValueFault.TheVariants.{OutOfRange};
ghost use Rattle.points.specs.Telegrams.{gap_range, length_range, hold_range, AllWithin};
ghost use Rattle.points.specs.Kinds.{telegram_place, telegram_hold};
ghost use Rattle.std.proofs.Common.{rules};

use crate::point::Point;
use crate::record::Record;
use value::fault::ValueFault;
use value::range::ValueRange;

// A telegram: how long after the one before it, how long it is, and how often it came so.
#[derive(Clone, Copy, Debug, PartialEq, Eq)]
pub struct TelegramRecord {
    gap: i16,
    length: i16,
    hold: u16,
}

impl TelegramRecord {
    // The gaps that a record can have.
    pub const GAP: ValueRange = ValueRange {
        least: 0,
        greatest: 32767,
    };

    // The lengths that a record can have.
    pub const LENGTH: ValueRange = ValueRange {
        least: 0,
        greatest: 1500,
    };

    // The holds that a record can have.
    pub const HOLD: ValueRange = ValueRange {
        least: 1,
        greatest: 65535,
    };

    // The record of these numbers, if each lies in its range.
    pub fn new(gap: i32, length: i32, hold: i32) -> Result<TelegramRecord, ValueFault>
        ensures { MatchResult result (λ t. AllWithin gap length hold × ((telegram_place t ≡ gap ∷ length ∷ []) × (pos (telegram_hold t) ≡ hold))) (λ f. (f ≡ OutOfRange) × (AllWithin gap length hold → ⊥)) }
    {
        let gap = Self::GAP.admit(gap)?;
        let length = Self::LENGTH.admit(length)?;
        let hold = Self::HOLD.admit(hold)?;
        Ok(TelegramRecord {
            gap: gap as i16,
            length: length as i16,
            hold: hold as u16,
        })
    }

    // The record of the numbers of the ranges that are nearest to these.
    pub fn nearest(gap: i32, length: i32, hold: i32) -> TelegramRecord
        ensures place { telegram_place result ≡ nearest_in gap_range gap ∷ nearest_in length_range length ∷ [] }
        ensures hold { pos (telegram_hold result) ≡ nearest_in hold_range hold }
    {
        let gap = Self::GAP.nearest(gap) as i16;
        let length = Self::LENGTH.nearest(length) as i16;
        let hold = Self::HOLD.nearest(hold) as u16;
        TelegramRecord { gap, length, hold }
    }
}

// The numbers are told within their ranges, whatever the fields hold: a kind tells of every value that its type has.
impl Point for TelegramRecord {
    const AXES: usize = 2;

    ghost AXES = { 2 };

    ghost place = { telegram_place };

    ghost few = { Prim.search rules };

    ghost sized = { Prim.search rules };

    ghost ranged = { Prim.search rules };

    fn axis(&self, k: usize) -> i16 {
        match k {
            0 => TelegramRecord::GAP.nearest(self.gap as i32) as i16,
            1 => TelegramRecord::LENGTH.nearest(self.length as i32) as i16,
            _ => 0,
        }
    }
}

impl Record for TelegramRecord {
    ghost hold = { telegram_hold };

    ghost held = { Prim.search rules };

    fn hold(&self) -> u16 {
        TelegramRecord::HOLD.nearest(self.hold as i32) as u16
    }
}
