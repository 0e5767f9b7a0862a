ghost use Rattle.points.specs.Kinds.{drive_place};
ghost use Rattle.points.specs.Told.{told_ranged};
ghost use Rattle.std.proofs.Common.{rules};

use crate::point::Point;
use crate::record::Record;

// What a drive tells of one moment.
#[derive(Clone, Copy, Debug, PartialEq, Eq)]
pub struct DriveRecord {
    pub lag: i16,
    pub torque: i16,
    pub speed: i16,
    pub temp: i16,
}

impl Point for DriveRecord {
    const AXES: usize = 4;

    ghost AXES = { 4 };

    ghost place = { drive_place };

    ghost few = { Prim.search rules };

    ghost sized = { Prim.search rules };

    ghost ranged = { λ d k. told_ranged d.lag d.torque d.speed d.temp k };

    fn axis(&self, k: usize) -> i16 {
        match k {
            0 => self.lag,
            1 => self.torque,
            2 => self.speed,
            3 => self.temp,
            _ => 0,
        }
    }
}

impl Record for DriveRecord {
    ghost hold = { λ _. 1 };

    ghost held = { Prim.search rules };

    fn hold(&self) -> u16 {
        1
    }
}
