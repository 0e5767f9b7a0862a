ghost use Rattle.std.specs.Prelude.{◌≡◌, ◌<◌, ◌≤◌, Some, MatchOption};
ghost use Rattle.program.specs.Prints.{LineOf, heading_text, line_text};

use crate::report::Report;
use points::point::Point;
use points::position::Position;
use rows::kind::FileKind;
use std::fmt;

// The first line of a report: what its columns are.
#[derive(Clone, Copy)]
pub struct Heading {
    kind: FileKind,
}

// The line of one group.
#[derive(Clone, Copy)]
pub struct GroupLine {
    kind: FileKind,
    number: usize,
    weight: u32,
    center: Position,
}

impl Report {
    // How many groups there are.
    pub fn count(&self) -> usize
        ensures { result ≡ self.now.count }
    {
        self.count
    }

    // The first line.
    pub fn heading(&self) -> Heading
        ensures { result.kind ≡ self.now.kind }
    {
        Heading { kind: self.kind }
    }

    // The line of group k, if there is one.
    pub fn line(&self, k: usize) -> Option<GroupLine>
        ensures { MatchOption result (self.now.count ≤ k) (λ l. (k < self.now.count) × LineOf self.now k l) }
    {
        let group = self.groups[..self.count].get(k)?;
        Some(GroupLine {
            kind: self.kind,
            number: k,
            weight: group.weight,
            center: group.center,
        })
    }
}

impl fmt::Display for Heading {
    ghost output = { λ h. Some (heading_text h.kind) };

    fn fmt<W: fmt::Write>(&self, f: &mut fmt::Formatter<W>) -> fmt::Result {
        match self.kind {
            FileKind::DriveRecords | FileKind::DriveCenters => write!(
                f,
                "group,weight,lag,torque,speed,temp"
            ),
            FileKind::TelegramRecords | FileKind::TelegramCenters => write!(
                f,
                "group,weight,gap,length"
            ),
        }
    }
}

impl fmt::Display for GroupLine {
    ghost output = { λ l. Some (line_text l.kind l.number l.weight l.center) };

    fn fmt<W: fmt::Write>(&self, f: &mut fmt::Formatter<W>) -> fmt::Result {
        let number = self.number;
        let weight = self.weight;
        let a = self.center.axis(0);
        let b = self.center.axis(1);
        match self.kind {
            FileKind::DriveRecords | FileKind::DriveCenters => {
                let c = self.center.axis(2);
                let d = self.center.axis(3);
                write!(f, "{number},{weight},{a},{b},{c},{d}")
            }
            FileKind::TelegramRecords | FileKind::TelegramCenters => write!(
                f,
                "{number},{weight},{a},{b}"
            ),
        }
    }
}
