ghost use Rattle.std.specs.Prelude.{◌≡◌, Some};
ghost use Rattle.faults.specs.ProgramFaults.{fault_text, file_at, report_of, unread};

use crate::file::FileFault;
use std::fmt;
use value::fault::Layer;
use value::placed::Placed;

// What can be wrong with the files of the program, each by its number. A number, and no `InputFile`: a caller may number files of its own.
#[derive(Clone, Copy)]
pub enum ProgramFault {
    // The file cannot be opened, or not be read to its end.
    CannotOpen { file: usize },
    // The file is longer than 65,536 bytes.
    TooLong { file: usize },
    // The file is wrong.
    File { file: usize, fault: FileFault },
}

impl From<Placed<usize, FileFault>> for ProgramFault {
    ghost from_gives = { λ e r. r ≡ file_at e };

    fn from(e: Placed<usize, FileFault>) -> ProgramFault {
        ProgramFault::File {
            file: e.place,
            fault: e.fault,
        }
    }
}

// All that is told of a fault. A line or a column of 0 stands for the whole, as it is printed.
#[derive(Clone, Copy)]
pub struct FaultReport {
    pub number: u32,
    pub layer: Layer,
    pub file: usize,
    pub line: usize,
    pub column: usize,
}

impl FaultReport {
    // What is told of a file that is not read, under this number.
    fn unread(number: u32, file: usize) -> FaultReport
        ensures { result ≡ unread number file }
    {
        FaultReport {
            number,
            layer: Layer::Program,
            file,
            line: 0,
            column: 0,
        }
    }
}

impl ProgramFault {
    // What is told of the fault.
    pub fn report(&self) -> FaultReport
        ensures { result ≡ report_of self.now }
    {
        match self {
            ProgramFault::CannotOpen { file } => FaultReport::unread(27, *file),
            ProgramFault::TooLong { file } => FaultReport::unread(26, *file),
            ProgramFault::File { file, fault } => FaultReport {
                number: fault.number(),
                layer: fault.layer(),
                file: *file,
                line: fault.line(),
                column: fault.column(),
            },
        }
    }
}

impl fmt::Display for FaultReport {
    ghost output = { λ r. Some (fault_text r) };

    fn fmt<W: fmt::Write>(&self, f: &mut fmt::Formatter<W>) -> fmt::Result {
        write!(
            f,
            "{},{},{},{}",
            self.number, self.file, self.line, self.column
        )
    }
}
