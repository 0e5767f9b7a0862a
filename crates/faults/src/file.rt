ghost use Rattle.std.specs.Prelude.{◌≡◌};
ghost use Rattle.faults.specs.FileFaults.{column_of, layer_of, line_of, number_of, row_at};

use crate::row::RowFault;
use value::fault::Layer;
use value::placed::Placed;

// What can be wrong with a file of records or of centers.
#[derive(Clone, Copy)]
pub enum FileFault {
    // The first line is not the names of the kind.
    Names,
    // A line of values is wrong.
    Row { line: usize, fault: RowFault },
    // The table is full and another row follows, in this line.
    TooManyRows { line: usize },
    // There are 32 centers and another follows, in this line.
    TooManyCenters { line: usize },
    // The file has no record.
    NoRecord,
    // The file has no center.
    NoCenter,
}

impl From<Placed<usize, RowFault>> for FileFault {
    ghost from_gives = { λ e r. r ≡ row_at e };

    fn from(e: Placed<usize, RowFault>) -> FileFault {
        FileFault::Row {
            line: e.place,
            fault: e.fault,
        }
    }
}

impl FileFault {
    // The number under which the fault is reported. No trait over the faults: each would write its own body.
    pub fn number(&self) -> u32
        ensures { result ≡ number_of self.now }
    {
        // No discriminants: a variant that keeps the fault below has the number of that.
        match self {
            FileFault::Names => 21,
            FileFault::Row { fault, .. } => fault.number(),
            FileFault::TooManyRows { .. } => 2,
            FileFault::TooManyCenters { .. } => 3,
            FileFault::NoRecord => 1,
            FileFault::NoCenter => 11,
        }
    }

    // The layer that found the fault.
    pub fn layer(&self) -> Layer
        ensures { result ≡ layer_of self.now }
    {
        match self {
            FileFault::Row { fault, .. } => fault.layer(),
            _ => Layer::File,
        }
    }

    // The line of the fault, 0 where it is of the whole file.
    pub fn line(&self) -> usize
        ensures { result ≡ line_of self.now }
    {
        match self {
            FileFault::Names => 1,
            FileFault::Row { line, .. }
            | FileFault::TooManyRows { line }
            | FileFault::TooManyCenters { line } => *line,
            FileFault::NoRecord | FileFault::NoCenter => 0,
        }
    }

    // The column of the fault, 0 where it is of a whole line or of the whole file.
    pub fn column(&self) -> usize
        ensures { result ≡ column_of self.now }
    {
        match self {
            FileFault::Row { fault, .. } => fault.column(),
            _ => 0,
        }
    }
}
