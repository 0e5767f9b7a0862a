ghost use Rattle.std.specs.Prelude.{◌≡◌};
ghost use Rattle.faults.specs.RowFaults.{number_of, layer_of, column_of, value_at};

use value::fault::{Layer, ValueFault};
use value::placed::Placed;

// What can be wrong with one line of values.
#[derive(Clone, Copy)]
pub enum RowFault {
    // The line has no end.
    Unended,
    // The line has not as many values as the file has columns.
    Count,
    // A value is wrong.
    Value { column: usize, fault: ValueFault },
}

impl From<Placed<usize, ValueFault>> for RowFault {
    ghost from_gives = { λ e r. r ≡ value_at e };

    fn from(e: Placed<usize, ValueFault>) -> RowFault {
        RowFault::Value {
            column: e.place,
            fault: e.fault,
        }
    }
}

impl RowFault {
    // The number under which the fault is reported. No trait over the faults: each would write its own body.
    pub fn number(&self) -> u32
        ensures { result ≡ number_of self.now }
    {
        // No discriminants: a variant that keeps the fault below has the number of that.
        match self {
            RowFault::Unended => 25,
            RowFault::Count => 22,
            RowFault::Value { fault, .. } => fault.number(),
        }
    }

    // The layer that found the fault.
    pub fn layer(&self) -> Layer
        ensures { result ≡ layer_of self.now }
    {
        match self {
            RowFault::Value { .. } => Layer::Value,
            _ => Layer::Row,
        }
    }

    // The column of the fault, 0 where it is of the whole line.
    pub fn column(&self) -> usize
        ensures { result ≡ column_of self.now }
    {
        match self {
            RowFault::Value { column, .. } => *column,
            _ => 0,
        }
    }
}
