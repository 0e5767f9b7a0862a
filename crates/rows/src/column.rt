ghost use Rattle.rows.specs.Cells.{CellRead, CellReadAt};

use crate::name::Name;
use faults::row::RowFault;
use reader::token::Field;
use value::fault::ValueFault;
use value::placed::place_at;
use value::range::ValueRange;
use value::spelling::read_value;

// A column of a file: its name, and the range of its values.
#[derive(Clone, Copy)]
pub struct Column {
    pub name: Name,
    pub range: ValueRange,
}

impl Column {
    // The value that a field spells, where it lies in the column's range.
    pub fn read(&self, field: &[u8]) -> Result<i32, ValueFault>
        ensures { CellRead self.now.range field.now result }
    {
        self.range.admit(read_value(field)?)
    }

    // The same, where a fault has the place of the field in its line.
    pub(crate) fn read_at(&self, field: Field<'_>) -> Result<i32, RowFault>
        ensures { CellReadAt self.now.range field.entry.bytes.now field.entry.column result }
    {
        Ok(place_at(self.read(field.bytes), field.column)?)
    }
}
