ghost use Rattle.std.specs.Prelude.{◌≡◌};
ghost use Rattle.reader.specs.Steps.{column_number, fields_left, next_bytes, line_number};
ghost use Rattle.rows.specs.Lines.{ValuesRead, columns_in};

use crate::order::Order;
use faults::row::RowFault;
use reader::cursor::Reader;

impl Order {
    // The columns in the order of the fields.
    fn columns(&self) -> &[usize]
        ensures { result.now ≡ columns_in self.now }
    {
        &self.at[..self.kind.columns().len()]
    }
}

// The values of a line, column by column: the number of its fields is tested first, then they are read from the left. The order is not the
// reader's: it serves every line, and stays as it is.
pub fn read_values(reader: &mut Reader<'_>, order: &Order) -> Result<[i32; 4], RowFault>
    ensures values { ValuesRead order.now.kind (columns_in order.now) (column_number reader.old) (fields_left reader.old) result }
    ensures rest { next_bytes reader.new ≡ next_bytes reader.old }
    ensures line { line_number reader.new ≡ line_number reader.old }
{
    let columns = order.kind.columns();
    if reader.fields_left() != columns.len() {
        return Err(RowFault::Count);
    }
    let mut values = [0; 4];
    for c in order.columns() {
        let field = reader.value().unwrap().field();
        values[*c] = columns[*c].read_at(field)?;
    }
    Ok(values)
}
