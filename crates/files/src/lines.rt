ghost use Rattle.std.specs.Prelude.{◌≡◌, ◌+◌, ◌++◌, MatchOption, OnOk};
ghost use Rattle.reader.specs.Steps.{line_number, next_bytes};
ghost use Rattle.rows.specs.Lines.{columns_in, names_in};
ghost use Rattle.files.specs.Format.{Unnamed, line_of};
ghost use Rattle.files.specs.Reads.{LineRead};

use crate::header::read_header;
use crate::row::Row;
use faults::row::RowFault;
use reader::cursor::Reader;
use rows::order::Order;
use rows::values::read_values;
use std::marker::PhantomData;

// The lines behind the names of a file that has such rows.
#[derive(Drop)]
pub(crate) struct Lines<'a, R: Row> {
    // Behind the fields of the line that was read last.
    pub(crate) reader: Reader<'a>,
    // In which order the lines have the columns.
    order: Order,
    // What a line is read as.
    row: PhantomData<R>,
    // The names in front were those of the kind of these rows.
    ghost own: { order.kind ≡ R.KIND },
}

impl<'a, R: Row> Lines<'a, R> {
    // The lines behind the names at the front of the file. None where it does not begin with the names of the kind.
    pub(crate) fn new(bytes: &'a [u8]) -> Option<Lines<'a, R>>
        ensures { MatchOption result (Unnamed R.KIND bytes.now) (λ lines. (bytes.now ≡ line_of (names_in R.KIND (columns_in lines.order)) ++ next_bytes lines.reader) × (line_number lines.reader ≡ 1)) }
    {
        let mut reader = Reader::new(bytes);
        let order = read_header(&mut reader, R::KIND)?;
        Some(Lines {
            reader,
            order,
            row: PhantomData,
        })
    }

    // The row of the next line.
    pub(crate) fn read_row(&mut self) -> Result<R, RowFault>
        ensures row { LineRead R.KIND R.fields (columns_in self.old.order) (next_bytes self.old.reader) (next_bytes self.new.reader) result }
        ensures line { OnOk result (line_number self.new.reader ≡ line_number self.old.reader + 1) }
        ensures order { self.new.order ≡ self.old.order }
    {
        self.reader.next_line().map_err(|_| RowFault::Unended)?;
        Ok(R::from_values(&read_values(&mut self.reader, &self.order)?))
    }
}
