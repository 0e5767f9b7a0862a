ghost use Rattle.std.specs.Prelude.{◌≡◌, ℕ, ◌+◌, ◌<◌, ◌≤◌, length, Some};
ghost use Rattle.reader.specs.Steps.{line_number, next_bytes};
ghost use Rattle.rows.specs.Lines.{columns_in};
ghost use Rattle.files.specs.Reads.{FileRead, NoOther, RoomLeft, RowsRead};
ghost use Rattle.files.specs.Format.{AcceptedExactly, OneOutcome, most, when_ended};

use crate::lines::Lines;
use crate::row::Row;
use faults::file::FileFault;
use value::placed::place_at;

// The most centers that a file may have.
const MOST_CENTERS: usize = 32;

// Whether the table takes one more row after n, which the file has in this line: of centers there are at most 32.
fn check_room<R: Row>(table: &[R], n: usize, line: usize) -> Result<(), FileFault>
    requires within { n ≤ most R.KIND (length table.now) }
    requires number { line ≡ n + 2 }
    ensures { RoomLeft R.KIND n (length table.now) result }
{
    if R::KIND.is_centers() && n == MOST_CENTERS {
        return Err(FileFault::TooManyCenters { line });
    }
    if n == table.len() {
        return Err(FileFault::TooManyRows { line });
    }
    Ok(())
}

// Writes the rows that are left in the file to the front of the table, and answers how many there are.
fn read_rows<R: Row>(mut lines: Lines<'_, R>, table: &mut [R]) -> Result<usize, FileFault>
    requires { line_number lines.reader ≡ 1 }
    ensures { RowsRead R.KIND R.fields (columns_in lines.entry.order) (next_bytes lines.entry.reader) table.old table.new result }
{
    let mut n = 0;
    // No `for`: whether there is room for a row is told before its line is read.
    while !lines.reader.at_end() {
        let line = lines.reader.line() + 1;
        check_room(table, n, line)?;
        table[n] = place_at(lines.read_row(), line)?;
        n += 1;
    }
    Ok(n)
}

// What is said of a file that has no row.
fn no_row<R: Row>() -> FileFault
    ensures { Some result ≡ when_ended R.KIND 0 }
{
    if R::KIND.is_centers() {
        FileFault::NoCenter
    } else {
        FileFault::NoRecord
    }
}

// Reads the names, then the rows.
fn read_parts<R: Row>(bytes: &[u8], table: &mut [R]) -> Result<usize, FileFault>
    ensures { FileRead R.KIND R.fields bytes.now table.old table.new result }
{
    let lines = Lines::<R>::new(bytes).ok_or(FileFault::Names)?;
    let n = read_rows(lines, table)?;
    if n == 0 {
        return Err(no_row::<R>());
    }
    Ok(n)
}

// Reads a file into the table, row by row from the front, and answers how many rows it has. A file that is written by the format, within
// the limits, is accepted with the rows that it spells. Any other is refused with its first fault: then the rows before the fault are
// written. The rows of the table behind those that are written stay as they were.
pub fn read_table<R: Row>(bytes: &[u8], table: &mut [R]) -> Result<usize, FileFault>
    ensures read { FileRead R.KIND R.fields bytes.now table.old table.new result }
    ensures only { NoOther R.KIND R.fields bytes.now table.old table.new result }
{
    read_parts(bytes, table)
}

// A file has one outcome, and is accepted just where it is written by the format within the limits.
pub fn file_laws()
    ensures one { OneOutcome }
    ensures accepted { AcceptedExactly }
{}
