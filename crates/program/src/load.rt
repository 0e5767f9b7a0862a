ghost use Rattle.faults.specs.InputFiles.{number_of};
ghost use Rattle.program.specs.Inputs.{Loaded, bytes_of, Admitted};

use faults::input_file::InputFile;
use faults::program::ProgramFault;
use files::row::Row;
use files::table::read_table;
use value::placed::place_at;

// The most bytes that a file may have.
pub(crate) const LONGEST: usize = 65536;

// The bytes of a file, if it could be opened and is not too long.
fn admit<'a>(file: InputFile, input: Option<&'a [u8]>) -> Result<&'a [u8], ProgramFault>
    ensures { Admitted (number_of file) (bytes_of input.entry) result }
{
    let bytes = input.ok_or(ProgramFault::CannotOpen {
        file: file.number(),
    })?;
    if bytes.len() > LONGEST {
        return Err(ProgramFault::TooLong {
            file: file.number(),
        });
    }
    Ok(bytes)
}

// Reads a file of the program into the table, and answers how many rows it has.
pub(crate) fn load<R: Row>(
    file: InputFile,
    input: Option<&[u8]>,
    table: &mut [R],
) -> Result<usize, ProgramFault>
    ensures { Loaded (number_of file) R.KIND R.fields (bytes_of input.entry) table.old table.new result }
{
    let bytes = admit(file, input)?;
    Ok(place_at(read_table(bytes, table), file.number())?)
}
