ghost use Rattle.std.specs.Prelude.{◌≡◌, true, false, length};
ghost use Rattle.program.specs.Tables.{TableFits};
ghost use Rattle.rows.specs.Columns.{is_centers};
ghost use Rattle.rows.specs.declared.kind.FileKind.TheVariants.{DriveRecords, TelegramRecords};
ghost use Rattle.program.specs.Answers.{Answers, KindAnswers, Settles};
ghost use Rattle.program.specs.Inputs.{bytes_of};

use crate::load::load;
use crate::report::Report;
use crate::start::group_rows;
use faults::input_file::InputFile;
use faults::program::ProgramFault;
use files::drive::DriveCenter;
use files::header::has_names;
use files::row::{CenterRow, Row};
use files::telegram::TelegramCenter;
use points::drive::DriveRecord;
use points::record::Record;
use points::telegram::TelegramRecord;
use rows::kind::FileKind;

// The rows of the tables that the files are read into.
const ROWS: usize = 4096;

// The program where the kind of the records is known, over tables for the rows of the two files.
fn run_kind<R: Record + Row, C: CenterRow>(
    recording: Option<&[u8]>,
    centers: Option<&[u8]>,
) -> Result<Report, ProgramFault>
    requires kind { is_centers C.Row.KIND ≡ true }
    requires records { TableFits R.row }
    requires rows { TableFits C.row }
    ensures { KindAnswers R.Point R.Record.own R.Row.KIND C.Row.KIND R.Row.fields C.Row.fields (bytes_of recording.entry) (bytes_of centers.entry) result }
{
    // any rows will do: those that the files do not fill are not looked at
    let mut records = [R::from_values(&[0; 4]); ROWS];
    let mut rows = [C::from_values(&[0; 4]); ROWS];
    let n = load(InputFile::Recording, recording, &mut records)?;
    let m = load(InputFile::Centers, centers, &mut rows)?;
    let records = records.as_slice();
    let rows = rows.as_slice();
    Ok(group_rows(&records[..n], &rows[..m]))
}

// Whether the first line of the recording has the names of drive records.
fn is_drive(recording: Option<&[u8]>) -> bool
    ensures drive { result ≡ true → Settles (bytes_of recording.entry) DriveRecords }
    ensures telegram { result ≡ false → Settles (bytes_of recording.entry) TelegramRecords }
{
    recording.is_some_and(|bytes| has_names(bytes, FileKind::DriveRecords))
}

// Groups the records of the first file around the centers of the second, where a file that cannot be opened is None.
pub fn run(recording: Option<&[u8]>, centers: Option<&[u8]>) -> Result<Report, ProgramFault>
    ensures { Answers (bytes_of recording.entry) (bytes_of centers.entry) result }
{
    if is_drive(recording) {
        run_kind::<DriveRecord, DriveCenter>(recording, centers)
    } else {
        run_kind::<TelegramRecord, TelegramCenter>(recording, centers)
    }
}
