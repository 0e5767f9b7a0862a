ghost use Rattle.std.specs.Prelude.{◌≡◌, ◌+◌, Decides, OnSome};
ghost use Rattle.reader.specs.Steps.{line_number, next_bytes};
ghost use Rattle.files.specs.Format.{Named};
ghost use Rattle.files.specs.Reads.{HeaderRead};

use reader::cursor::Reader;
use rows::kind::FileKind;
use rows::names::read_names;
use rows::order::Order;

// The order of the columns in the first line, which is the names of the kind, and a reader behind it. None where the file does not
// begin with such a line.
pub(crate) fn read_header(reader: &mut Reader<'_>, kind: FileKind) -> Option<Order>
    ensures header { HeaderRead kind (next_bytes reader.old) (next_bytes reader.new) result }
    ensures line { OnSome result (line_number reader.new ≡ line_number reader.old + 1) }
{
    reader.next_line().ok()?;
    read_names(reader, kind)
}

// Whether the file begins with the line of the kind's names.
pub fn has_names(bytes: &[u8], kind: FileKind) -> bool
    ensures { Decides result (Named kind bytes.now) }
{
    read_header(&mut Reader::new(bytes), kind).is_some()
}
