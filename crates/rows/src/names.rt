ghost use Rattle.std.specs.Prelude.{◌≡◌, ℕ, ◌<◌, length, MatchOption, ◌≢◌};
ghost use Rattle.reader.specs.Steps.{fields_left, next_bytes, line_number};
ghost use Rattle.rows.specs.Columns.{column_at, columns_of, width};
ghost use Rattle.rows.specs.Lines.{NameRead, NamesRead};

use crate::kind::FileKind;
use crate::name::Name;
use crate::order::Order;
use reader::cursor::Reader;

// The number of the column of that name, if the kind has one.
fn column_named(kind: FileKind, name: Name) -> Option<usize>
    ensures { MatchOption result ((c : ℕ) → c < width kind → (column_at kind c).name ≢ name) (λ c. (c < width kind) × ((column_at kind c).name ≡ name)) }
{
    kind.columns().iter().position(|column| column.name == name)
}

// The number of the column that the next field names, if it names one.
fn read_name(reader: &mut Reader<'_>, kind: FileKind) -> Option<usize>
    requires { 0 < length (fields_left reader.old) }
    ensures { NameRead kind reader.old reader.new result }
{
    let field = reader.name()?.field();
    column_named(kind, Name::read(field.bytes)?)
}

// The order in which the line of names has the columns of the kind. None where it leaves one out, has one twice or any other field.
pub fn read_names(reader: &mut Reader<'_>, kind: FileKind) -> Option<Order>
    ensures names { NamesRead kind (fields_left reader.old) result }
    ensures rest { next_bytes reader.new ≡ next_bytes reader.old }
    ensures line { line_number reader.new ≡ line_number reader.old }
{
    let n = kind.columns().len();
    if reader.fields_left() != n {
        return None;
    }
    let mut at = [0; 4];
    // By index: the k-th column is looked for among those before it.
    for k in 0..n {
        let column = read_name(reader, kind)?;
        if at[..k].contains(&column) {
            return None;
        }
        at[k] = column;
    }
    Some(Order { kind, at })
}
