ghost use Rattle.std.specs.Prelude.{◌≡◌, List, ℤ};
ghost use Rattle.points.specs.Kinds.{position_place};
ghost use Rattle.rows.specs.Columns.{columns_of};
ghost use Rattle.rows.specs.declared.kind.FileKind.{FileKind};
ghost use Rattle.files.specs.Rows.{nearests, padded};

use points::position::Position;
use rows::kind::FileKind;

// What a file has in its lines: `fields` are its values, in the kind's own order of the columns.
pub trait Row: Copy {
    // The kind of the files that have such rows.
    const KIND: FileKind;

    ghost KIND: { FileKind };

    ghost fields: { Self → List ℤ };

    // The row of these values, one for each column; a value outside its column's range is taken as the nearest in it.
    fn from_values(values: &[i32; 4]) -> Self
        ensures { fields result ≡ nearests (columns_of KIND) values.now };
}

// A row of a file of centers.
pub trait CenterRow: Row {
    // The position of the center: 0 on each axis that the kind has not.
    fn position(&self) -> Position
        ensures { position_place result ≡ padded (Self.Row.fields self.now) };
}
