ghost use Rattle.std.specs.Prelude.{◌≡◌};
ghost use Rattle.reader.specs.Steps.{field_of};

// A part of the file, with its place: the line, and its number among the parts of that line, both from 1.
#[derive(Clone, Copy)]
pub struct Field<'a> {
    pub bytes: &'a [u8],
    pub line: usize,
    pub column: usize,
}

// A field as what the format takes it for: a name in the first line, a value in the others.
#[derive(Clone, Copy)]
pub enum Token<'a> {
    Name(Field<'a>),
    Value(Field<'a>),
}

impl<'a> Token<'a> {
    // The field, whatever it is taken for.
    pub fn field(self) -> Field<'a>
        ensures { result ≡ field_of self.entry }
    {
        match self {
            Token::Name(field) | Token::Value(field) => field,
        }
    }
}
