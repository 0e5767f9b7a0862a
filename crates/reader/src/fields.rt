ghost use Rattle.std.specs.Prelude.{◌≡◌, ◌∷◌, ◌<◌, length, IfSome};
ghost use Rattle.reader.specs.Fields.{FieldsExactly, fields_of};
ghost use Rattle.reader.specs.Steps.{FieldLent, NameLent, ValueLent, fields_in, fields_left};

use crate::cursor::Reader;
use crate::scan::cut_once;
use crate::token::{Field, Token};

// How many fields a text has: one more than its commas.
#[tactic(auto, using(crate::proofs::Splits::fields_count))]
fn count_fields(text: &[u8]) -> usize
    ensures { result ≡ length (fields_of text.now) }
{
    text.iter().filter(|b| **b == b',').count() + 1
}

// The first field of a text, and the text behind its comma, if it has one.
#[tactic(auto, using(crate::proofs::Splits::fields_cut, crate::proofs::Splits::fields_last))]
fn cut_field(text: &[u8]) -> (&[u8], Option<&[u8]>)
    ensures fields { fields_of text.now ≡ result.0.now ∷ fields_in result.1 }
    ensures shorter { IfSome result.1 (λ rest. length rest.now < length text.now) }
{
    match cut_once(text, b',') {
        Some((field, rest)) => (field, Some(rest)),
        None => (text, None),
    }
}

impl<'a> Reader<'a> {
    // How many fields of the current line are left.
    pub fn fields_left(&self) -> usize
        ensures { result ≡ length (fields_left self.now) }
    {
        self.text.map_or(0, count_fields)
    }

    // Steps past the next field of the current line, and lends it. None where no field is left.
    pub fn field(&mut self) -> Option<Field<'a>>
        ensures { FieldLent self.old result self.new }
    {
        let (bytes, rest) = cut_field(self.text?);
        self.text = rest;
        self.column += 1;
        Some(Field {
            bytes,
            line: self.line,
            column: self.column,
        })
    }

    // Lends the next field of the current line as a name. None where no field is left. Beside `value`: what a field is read as is said by
    // which of the two is asked.
    pub fn name(&mut self) -> Option<Token<'a>>
        ensures { NameLent self.old result self.new }
    {
        self.field().map(Token::Name)
    }

    // Lends the next field of the current line as a value. None where no field is left.
    pub fn value(&mut self) -> Option<Token<'a>>
        ensures { ValueLent self.old result self.new }
    {
        self.field().map(Token::Value)
    }
}

// A text is its fields with commas between them, and has no other fields.
#[tactic(auto, using(crate::proofs::Splits::fields_exactly))]
pub fn field_laws()
    ensures { FieldsExactly }
{}
