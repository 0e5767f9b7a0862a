ghost use Rattle.std.specs.Prelude.{◌≡◌, [], Decides};
ghost use Rattle.reader.specs.Steps.{LineStep, next_bytes, fields_left, line_number, column_number};

use crate::cursor::Reader;
use crate::scan::cut_once;

// Why no line with its end comes next: bytes without a line end are left, or nothing is.
#[derive(Clone, Copy, Debug, PartialEq, Eq)]
pub enum NoLine {
    Unended,
    Missing,
}

impl<'a> Reader<'a> {
    // Before the first line of `file`.
    pub fn new(file: &'a [u8]) -> Reader<'a>
        ensures bytes { next_bytes result ≡ file.now }
        ensures fields { fields_left result ≡ [] }
        ensures line { line_number result ≡ 0 }
        ensures column { column_number result ≡ 0 }
    {
        Reader {
            rest: file,
            text: None,
            line: 0,
            column: 0,
        }
    }

    // Whether nothing stands after the current line.
    pub fn at_end(&self) -> bool
        ensures { Decides result (next_bytes self.now ≡ []) }
    {
        self.rest.is_empty()
    }

    // Steps to the next line, past the fields of this one that are left. Where no line with its end is left, stays.
    pub fn next_line(&mut self) -> Result<(), NoLine>
        ensures { LineStep self.old result self.new }
    {
        if self.at_end() {
            return Err(NoLine::Missing);
        }
        let (text, rest) = cut_once(self.rest, b'\n').ok_or(NoLine::Unended)?;
        self.text = Some(text);
        self.rest = rest;
        self.line += 1;
        self.column = 0;
        Ok(())
    }
}
