ghost use Rattle.std.specs.Prelude.{◌≡◌};
ghost use Rattle.reader.specs.Steps.{line_number};

use crate::cursor::Reader;

impl<'a> Reader<'a> {
    // The number of the current line, 0 before the first.
    pub fn line(&self) -> usize
        ensures { result ≡ line_number self.now }
    {
        self.line
    }
}
