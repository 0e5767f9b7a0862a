ghost use Rattle.std.specs.Prelude.{◌+◌, ◌^◌, ◌<◌, length, IfSome};
ghost use Rattle.std.proofs.Props.{props};

// A place in a file: what is left of the current line, and what comes after it.
#[derive(Clone, Copy)]
pub struct Reader<'a> {
    // The file after the current line.
    pub(crate) rest: &'a [u8],
    // The current line from the first field on that is not lent yet. None where all are lent: an empty text is one empty field.
    pub(crate) text: Option<&'a [u8]>,
    // The number of the current line, 0 before the first.
    pub(crate) line: usize,
    // How many fields of the current line were lent.
    pub(crate) column: usize,
    // Each line has a byte of its own, its end, so the lines can be counted.
    ghost lines: { line + length rest.now < 2 ^ 64 },
    // Each field but the last has a byte of its own, its comma, so the fields can be counted.
    ghost columns: { IfSome text (λ t. column + length t.now + 1 < 2 ^ 64) } by { Prim.hlevel props },
}
