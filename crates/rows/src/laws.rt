ghost use Rattle.rows.specs.Lines.{RightLinesPass, OneFirstFault, OneRow, OneOrder};

// A line that writes a row has no fault, a line has one first fault and writes one row, and a line of names gives one order.
pub fn line_laws()
    ensures right { RightLinesPass }
    ensures first { OneFirstFault }
    ensures rows { OneRow }
    ensures names { OneOrder }
{}
