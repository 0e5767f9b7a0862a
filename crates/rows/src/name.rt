ghost use Rattle.std.specs.Prelude.{◌≡◌, MatchOption, ◌≢◌};
ghost use Rattle.rows.specs.Names.{text_of};
ghost use Rattle.rows.specs.declared.name.Name.{Name};

// The names that a column may have.
#[derive(Clone, Copy, PartialEq)]
pub enum Name {
    Lag,
    Torque,
    Speed,
    Temp,
    Gap,
    Length,
    Hold,
}

impl Name {
    // The name that the bytes spell, if any. No `TryFrom`: there is no fault to tell of bytes that spell none.
    pub fn read(bytes: &[u8]) -> Option<Name>
        ensures { MatchOption result ((n : Name) → bytes.now ≢ text_of n) (λ n. bytes.now ≡ text_of n) }
    {
        match bytes {
            b"lag" => Some(Name::Lag),
            b"torque" => Some(Name::Torque),
            b"speed" => Some(Name::Speed),
            b"temp" => Some(Name::Temp),
            b"gap" => Some(Name::Gap),
            b"length" => Some(Name::Length),
            b"hold" => Some(Name::Hold),
            _ => None,
        }
    }

    // The text that spells the name. No `Display`: it is lent, and not only printed.
    pub fn text(self) -> &'static str
        ensures { result.now ≡ text_of self }
    {
        match self {
            Name::Lag => "lag",
            Name::Torque => "torque",
            Name::Speed => "speed",
            Name::Temp => "temp",
            Name::Gap => "gap",
            Name::Length => "length",
            Name::Hold => "hold",
        }
    }
}
