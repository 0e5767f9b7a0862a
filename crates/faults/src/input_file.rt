ghost use Rattle.std.specs.Prelude.{◌≡◌};
ghost use Rattle.faults.specs.InputFiles.{number_of};

// The files that the program reads, by the numbers under which their faults are reported.
#[derive(Clone, Copy, Debug, PartialEq, Eq)]
pub enum InputFile {
    Recording = 1,
    Centers = 2,
}

impl InputFile {
    // The number under which the file is reported.
    pub fn number(self) -> usize
        ensures { result ≡ number_of self }
    {
        self as usize
    }
}
