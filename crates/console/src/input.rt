ghost use Rattle.std.specs.Prelude.{◌≡◌, ℕ, ◌≤◌, length, take, IfSome, IfOk, Some, None, MatchOption};

use std::fs::File;
use std::io::Read;
use std::{fs, io};

// The names of the two files.
pub const RECORDING: &str = "recording.txt";

pub const CENTERS: &str = "centers.txt";

// One byte more than a file may have: a file that fills it is too long.
const BUFFER: usize = 65537;

// A file as it was found: so many bytes of the buffer are its own, as many as fit. None where it cannot be opened or read.
#[derive(Drop)]
pub struct Input {
    buffer: [u8; BUFFER],
    count: Option<usize>,
    ghost long: { length buffer ≡ 65537 },
    ghost fits: { (n : ℕ) → count ≡ Some n → n ≤ 65537 },
}

// Reads until the buffer is full or the file ends, and answers how many bytes came. By hand, since the buffer is fixed: there is no heap.
fn fill(file: &mut File, buffer: &mut [u8]) -> io::Result<usize>
    ensures { IfOk result (λ n. n ≤ length buffer.new) }
{
    let mut n = 0;
    while n < buffer.len() {
        let got = file.read(&mut buffer[n..])?;
        if got == 0 {
            break;
        }
        n += got;
    }
    Ok(n)
}

// How many bytes of the file are in the buffer. None where it cannot be opened or read.
fn read(rt: &HostRuntime, path: &str, buffer: &mut [u8]) -> Option<usize>
    ensures { IfSome result (λ n. n ≤ length buffer.new) }
{
    let mut file = fs::open(rt, path).ok()?;
    fill(&mut file, buffer).ok()
}

impl Input {
    // No file yet.
    pub fn empty() -> Input
        ensures { result.count ≡ None }
    {
        Input {
            buffer: [0; BUFFER],
            count: None,
        }
    }

    // Becomes the file of that name, read in place: a buffer that is handed back would lie on the stack once more.
    pub fn read(&mut self, rt: &HostRuntime, path: &str)
        ensures { IfSome self.new.count (λ n. n ≤ 65537) }
    {
        self.count = read(rt, path, &mut self.buffer);
    }

    // The file of that name.
    pub fn load(rt: &HostRuntime, path: &str) -> Input {
        let mut input = Input::empty();
        input.read(rt, path);
        input
    }

    // The bytes of the file.
    pub fn bytes(&self) -> Option<&[u8]>
        ensures { MatchOption result (self.now.count ≡ None) (λ bytes. MatchOption self.now.count ⊥ (λ n. bytes.now ≡ take n self.now.buffer)) }
    {
        self.count.map(|n| &self.buffer[..n])
    }
}
