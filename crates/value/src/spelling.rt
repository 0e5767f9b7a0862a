ghost use Rattle.std.specs.Prelude.{◌≡◌, ℕ, ◌≤◌, ℤ, length, MatchOption};
ghost use Rattle.value.specs.Spelling.{ReadExactly, Spells, SpellingUnique, SpellingCovers, Writes};

use crate::fault::ValueFault;

// The longest spelling of a value, in bytes.
const LONGEST: usize = 6;

// The number that a digit 1 to 9 and further digits write, if they write one.
#[tactic(auto, using(crate::proofs::Shapes::some_of, crate::proofs::Shapes::first_of, crate::proofs::Shapes::digit_of))]
fn magnitude(digits: &[u8]) -> Option<u32>
    requires { length digits.now ≤ 6 }
    ensures { MatchOption result ((n : ℕ) → Writes digits.now n → ⊥) (λ n. Writes digits.now n) }
{
    let [b'1'..=b'9', ..] = digits else {
        return None;
    };
    // The library's `parse` takes twice the time: it tests the bytes as text first, and takes any radix.
    digits.iter().try_fold(0, |n, d| match d {
        b'0'..=b'9' => Some(n * 10 + (*d - b'0') as u32),
        _ => None,
    })
}

// The value that the bytes spell, if they spell one.
fn spelled(bytes: &[u8]) -> Option<i32>
    ensures { MatchOption result ((z : ℤ) → Spells bytes.now z → ⊥) (λ z. Spells bytes.now z) }
{
    if bytes.len() > LONGEST {
        return None;
    }
    match bytes {
        b"0" => Some(0),
        [b'-', rest @ ..] => Some(-(magnitude(rest)? as i32)),
        _ => Some(magnitude(bytes)? as i32),
    }
}

// The value that the bytes spell in decimal: no sign but a minus, no leading 0, no minus before 0.
pub fn read_value(bytes: &[u8]) -> Result<i32, ValueFault>
    ensures { ReadExactly bytes.now result }
{
    spelled(bytes).ok_or(ValueFault::NotAValue)
}

// Bytes spell at most one value, a value has at most one spelling, and -99999 to 999999 are the values that have one.
pub fn spelling_laws()
    ensures unique { SpellingUnique }
    ensures covers { SpellingCovers }
{}
