ghost use Rattle.std.specs.Prelude.{◌≡◌, ◌<◌, ◌≤◌, length, MatchResult};
ghost use Rattle.points.specs.Faults.{Refused};

use crate::fault::RecordingFault;
use std::alloc::AllocError;

// The most records that a recording has.
pub const MOST: usize = 4096;

// The records of a recording, of which there are 1 to 4,096.
pub struct Recording<'a, R> {
    records: &'a [R],
    ghost some: { 0 < length records.now },
    ghost few: { length records.now ≤ 4096 },
}

// by hand: derived, they would ask that the records are copied too
impl<'a, R> Copy for Recording<'a, R> {}

impl<'a, R> Clone for Recording<'a, R> {
    ghost is_clone = { λ x y. y ≡ x };

    ghost is_infallible = { λ _. Unit {0} };

    fn clone(&self) -> Result<Recording<'a, R>, AllocError> {
        Ok(*self)
    }
}

impl<'a, R> Recording<'a, R> {
    // The recording of these records, if there is one and there are not too many.
    pub fn check(records: &'a [R]) -> Result<Recording<'a, R>, RecordingFault>
        ensures { MatchResult result (λ t. t.records.now ≡ records.now) (λ f. Refused (length records.now) f) }
    {
        if records.is_empty() {
            return Err(RecordingFault::Empty);
        }
        if records.len() > MOST {
            return Err(RecordingFault::TooLong);
        }
        Ok(Recording { records })
    }

    // The records.
    pub fn records(&self) -> &'a [R]
        ensures { result.now ≡ self.now.records.now }
    {
        self.records
    }
}
