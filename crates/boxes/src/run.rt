// The records of a run: a part of the order of a table, which has the numbers of some records.
ghost use Rattle.std.specs.Prelude.{◌≡◌, ℕ, ◌+◌, ◌*◌, ◌<◌, ◌≤◌, length, None, pos, ◌*ℤ◌, neg_ℤ, ◌≤ℤ◌, filter};
ghost use Rattle.std.specs.List.{All, AllByRecursion};
ghost use Rattle.points.specs.Entries.{entries};
ghost use Rattle.points.specs.Kinds.{position_place};
ghost use Rattle.grouping.specs.Totals.{total};
ghost use Rattle.grouping.specs.Distance.{number};
ghost use Rattle.boxes.specs.Runs.{entry_at, under, Parted};
ghost use Rattle.boxes.specs.Tells.{measured, Lowest, Highest, TalliesOf, BoundsOf};

use crate::cut::Cut;
use crate::node::{BoxNode, Tallies};
use grouping::distance::squared_distance;
use points::bounds::Bounds;
use points::position::Position;
use points::record::Record;
use std::alloc::AllocError;
use std::array;

// The number on axis a of the record of number i.
fn number_at<R: Record>(records: &[R], i: u16, a: usize) -> i16
    requires { i < length records.now }
    ensures { result ≡ number (entry_at (entries R.Point R.Record.own records.now) i).place a }
{
    records[i as usize].axis(a)
}

// Whether the record of number i lies below the value of the cut.
pub(crate) fn is_below<R: Record>(records: &[R], i: u16, cut: &Cut) -> bool
    requires { i < length records.now }
    ensures { result ≡ under (entries R.Point R.Record.own records.now) cut.now i }
{
    number_at(records, i, cut.axis) < cut.value
}

// Moves the numbers of the records below the value of the cut to the front of the run; how many those are. No method of `Run`, which is read
// and not written.
pub(crate) fn part<R: Record>(run: &mut [u16], records: &[R], cut: &Cut) -> usize
    requires { AllByRecursion (λ n. n < length records.now) run.old }
    ensures { Parted (entries R.Point R.Record.own records.now) cut.now run.old run.new result (length run.old) }
{
    let mut k = 0;
    // by index: each turn may change two places
    for i in 0..run.len() {
        if is_below(records, run[i], cut) {
            run.swap(k, i);
            k += 1;
        }
    }
    k
}

// What is added up over records: one enum, since contracts speak of all of them at once.
#[derive(Clone, Copy)]
pub enum Quantity {
    // How often they are held.
    Weight,
    // Their numbers on an axis.
    Sum(usize),
    // Their squared distances from zero.
    Squares,
}

// The quantity of one record, held once.
fn measure<R: Record>(r: &R, quantity: &Quantity) -> i64
    ensures is { result ≡ measured quantity.now (R.Point.place r.now) }
    ensures low { neg_ℤ (pos (4 * 65535 * 65535)) ≤ℤ result }
    ensures high { result ≤ℤ pos (4 * 65535 * 65535) }
{
    match quantity {
        Quantity::Weight => 1,
        Quantity::Sum(a) => r.axis(*a) as i64,
        Quantity::Squares => squared_distance(r, &Position::default()),
    }
}

// The quantity of one record, as often as it is held.
pub fn amount<R: Record>(r: &R, quantity: &Quantity) -> i64
    ensures is { result ≡ pos (R.Record.hold r.now) *ℤ measured quantity.now (R.Point.place r.now) }
    ensures low { neg_ℤ (pos (65535 * (4 * 65535 * 65535))) ≤ℤ result }
    ensures high { result ≤ℤ pos (65535 * (4 * 65535 * 65535)) }
{
    r.hold() as i64 * measure(r, quantity)
}

// Some of the records of a recording, by their numbers.
pub struct Run<'t, 'a, R> {
    pub records: &'a [R],
    pub numbers: &'t [u16],
    pub ghost known: { All (λ n. n < length records.now) numbers.now },
    pub ghost some: { 0 < length numbers.now },
    pub ghost few: { length numbers.now ≤ 4096 },
}

// by hand: derived, they would ask that the records are copied too
impl<'t, 'a, R> Copy for Run<'t, 'a, R> {}

impl<'t, 'a, R> Clone for Run<'t, 'a, R> {
    ghost is_clone = { λ x y. y ≡ x };

    ghost is_infallible = { λ _. Unit {0} };

    fn clone(&self) -> Result<Run<'t, 'a, R>, AllocError> {
        Ok(*self)
    }
}

impl<'t, 'a, R: Record> Run<'t, 'a, R> {
    ghost use Rattle.boxes.specs.Taken.{entries_in};

    // How many records lie below the value of the cut.
    pub(crate) fn count_below(self, cut: &Cut) -> usize
        ensures { result ≡ length (filter (under (entries R.Point R.Record.own self.entry.records.now) cut.now) self.entry.numbers.now) }
    {
        // a loop: where nothing lies on one side, a filter with its count took up to 3.5 times as long
        let mut n = 0;
        for i in self.numbers {
            if is_below(self.records, *i, cut) {
                n += 1;
            }
        }
        n
    }

    // The quantity of all records.
    fn total_of(self, quantity: &Quantity) -> i64
        ensures { result ≡ total (measured quantity.now) (entries_in R.Point R.Record.own self.entry) }
    {
        // a loop: a chain would be no shorter, and its sum would need bounds of its own
        let mut sum = 0;
        for i in self.numbers {
            sum += amount(&self.records[*i as usize], quantity);
        }
        sum
    }

    // What the records add up to.
    fn tallies(self) -> Tallies
        ensures { TalliesOf (entries_in R.Point R.Record.own self.entry) result }
    {
        Tallies {
            weight: self.total_of(&Quantity::Weight),
            sums: array::from_fn(|a| self.total_of(&Quantity::Sum(a))),
            squares: self.total_of(&Quantity::Squares),
        }
    }

    // The least number of the records on axis a. Beside the greatest: one function that is told which would be no shorter.
    fn least_on(self, a: usize) -> i16
        ensures { Lowest a (entries_in R.Point R.Record.own self.entry) result }
    {
        self.numbers
            .iter()
            .map(|i| number_at(self.records, *i, a))
            .min()
            .unwrap()
    }

    // The greatest number of the records on axis a.
    fn greatest_on(self, a: usize) -> i16
        ensures { Highest a (entries_in R.Point R.Record.own self.entry) result }
    {
        self.numbers
            .iter()
            .map(|i| number_at(self.records, *i, a))
            .max()
            .unwrap()
    }

    // The least number of the records on each axis.
    fn least(self) -> Position
        ensures { (axis : ℕ) → axis < 4 → Lowest axis (entries_in R.Point R.Record.own self.entry) (number (position_place result) axis) }
    {
        Position {
            at: array::from_fn(|a| self.least_on(a)),
        }
    }

    // The greatest number of the records on each axis.
    fn greatest(self) -> Position
        ensures { (axis : ℕ) → axis < 4 → Highest axis (entries_in R.Point R.Record.own self.entry) (number (position_place result) axis) }
    {
        Position {
            at: array::from_fn(|a| self.greatest_on(a)),
        }
    }

    // The bounds of the records.
    fn bounds(self) -> Bounds
        ensures { BoundsOf (entries_in R.Point R.Record.own self.entry) result }
    {
        Bounds {
            least: self.least(),
            greatest: self.greatest(),
        }
    }

    // The uncut box of these records, whose numbers begin in the order at this place.
    pub(crate) fn node(self, from: usize) -> BoxNode
        requires { from ≤ 4096 }
        ensures from { result.from ≡ from }
        ensures to { result.to ≡ from + length self.entry.numbers.now }
        ensures cut { result.cut ≡ None }
        ensures bounds { BoundsOf (entries_in R.Point R.Record.own self.entry) result.bounds }
        ensures tallies { TalliesOf (entries_in R.Point R.Record.own self.entry) result.tallies }
    {
        BoxNode {
            bounds: self.bounds(),
            tallies: self.tallies(),
            from,
            to: from + self.numbers.len(),
            cut: None,
        }
    }
}
