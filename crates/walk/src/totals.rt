// Adding up what centers get. Sums wrap round at 64 bits: what a recording adds up to never does, and the contract of a whole walk says
// so; until then the numbers may be anything.
ghost use Rattle.std.specs.Prelude.{◌≡◌, length, pos, ◌+ℤ◌, ◌*ℤ◌};
ghost use Rattle.std.specs.Int.{int_wrap, w64};
ghost use Rattle.boxes.specs.declared.run.Quantity.{Quantity};
ghost use Rattle.boxes.specs.Tells.{measured};
ghost use Rattle.walk.specs.Told.{told, Tells};

use boxes::node::Tallies;
use boxes::run::{Quantity as Measure, amount};
use points::record::Record;
use std::array;

// The sum of two tallies.
pub(crate) fn plus(a: &Tallies, b: &Tallies) -> Tallies
    ensures sum { (q : Quantity) → Tells q → told q result ≡ int_wrap w64 (told q a.now +ℤ told q b.now) }
    ensures fits { (q : Quantity) → told q result ≡ int_wrap w64 (told q result) }
    ensures long { length result.sums ≡ 4 }
{
    Tallies {
        weight: a.weight.wrapping_add(b.weight),
        sums: array::from_fn(|i| a.sums[i].wrapping_add(b.sums[i])),
        squares: a.squares.wrapping_add(b.squares),
    }
}

// The tallies of one record. Beside those of a run: one function of both would be public, and would ask that a closure may be called.
pub(crate) fn of_record<R: Record>(r: &R) -> Tallies
    ensures { (q : Quantity) → Tells q → told q result ≡ pos (R.Record.hold r.now) *ℤ measured q (R.Point.place r.now) }
{
    Tallies {
        weight: amount(r, &Measure::Weight),
        sums: array::from_fn(|a| amount(r, &Measure::Sum(a))),
        squares: amount(r, &Measure::Squares),
    }
}
