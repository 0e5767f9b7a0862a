ghost use Rattle.std.specs.Prelude.{◌≡◌, pos, ◌≢◌};
ghost use Rattle.grouping.specs.Rounding.{Rounded, rounded};

// The whole number nearest to sum / weight, the lower of two; 0 where there is no weight. No Option: 0 is promised there.
pub fn rounded_mean(sum: i64, weight: u32) -> i64
    ensures mean { (weight ≢ 0) → Rounded sum (pos weight) result }
    ensures is { (weight ≢ 0) → result ≡ rounded sum (pos weight) }
    ensures none { weight ≡ 0 → result ≡ pos 0 }
{
    if weight == 0 {
        return 0;
    }
    let w = weight as i64;
    let low = sum.div_euclid(w);
    let rest = sum.rem_euclid(w);
    if 2 * rest <= w { low } else { low + 1 }
}
