// Whole numbers from doubles, worked out by the program: rounding with halves away from zero, and the place of a quantile.
ghost use Rattle.std.specs.Prelude.{◌≡◌, false, T, pos};
ghost use Rattle.std.specs.Float.{fin};
ghost use Rattle.std.specs.Float.Ieee.{lt};
ghost use Rattle.doubles.specs.Doubles.{half_away};
ghost use Rattle.doubles.specs.Quantile.{TargetAsked, target_of};

// x rounded to a whole number, halves away from zero; 0 where x is not above zero. The caller owes x below 2^62.
// The steps are those of roundTiesToAway, IEEE 754-2019, clause 4.3.1, in the words of document 02, §3. The distance is exact: no half is judged after a rounding.
pub fn round_half_away(x: f64) -> u64
    requires { T (lt x (fin false 1 (pos 62))) }
    ensures { result ≡ half_away x }
{
    if x > 0.0 {
        // the two whole numbers that bracket x, and how far x lies from the lower one
        let below = std::num::truncating_f64_to_u64(x);
        let above = below + 1;
        let distance = x - std::num::nearest_u64_to_f64(below);
        // "find the nearest whole number"
        let nearest = if distance > 0.5 { above } else { below };
        // "then treat the tie": both are equally near
        let tie = distance == 0.5;
        // "then take the larger magnitude"
        return if tie { above } else { nearest };
    }
    0
}

// The place of the quantile q among `total` lags: total times q as a double, raised to the next whole number, at least 1.
pub fn quantile_place(total: u64, q: f64) -> u64
    requires { TargetAsked total q }
    ensures { result ≡ target_of total q }
{
    let x = total as f64 * q;
    let t = std::num::truncating_f64_to_u64(x);
    let up = if (t as f64) < x { t + 1 } else { t };
    up.max(1)
}
