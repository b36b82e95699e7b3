// A double and its bits, also where it is no number: every such pattern reads as the one NaN, which is written 7ff8000000000000.
ghost use Rattle.std.specs.Prelude.{◌≡◌};
ghost use Rattle.std.specs.Float.{binary64};
ghost use Rattle.std.specs.Float.Ieee.{nan_bits, of_bits, to_bits};

// Are these the bits of a NaN: all ones in the exponent's field, and digits that are not 0? `from_bits` asks this of its callers, and std has no
// test of it.
fn is_nan(bits: u64) -> bool
    ensures { result ≡ nan_bits binary64 bits }
{
    bits % 9223372036854775808 / 4503599627370496 == 2047 && bits % 4503599627370496 != 0
}

// The double of these bits.
pub fn double(bits: u64) -> f64
    ensures { result ≡ of_bits binary64 bits }
{
    if is_nan(bits) {
        return f64::NAN;
    }
    f64::from_bits(bits)
}

// The bits of this double.
pub fn bits_of(x: f64) -> u64
    ensures { result ≡ to_bits binary64 x }
{
    if x.is_nan() {
        return 0x7ff8_0000_0000_0000;
    }
    x.to_bits()
}
