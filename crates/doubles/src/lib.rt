// Samples and milliseconds as doubles, each operation rounded once as IEEE 754 has it (document 01, "Doubles").
#![tactic(auto)]

ghost use Rattle.std.specs.Prelude.{◌≡◌};
ghost use Rattle.doubles.specs.Doubles.{ms_of, samples_of};

// Functions that ask something of their caller; the crates above use them after their checks.
pub mod inner;

// n samples in milliseconds.
pub fn ms(n: u32) -> f64
    ensures { result ≡ ms_of n }
{
    n as f64 * 1000.0 / 48000.0
}

// m milliseconds in samples: rounded to a whole number with halves away from zero, within 0 to 4,294,967,295.
pub fn samples(m: f64) -> u32
    ensures { result ≡ samples_of m }
{
    let x = m * 48000.0 / 1000.0;
    if x > 0.0 {
        if x < 4294967295.0 {
            return inner::round_half_away(x) as u32;
        }
        return 4294967295;
    }
    0
}
