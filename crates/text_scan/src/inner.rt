// Numbers: for the crates above, which name a base.
ghost use Rattle.std.specs.Prelude.{◌≡◌, ◌≤◌, IfSome};
ghost use Rattle.text_scan.specs.Scan.{closed, number_from};

use crate::{Word, digit};

// A number with at least one digit.
#[tactic(auto, unfolding(crate::specs::Scan::closed))]
fn close(from: usize, value: u128, to: usize) -> Option<Word<u128>>
    ensures { result ≡ closed from value to }
{
    (from < to).then_some(Word { value, next: to })
}

// A number of at most 64 bits: in 128 each of its digits takes half as long again.
#[tactic(auto, unfolding(crate::specs::Scan::number_from))]
fn short_number(s: &[u8], at: usize, base: u64, most: u64) -> Option<Word<u128>>
    ensures value { result ≡ number_from s.now at base most }
    ensures bound { IfSome result (λ w. w.value ≤ most) }
{
    let mut value: u64 = 0;
    for i in at..s.len() {
        let Some(d) = digit(s[i], base) else {
            return close(at, value as u128, i);
        };
        let more = value.checked_mul(base)?.checked_add(u64::from(d))?;
        if most < more {
            return None;
        }
        value = more;
    }
    close(at, value as u128, s.len())
}

// The number of at most `most` whose digits in the base stand from `at` on. By index: the place after them is part of the answer.
#[tactic(auto, unfolding(crate::specs::Scan::number_from))]
pub fn number(s: &[u8], at: usize, base: u64, most: u128) -> Option<Word<u128>>
    ensures value { result ≡ number_from s.now at base most }
    ensures bound { IfSome result (λ w. w.value ≤ most) }
{
    if most <= u128::from(u64::MAX) {
        return short_number(s, at, base, most as u64);
    }
    let mut value: u128 = 0;
    for i in at..s.len() {
        let Some(d) = digit(s[i], base) else {
            return close(at, value, i);
        };
        let more = value
            .checked_mul(u128::from(base))?
            .checked_add(u128::from(d))?;
        if most < more {
            return None;
        }
        value = more;
    }
    close(at, value, s.len())
}
