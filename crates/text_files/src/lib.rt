// The bytes of a file as a word of a line (compare/README.md, `dread1`): two lower-case hex digits a byte, or `-` for none.
#![tactic(auto)]

ghost use Rattle.std.specs.Prelude.{◌≡◌, ◌+◌, ◌≤◌, length, take, OnSome};
ghost use Rattle.text_words.specs.Words.{read_as};
ghost use Rattle.text_files.specs.Files.{pair_at, digits_end, file_at, kept_from};

use text_scan::{after, digit};
use text_words::Reader;

// The most bytes that are kept of a file: one more than any edition has.
pub const MOST_FILE: usize = 1_292;

// The byte that the two digits at this place say.
#[tactic(auto, unfolding(crate::specs::Files::pair_at, crate::specs::Files::pair_of))]
fn pair(s: &[u8], at: usize) -> Option<u8>
    ensures value { result ≡ pair_at s.now at }
    ensures within { OnSome result (at + 2 ≤ length s.now) }
{
    let [first, second, ..] = s.get(at..)? else {
        return None;
    };
    let high = digit(*first, 16)?;
    let low = digit(*second, 16)?;
    Some(high * 16 + low)
}

// The place after the digits. A byte that is no digit ends them, and any place is taken, as in the rule.
#[tactic(auto, using(crate::proofs::Pairs::end_stop), unfolding(crate::specs::Files::digits_end))]
fn digits_end(s: &[u8], from: usize) -> usize
    ensures { result ≡ digits_end s.now from }
{
    let mut next = from;
    while let Some(_) = pair(s, next) {
        next += 2;
    }
    next
}

// A file after a separating byte: where its digits begin.
#[tactic(auto, unfolding(crate::specs::Files::file_at))]
pub fn file_word(r: &mut Reader<'_>, sep: u8) -> Option<usize>
    ensures read { read_as r.new.at result ≡ file_at r.old.s.now r.old.at sep }
    ensures same { r.new.s.now ≡ r.old.s.now }
{
    if r.mark(sep, b'-') {
        return Some(r.at);
    }
    let from = after(r.s, r.at, sep)?;
    let next = digits_end(r.s, from);
    if next == from {
        return None;
    }
    r.at = next;
    Some(from)
}

// The bytes whose digits begin at this place, in a list that has room for them: how many are kept. By index: of `iter_mut().take(n)` no contract tells
// what the list then holds.
#[tactic(auto, using(crate::proofs::Pairs::kept_stop, crate::proofs::Pairs::kept_more), unfolding(crate::specs::Files::kept_from))]
fn store(s: &[u8], at: usize, file: &mut [u8]) -> usize
    requires { 1292 ≤ length file.old }
    ensures { take result file.new ≡ kept_from s.now at }
{
    let mut next = at;
    for k in 0..MOST_FILE {
        let Some(byte) = pair(s, next) else {
            return k;
        };
        file[k] = byte;
        next += 2;
    }
    MOST_FILE
}

// The bytes whose digits begin at this place, at most 1,292: how many there are. The line and a place, as of a request: who calls this holds no reader.
pub fn file_at(s: &[u8], at: usize, file: &mut [u8; 262_144]) -> usize
    ensures { take result file.new ≡ kept_from s.now at }
{
    store(s, at, file)
}
