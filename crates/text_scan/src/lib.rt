// Scanning a line of the text protocol (compare/README.md): bytes, words, texts and digits at a place.
// Every function takes any place: one past the end finds nothing.
#![tactic(auto)]

pub mod bytes;
pub mod inner;

ghost use Rattle.std.specs.Prelude.{◌≡◌, ◌<◌, IfSome};
ghost use Rattle.text_scan.specs.Scan.{has_byte, after_byte, ends_at, first_from, after_text, after_word, digit_of};

// What stands at a place of a line, and the place after it.
#[derive(Clone, Copy, Debug, PartialEq, Eq)]
pub struct Word<T> {
    pub value: T,
    pub next: usize,
}

// Does the byte b stand at this place?
#[tactic(auto, unfolding(crate::specs::Scan::has_byte))]
pub fn is_at(s: &[u8], at: usize, b: u8) -> bool
    ensures { result ≡ has_byte s.now at b }
{
    at < s.len() && s[at] == b
}

// The place after the byte b, which stands at this place.
#[tactic(auto, unfolding(crate::specs::Scan::after_byte, crate::specs::Scan::has_byte))]
pub fn after(s: &[u8], at: usize, b: u8) -> Option<usize>
    ensures { result ≡ after_byte s.now at b }
{
    is_at(s, at, b).then(|| at + 1)
}

// Does the line end at this place?
#[tactic(auto, unfolding(crate::specs::Scan::ends_at))]
pub fn ends(s: &[u8], at: usize) -> bool
    ensures { result ≡ ends_at s.now at }
{
    at == s.len()
}

// The first place from `at` on, and before `to`, that holds the byte b. By index: the place is the answer, and an iterator over a part of the line
// would count from the part's begin.
#[tactic(auto, unfolding(crate::specs::Scan::first_from))]
pub fn first(s: &[u8], at: usize, to: usize, b: u8) -> Option<usize>
    ensures { result ≡ first_from s.now at to b }
{
    for i in at..to.min(s.len()) {
        if s[i] == b {
            return Some(i);
        }
    }
    None
}

// The value of a digit of the base; those above 9 are in lower case. What is no digit in base 16 counts as 16, as in the rule, which is of any base.
#[tactic(auto, unfolding(crate::specs::Scan::digit_of))]
pub fn digit(b: u8, base: u64) -> Option<u8>
    ensures value { result ≡ digit_of b base }
    ensures below { IfSome result (λ d. d < base) }
{
    let d = match b {
        b'0'..=b'9' => b - b'0',
        b'a'..=b'f' => b - b'a' + 10,
        _ => 16,
    };
    (u64::from(d) < base).then_some(d)
}

// The place after the text, which stands at this place.
#[tactic(auto, unfolding(crate::specs::Scan::after_text))]
pub fn after_text(s: &[u8], at: usize, text: &[u8]) -> Option<usize>
    ensures { result ≡ after_text s.now at text.now }
{
    let mut next = at;
    for b in text {
        next = after(s, next, *b)?;
    }
    Some(next)
}

// The place after the word, which stands at this place: a space follows, or the line ends.
#[tactic(auto, unfolding(crate::specs::Scan::after_word))]
pub fn after_word(s: &[u8], at: usize, text: &[u8]) -> Option<usize>
    ensures { result ≡ after_word s.now at text.now }
{
    let next = after_text(s, at, text)?;
    (ends(s, next) || is_at(s, next, b' ')).then_some(next)
}
