// The request of a line (compare/README.md, "The protocol"). A line more is one definition in specs/, one function that reads it, and one
// entry in its group of lines; a line of a name alone has the function `bare`.
#![tactic(auto)]

ghost use Rattle.std.specs.Prelude.{◌≡◌, length};
ghost use Rattle.text_read.specs.Table.{full_line, prefix_at, whole, said_of, request_at, line_said, line_at};

use text_requests::{Known, Line, Request};
use text_scan::{Word, after_text, after_word, ends};
use text_words::Reader;

mod supervisor;

// Where a line's request begins, and whether its lists are short.
#[tactic(auto, unfolding(crate::specs::Table::prefix_at))]
fn prefix(s: &[u8]) -> Word<bool>
    ensures { result ≡ prefix_at s.now }
{
    match after_text(s, 0, b"!5 ") {
        Some(next) => Word { value: true, next },
        None => Word {
            value: false,
            next: 0,
        },
    }
}

#[tactic(auto, unfolding(crate::specs::Table::full_line))]
fn full(mut r: Reader<'_>) -> Option<Word<bool>>
    ensures { result ≡ full_line r.entry.s.now r.entry.at }
{
    r.word(b"full")?;
    let bit = r.bit(b' ')?;
    Some(r.found(bit))
}

// What was read, where the line ends after it.
#[tactic(auto, unfolding(crate::specs::Table::whole))]
fn whole<T: Copy>(s: &[u8], read: Option<Word<T>>) -> Option<T>
    ensures { result ≡ whole s.now read }
{
    let w = read?;
    ends(s, w.next).then_some(w.value)
}

// What stands at this place: a line that ends where its words end.
#[tactic(auto, unfolding(crate::specs::Table::request_at))]
fn request_at(s: &[u8], at: usize, known: Known, heard: &mut [u32; 524_288]) -> Request
    ensures { said_of result heard.new ≡ request_at s.now at known (length heard.old) }
{
    let r = Reader { s, at };
    if let Some(call) = whole(s, supervisor::tick(r, known.inputs, heard)) {
        return Request::On(call);
    }
    if let Some(call) = whole(s, supervisor::call_at(r, known)) {
        return Request::On(call);
    }
    if let Some(lone) = whole(s, text_read_alone::lone_at(r, known.lone_buckets)) {
        return Request::Alone(lone);
    }
    if let Some(bit) = whole(s, full(r)) {
        return Request::Full(bit);
    }
    Request::Bad
}

// The request of a line. A tick's lags go to `heard`.
#[tactic(auto, unfolding(crate::specs::Table::line_at))]
pub fn read(s: &[u8], known: Known, heard: &mut [u32; 524_288]) -> Line
    ensures { line_said result heard.new ≡ line_at s.now known (length heard.old) }
{
    if let Some(next) = after_word(s, 0, b"flush") {
        if ends(s, next) {
            return Line {
                short: false,
                request: Request::Flush,
            };
        }
    }
    let begins = prefix(s);
    Line {
        short: begins.value,
        request: request_at(s, begins.next, known, heard),
    }
}
