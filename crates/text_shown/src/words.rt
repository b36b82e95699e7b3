// The words of an answer, and what is shown as which word. A word more is a variant and its arm of `put`.
use delay_hold::{LowerTimer, Seed};
use rules_calls::Source;
use rules_record::{ExtraDelay, Flow};
use sources::Down;
use std::io::Write;
use text_lines::Output;
use text_print::bits::bits_of;

// Each stands after a space, where it does not say what it stands after.
#[derive(Clone, Copy)]
pub(crate) enum Word {
    // `-`.
    None,
    // A number; of a bit 1 for yes, 0 for no.
    Number(u64),
    // A number after one byte, and a number after another.
    Two(u8, u64, u8, u64),
    // A double, as its bits.
    Double(f64),
    // A letter.
    Mark(u8),
    // A letter, and how many of what it stands for follow, or which.
    Head(u8, u64),
    // `M` and the bits of a manual delay's milliseconds.
    Manual(f64),
    // A flow, a byte that separates, and a number.
    Flow(Flow, u8, u64),
    // kind`.`input`.`word.
    Command(u32, u32, u32),
    // The two digits of a byte, after nothing: the bytes of a file are one word.
    Byte(u8),
}

impl Word {
    // A word fits: what is kept free of the buffer is longer.
    pub(crate) fn put<W: Write>(self, output: &mut Output<'_, W>) {
        output.room();
        let printer = &mut output.printer;
        match self {
            Word::None => printer.put_text(b" -"),
            Word::Number(n) => {
                printer.put_byte(b' ');
                printer.put_decimal(n);
            }
            Word::Two(before, first, between, second) => {
                printer.put_byte(before);
                printer.put_decimal(first);
                printer.put_byte(between);
                printer.put_decimal(second);
            }
            Word::Double(x) => {
                printer.put_byte(b' ');
                printer.put_hex(bits_of(x));
            }
            Word::Mark(letter) => printer.put_text(&[b' ', letter]),
            Word::Head(letter, n) => {
                printer.put_text(&[b' ', letter, b' ']);
                printer.put_decimal(n);
            }
            Word::Manual(x) => {
                printer.put_text(b" M");
                printer.put_hex(bits_of(x));
            }
            Word::Flow(flow, sep, n) => {
                printer.put_byte(b' ');
                printer.put_flow(flow.high, flow.low);
                printer.put_byte(sep);
                printer.put_decimal(n);
            }
            Word::Command(kind, input, word) => {
                printer.put_byte(b' ');
                printer.put_decimal(kind as u64);
                printer.put_byte(b'.');
                printer.put_decimal(input as u64);
                printer.put_byte(b'.');
                printer.put_decimal(word as u64);
            }
            Word::Byte(b) => printer.put_hex_byte(b),
        }
    }
}

pub(crate) fn put_words<W: Write>(output: &mut Output<'_, W>, words: &[Word]) {
    for word in words {
        word.put(output);
    }
}

// ---- what is shown as which word
// Each type its own impl: a macro of the repository may write none.
impl From<u64> for Word {
    fn from(n: u64) -> Word {
        Word::Number(n)
    }
}

impl From<u8> for Word {
    fn from(n: u8) -> Word {
        Word::Number(n as u64)
    }
}

impl From<u32> for Word {
    fn from(n: u32) -> Word {
        Word::Number(n as u64)
    }
}

impl From<usize> for Word {
    fn from(n: usize) -> Word {
        Word::Number(n as u64)
    }
}

impl From<bool> for Word {
    fn from(bit: bool) -> Word {
        Word::Number(bit as u64)
    }
}

impl From<f64> for Word {
    fn from(x: f64) -> Word {
        Word::Double(x)
    }
}

impl From<Down> for Word {
    fn from(down: Down) -> Word {
        Word::Two(b' ', down.until, b':', down.wait)
    }
}

impl From<Seed> for Word {
    fn from(seed: Seed) -> Word {
        Word::Two(b' ', seed.since, b':', seed.delay as u64)
    }
}

impl From<LowerTimer> for Word {
    fn from(timer: LowerTimer) -> Word {
        Word::Two(b' ', timer.since, b':', timer.highest as u64)
    }
}

impl From<Source> for Word {
    fn from(source: Source) -> Word {
        Word::Flow(source.flow, b'/', source.domain)
    }
}

impl From<ExtraDelay> for Word {
    fn from(kind: ExtraDelay) -> Word {
        match kind {
            ExtraDelay::Ms(delay) => Word::Manual(delay),
            ExtraDelay::Auto(_) => Word::Mark(b'A'),
        }
    }
}

impl<T: Into<Word>> From<Option<T>> for Word {
    fn from(value: Option<T>) -> Word {
        match value {
            Some(x) => x.into(),
            None => Word::None,
        }
    }
}
