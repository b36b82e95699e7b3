// Printing an answer of the text protocol (compare/README.md) into a lent buffer: each text goes after the one before it. What does not fit is
// left out, and the next place is then the buffer's end.
#![tactic(auto)]

pub mod bits;

ghost use Rattle.std.specs.Prelude.{◌≡◌, [], ◌∷◌, ◌<◌, ◌≤◌, take};
ghost use Rattle.text_print.specs.Print.{printed, glyph_of, spells, digits_text, decimal_text, hex_text, byte_text, flow_text};
ghost use Rattle.text_print.specs.Printers.{on};

// The buffer that answers are printed into.
pub type Out = [u8; 262_144];

// A lent buffer, and the place where the next text goes: as io::Cursor, with a place that contracts can speak of.
#[derive(Drop)]
pub struct Printer<'a> {
    pub out: &'a mut Out,
    pub place: usize,
}

// The byte of a digit below 16.
#[tactic(auto, unfolding(crate::specs::Print::glyph_of))]
fn glyph(d: u64) -> u8
    requires { d < 16 }
    ensures { result ≡ glyph_of d }
{
    b"0123456789abcdef"[d as usize]
}

// Nothing is left of the number, and it has its least number of digits.
#[tactic(auto, unfolding(crate::specs::Print::spells))]
fn ended(rest: u64, count: usize, least: usize) -> bool
    ensures { result ≡ spells rest count least }
{
    rest == 0 && least <= count
}

impl Printer<'_> {
    // The buffer's first n bytes, as far as it goes.
    pub fn first(&self, n: usize) -> &[u8]
        ensures { result.now ≡ take n self.now.out.now }
    {
        let end = n.min(self.out.len());
        let out = &self.out[..];
        &out[..end]
    }

    // What was printed.
    pub fn text(&self) -> &[u8]
        ensures { result.now ≡ take self.now.place self.now.out.now }
    {
        self.first(self.place)
    }

    pub fn put_text(&mut self, text: &[u8])
        ensures text { on self.new ≡ printed text.now (on self.old) }
        ensures same { self.new.out.ghost_name ≡ self.old.out.ghost_name }
    {
        let place = self.place;
        let out: &mut [u8] = self.out;
        let at = place.min(out.len());
        let fitting = text.len().min(out.len() - at);
        out[at..at + fitting].copy_from_slice(&text[..fitting]);
        self.place = at + fitting;
    }

    pub fn put_byte(&mut self, b: u8)
        ensures text { on self.new ≡ printed (b ∷ []) (on self.old) }
        ensures same { self.new.out.ghost_name ≡ self.old.out.ghost_name }
    {
        self.put_text(&[b]);
    }

    // A number in this base, at least so many digits of it. Its digits are counted here: after std's `write!` nothing is known of a writer at an
    // `Err`, and `fmt::InlineText`, which cannot fail, takes eight times as many instructions.
    fn put_digits(&mut self, n: u64, base: u64, least: usize)
        requires lt_base { 1 < base }
        requires base_bound { base ≤ 16 }
        ensures text { on self.new ≡ printed (digits_text base least n) (on self.old) }
        ensures same { self.new.out.ghost_name ≡ self.old.out.ghost_name }
    {
        let mut digits = [0u8; 20];
        let mut rest = n;
        for from in (0..20usize).rev() {
            digits[from] = glyph(rest % base);
            rest /= base;
            if ended(rest, 20 - from, least) {
                self.put_text(&digits[from..]);
                return;
            }
        }
        self.put_text(&digits);
    }

    // A number in decimal, without leading zeros. This and the three after it name a base and a least number of digits for `put_digits`, which asks that the base
    // is from 2 to 16: their callers owe nothing.
    pub fn put_decimal(&mut self, n: u64)
        ensures text { on self.new ≡ printed (decimal_text n) (on self.old) }
        ensures same { self.new.out.ghost_name ≡ self.old.out.ghost_name }
    {
        self.put_digits(n, 10, 1);
    }

    // A number in hex, without leading zeros.
    pub fn put_hex(&mut self, n: u64)
        ensures text { on self.new ≡ printed (hex_text n) (on self.old) }
        ensures same { self.new.out.ghost_name ≡ self.old.out.ghost_name }
    {
        self.put_digits(n, 16, 1);
    }

    // A byte in hex, both digits.
    pub fn put_hex_byte(&mut self, b: u8)
        ensures text { on self.new ≡ printed (byte_text b) (on self.old) }
        ensures same { self.new.out.ghost_name ≡ self.old.out.ghost_name }
    {
        self.put_digits(b as u64, 16, 2);
    }

    // A flow's 128 bits in hex, without leading zeros.
    pub fn put_flow(&mut self, high: u64, low: u64)
        ensures text { on self.new ≡ printed (flow_text high low) (on self.old) }
        ensures same { self.new.out.ghost_name ≡ self.old.out.ghost_name }
    {
        if high == 0 {
            self.put_hex(low);
            return;
        }
        self.put_hex(high);
        self.put_digits(low, 16, 16);
    }
}
