// The words of a line (compare/README.md), read one after the other. Each method reads what stands after a separating byte, and the reader then
// stands after it, or answers none where nothing of that form stands there. The caller asks for the next separator, or that the line ends, so
// that nothing but the protocol's own text is taken.
#![tactic(auto)]

ghost use Rattle.std.specs.Prelude.{◌≡◌, ◌≤◌, IfSome, false, Some, None};
ghost use Rattle.base.specs.Choice.{pick};
ghost use Rattle.text_scan.specs.Scan.{word, after_text, after_word};
ghost use Rattle.text_words.specs.Words.{read_as, passed_as, number_after, mark_after, u64_in, u64_at, hex_at, u32_at, u8_at, bit_at, maybe_u64_at, maybe_u32_at, pair_at, maybe_pair_at, flow_at, manual_at, kind_at};

use text_scan::inner::number;
use text_scan::{Word, after, after_text, after_word};

// A place of a line, from which its words are read. Where a word is not there, the place is not told. That its line stays is told beside its place:
// a reader is one value.
#[derive(Clone, Copy)]
pub struct Reader<'a> {
    pub s: &'a [u8],
    pub at: usize,
}

impl<'a> Reader<'a> {
    // What was read up to this place.
    pub fn found<T: Copy>(self, value: T) -> Word<T>
        ensures { result ≡ word value self.entry.at }
    {
        Word {
            value,
            next: self.at,
        }
    }

    // ---- texts

    pub fn text(&mut self, text: &[u8]) -> Option<()>
        ensures read { passed_as self.new.at result ≡ after_text self.old.s.now self.old.at text.now }
        ensures same { self.new.s.now ≡ self.old.s.now }
    {
        self.at = after_text(self.s, self.at, text)?;
        Some(())
    }

    // A text that is a whole word.
    pub fn word(&mut self, text: &[u8]) -> Option<()>
        ensures read { passed_as self.new.at result ≡ after_word self.old.s.now self.old.at text.now }
        ensures same { self.new.s.now ≡ self.old.s.now }
    {
        self.at = after_word(self.s, self.at, text)?;
        Some(())
    }

    // ---- numbers

    // A number of at most `most`, in base 10 or 16.
    #[tactic(auto, unfolding(crate::specs::Words::number_after))]
    pub fn number(&mut self, sep: u8, base: u64, most: u128) -> Option<u128>
        ensures read { read_as self.new.at result ≡ number_after self.old.s.now self.old.at sep base most }
        ensures bound { IfSome result (λ n. n ≤ most) }
        ensures same { self.new.s.now ≡ self.old.s.now }
    {
        let from = after(self.s, self.at, sep)?;
        let w = number(self.s, from, base, most)?;
        self.at = w.next;
        Some(w.value)
    }

    #[tactic(auto, unfolding(crate::specs::Words::u64_in))]
    fn u64_in(&mut self, sep: u8, base: u64) -> Option<u64>
        ensures read { read_as self.new.at result ≡ u64_in self.old.s.now self.old.at sep base }
        ensures same { self.new.s.now ≡ self.old.s.now }
    {
        let n = self.number(sep, base, u128::from(u64::MAX))?;
        Some(n as u64)
    }

    #[tactic(auto, unfolding(crate::specs::Words::u64_at))]
    pub fn u64(&mut self, sep: u8) -> Option<u64>
        ensures read { read_as self.new.at result ≡ u64_at self.old.s.now self.old.at sep }
        ensures same { self.new.s.now ≡ self.old.s.now }
    {
        self.u64_in(sep, 10)
    }

    // 64 bits in hex, as of a double.
    #[tactic(auto, unfolding(crate::specs::Words::hex_at))]
    pub fn hex(&mut self, sep: u8) -> Option<u64>
        ensures read { read_as self.new.at result ≡ hex_at self.old.s.now self.old.at sep }
        ensures same { self.new.s.now ≡ self.old.s.now }
    {
        self.u64_in(sep, 16)
    }

    // A u32 and a u8 are `number` with the bound of their type; a trait for that bound and the cast, with an impl for each, is longer than both. std's
    // `TryFrom` would serve for the cast, but the rule bounds the number while it is read (number_after).
    #[tactic(auto, unfolding(crate::specs::Words::u32_at))]
    pub fn u32(&mut self, sep: u8) -> Option<u32>
        ensures read { read_as self.new.at result ≡ u32_at self.old.s.now self.old.at sep }
        ensures same { self.new.s.now ≡ self.old.s.now }
    {
        let n = self.number(sep, 10, u128::from(u32::MAX))?;
        Some(n as u32)
    }

    #[tactic(auto, unfolding(crate::specs::Words::u8_at))]
    pub fn u8(&mut self, sep: u8) -> Option<u8>
        ensures read { read_as self.new.at result ≡ u8_at self.old.s.now self.old.at sep }
        ensures same { self.new.s.now ≡ self.old.s.now }
    {
        let n = self.number(sep, 10, u128::from(u8::MAX))?;
        Some(n as u8)
    }

    // `0` for no, `1` for yes.
    #[tactic(auto, unfolding(crate::specs::Words::bit_at))]
    pub fn bit(&mut self, sep: u8) -> Option<bool>
        ensures read { read_as self.new.at result ≡ bit_at self.old.s.now self.old.at sep }
        ensures same { self.new.s.now ≡ self.old.s.now }
    {
        let n = self.number(sep, 10, 1)?;
        Some(n == 1)
    }

    // A flow's 128 bits in hex.
    #[tactic(auto, unfolding(crate::specs::Words::flow_at))]
    pub fn flow(&mut self, sep: u8) -> Option<u128>
        ensures read { read_as self.new.at result ≡ flow_at self.old.s.now self.old.at sep }
        ensures same { self.new.s.now ≡ self.old.s.now }
    {
        self.number(sep, 16, u128::MAX)
    }

    // ---- a value, or a mark for none

    // Does the byte b stand after the byte sep? Where it does not, the reader stays.
    #[tactic(auto, unfolding(crate::specs::Words::mark_after))]
    pub fn mark(&mut self, sep: u8, b: u8) -> bool
        ensures read { pick result (Some self.new.at) None ≡ mark_after self.old.s.now self.old.at sep b }
        ensures stays { result ≡ false → self.new.at ≡ self.old.at }
        ensures same { self.new.s.now ≡ self.old.s.now }
    {
        let Some(from) = after(self.s, self.at, sep) else {
            return false;
        };
        let Some(next) = after(self.s, from, b) else {
            return false;
        };
        self.at = next;
        true
    }

    // Five words are read so (the fifth is text_read's `wanted_at`), in four lines each; one function over a closure would owe each its law.
    #[tactic(auto, unfolding(crate::specs::Words::maybe_u64_at, crate::specs::Words::or_none))]
    pub fn maybe_u64(&mut self, sep: u8) -> Option<Option<u64>>
        ensures read { read_as self.new.at result ≡ maybe_u64_at self.old.s.now self.old.at sep }
        ensures same { self.new.s.now ≡ self.old.s.now }
    {
        if !self.mark(sep, b'-') {
            return Some(Some(self.u64(sep)?));
        }
        Some(None)
    }

    #[tactic(auto, unfolding(crate::specs::Words::maybe_u32_at, crate::specs::Words::or_none))]
    pub fn maybe_u32(&mut self, sep: u8) -> Option<Option<u32>>
        ensures read { read_as self.new.at result ≡ maybe_u32_at self.old.s.now self.old.at sep }
        ensures same { self.new.s.now ≡ self.old.s.now }
    {
        if !self.mark(sep, b'-') {
            return Some(Some(self.u32(sep)?));
        }
        Some(None)
    }

    // Two numbers with a colon between them; the second is at most `most`.
    #[tactic(auto, unfolding(crate::specs::Words::pair_at))]
    fn pair(&mut self, sep: u8, most: u64) -> Option<(u64, u64)>
        ensures read { read_as self.new.at result ≡ pair_at self.old.s.now self.old.at sep most }
        ensures same { self.new.s.now ≡ self.old.s.now }
    {
        let first = self.u64(sep)?;
        let second = self.number(b':', 10, u128::from(most))?;
        Some((first, second as u64))
    }

    #[tactic(auto, unfolding(crate::specs::Words::maybe_pair_at, crate::specs::Words::or_none))]
    pub fn maybe_pair(&mut self, sep: u8, most: u64) -> Option<Option<(u64, u64)>>
        ensures read { read_as self.new.at result ≡ maybe_pair_at self.old.s.now self.old.at sep most }
        ensures same { self.new.s.now ≡ self.old.s.now }
    {
        if !self.mark(sep, b'-') {
            return Some(Some(self.pair(sep, most)?));
        }
        Some(None)
    }

    // The bits of a manual delay: `M` and a double's in hex.
    #[tactic(auto, unfolding(crate::specs::Words::manual_at))]
    fn manual(&mut self, sep: u8) -> Option<u64>
        ensures read { read_as self.new.at result ≡ manual_at self.old.s.now self.old.at sep }
        ensures same { self.new.s.now ≡ self.old.s.now }
    {
        self.at = after(self.s, self.at, sep)?;
        self.hex(b'M')
    }

    // A delay kind: the bits of a manual delay, or `A` for none.
    #[tactic(auto, unfolding(crate::specs::Words::kind_at, crate::specs::Words::or_none))]
    pub fn kind(&mut self, sep: u8) -> Option<Option<u64>>
        ensures read { read_as self.new.at result ≡ kind_at self.old.s.now self.old.at sep }
        ensures same { self.new.s.now ≡ self.old.s.now }
    {
        if !self.mark(sep, b'A') {
            return Some(Some(self.manual(sep)?));
        }
        Some(None)
    }
}
