// Numbers and their bytes, by the end that weighs most: the number that some bytes make, and the bytes of a number.
#![tactic(auto)]

ghost use Rattle.std.specs.Prelude.{◌≡◌};
ghost use Rattle.byte_order.specs.Bytes.{byte_of};

// Functions that ask something of their caller; the crates above use them where the bytes are there.
pub mod inner;

// The byte of a number that has k lighter ones. Std gives all bytes of a number at once; a file is written, and the rules speak of it, byte by byte.
pub fn byte_of(value: u64, k: usize) -> u8
    ensures { result ≡ byte_of k value }
{
    value.to_le_bytes().get(k).copied().unwrap_or(0)
}
