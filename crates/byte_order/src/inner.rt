// The numbers that bytes from a place on make. They ask that so many bytes are there.
// Std converts arrays: each use would cut its array out of the list first, and say again which number of the rules that makes.
ghost use Rattle.std.specs.Prelude.{◌≡◌, ◌+◌, ◌≤◌, length};
ghost use Rattle.byte_order.specs.Bytes.{bytes_at, little_at};

// The number that 8 bytes make, the first weighing most.
pub fn big_eight(bytes: &[u8], place: usize) -> u64
    requires { place + 8 ≤ length bytes.now }
    ensures { result ≡ bytes_at bytes.now place 8 }
{
    let mut eight = [0u8; 8];
    eight.copy_from_slice(&bytes[place..place + 8]);
    u64::from_be_bytes(eight)
}

// The number that 2 bytes make, the first weighing least.
pub fn little_two(bytes: &[u8], place: usize) -> usize
    requires { place + 2 ≤ length bytes.now }
    ensures { result ≡ little_at bytes.now place 2 }
{
    usize::from(u16::from_le_bytes([bytes[place], bytes[place + 1]]))
}

// The number that 4 bytes make, the first weighing least.
pub fn little_four(bytes: &[u8], place: usize) -> u32
    requires { place + 4 ≤ length bytes.now }
    ensures { result ≡ little_at bytes.now place 4 }
{
    u32::from_le_bytes([
        bytes[place],
        bytes[place + 1],
        bytes[place + 2],
        bytes[place + 3],
    ])
}
