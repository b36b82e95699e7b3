// The reader of either edition.
ghost use Rattle.std.specs.Prelude.{◌≡◌, ◌+◌, ◌*◌, ◌<◌, ◌≤◌, length, nat_lt, IfOk};
ghost use Rattle.base.specs.Choice.{pick};
ghost use Rattle.base.specs.Lists.{padded, listed};
ghost use Rattle.byte_order.specs.Bytes.{AllBytes};
ghost use Rattle.refusals.specs.Numbers.{number_in};
ghost use Rattle.rules_files.specs.Files.{rises, count_in, flow_in, delay_in, headed};
ghost use Rattle.rules_files.specs.ReadFile.{read_number, flow_byte_in, left_read, read_reply};

use refusals::Refusal;
use rules_record::Flow;

// An edition: its version, how many bytes its head has, and the rate in its head (the reader takes any, and a head of 7 bytes has none).
#[derive(Clone, Copy)]
pub(crate) struct Edition {
    pub(crate) version: usize,
    pub(crate) head: usize,
    pub(crate) rate: u32,
    ghost head_bounds: { (7 ≤ head) × (head ≤ 11) },
}

impl Edition {
    // Are mark, version, count and length right (check 19)? The mark byte by byte, as the rule asks it.
    fn is_headed(self, file: &[u8]) -> bool
        ensures { result ≡ headed self.version self.head file.now }
    {
        if file.len() < 7 {
            return false;
        }
        if file[0] != b'D' {
            return false;
        }
        if file[1] != b'L' {
            return false;
        }
        if file[2] != b'Y' {
            return false;
        }
        if byte_order::inner::little_two(file, 3) != self.version {
            return false;
        }
        let count = byte_order::inner::little_two(file, 5);
        if 64 < count {
            return false;
        }
        file.len() == self.head + count * 20
    }
}

// The entries of a file, so many after its head.
#[derive(Clone, Copy)]
struct Entries<'a> {
    file: &'a [u8],
    head: usize,
    count: usize,
    ghost in_file: { (head ≤ 11) × (count ≤ 64) × (head + count * 20 ≤ length file.now) },
}

impl Entries<'_> {
    // The flow of entry k.
    fn flow(self, k: usize) -> Flow
        requires { k < self.count }
        ensures { result ≡ flow_in self.entry.file.now self.entry.head k }
    {
        inputs_flows::inner::flow_from(self.file, self.head + k * 20)
    }

    // Do the flows rise strictly (check 20)?
    fn rising(self) -> bool
        ensures { result ≡ rises (flow_in self.entry.file.now self.entry.head) self.entry.count }
    {
        for k in 1..self.count {
            let lower = self.flow(k - 1) < self.flow(k);
            if !lower {
                return false;
            }
        }
        true
    }

    // Byte i of the flows, zero after the last.
    fn flow_byte(self, i: usize) -> u8
        ensures { result ≡ pick (nat_lt i (self.entry.count * 16)) (flow_byte_in self.entry.file.now self.entry.head i) 0 }
    {
        if i < self.count * 16 {
            return self.file[self.head + i / 16 * 20 + i % 16];
        }
        0
    }

    // Delay i, zero after the last.
    fn delay(self, i: usize) -> u32
        ensures { result ≡ pick (nat_lt i self.entry.count) (delay_in self.entry.file.now self.entry.head i) 0 }
    {
        if i < self.count {
            return byte_order::inner::little_four(self.file, self.head + i * 20 + 16);
        }
        0
    }

    fn fill_flows(self, flows: &mut [u8])
        requires { length flows.old ≡ 1024 }
        ensures { flows.new ≡ padded 1024 (listed (flow_byte_in self.entry.file.now self.entry.head) (self.entry.count * 16)) }
    {
        for (i, byte) in flows.iter_mut().enumerate() {
            *byte = self.flow_byte(i);
        }
    }

    fn fill_delays(self, delays: &mut [u32])
        requires { length delays.old ≡ 64 }
        ensures { delays.new ≡ padded 64 (listed (delay_in self.entry.file.now self.entry.head) self.entry.count) }
    {
        for (i, delay) in delays.iter_mut().enumerate() {
            *delay = self.delay(i);
        }
    }
}

// Checks 19 5 20, with so many flow bytes and delays lent; the file's entries.
fn check_read(
    edition: Edition,
    file: &[u8],
    flows: usize,
    delays: usize,
) -> Result<Entries<'_>, Refusal>
    ensures number { number_in result ≡ read_number edition.version edition.head file.now flows delays }
    ensures entries { IfOk result (λ e. (e.file.now ≡ file.now) × (e.head ≡ edition.head) × (e.count ≡ count_in file.now)) }
{
    if !edition.is_headed(file) {
        return Err(Refusal::FileHead);
    }
    if flows != 1024 {
        return Err(Refusal::ListLength);
    }
    if delays != 64 {
        return Err(Refusal::ListLength);
    }
    let count = byte_order::inner::little_two(file, 5);
    let entries = Entries {
        file,
        head: edition.head,
        count,
    };
    if !entries.rising() {
        return Err(Refusal::FileOrder);
    }
    Ok(entries)
}

// The flows and the delays of a file, unused places zero, and their count. That a file's numbers are bytes is what the program knows of a list of its type.
pub(crate) fn read(
    edition: Edition,
    file: &[u8],
    flows: &mut [u8],
    delays: &mut [u32],
) -> Result<usize, Refusal>
    ensures delays_after { left_read result flows.new delays.new ≡ read_reply edition.version edition.head file.now flows.old delays.old }
    ensures all_bytes { AllBytes file.now }
{
    let entries = check_read(edition, file, flows.len(), delays.len())?;
    entries.fill_flows(flows);
    entries.fill_delays(delays);
    Ok(entries.count)
}
