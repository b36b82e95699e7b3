// The lists of the program, and how much of each is lent to a call. They have room for 16 inputs with 4,096 buckets a second, and after that
// for a window and a hold alone. A function that only hands a list on is lent the whole array, one that cuts a part a slice.
#![tactic(auto)]

ghost use Rattle.std.specs.Prelude.{◌≡◌, ◌≤◌, take};
ghost use Rattle.text_lending.specs.LentTo.{buckets_held, lent_to};
ghost use Rattle.text_lending.specs.Lengths.{buckets_lent, cut_to, lengths_for, files_lent, places_from, places_of};

use rules_record::Inputs;
use text_requests::{Call, Change};

// The starts and the totals of seconds, the counts of their rows, and the sums over the rows.
pub type Seconds = [u64; 187];

pub type Counts = [u32; 765_952];

pub type Sums = [u64; 69_632];

// The times and the lags of peaks.
pub type Times = [u64; 10_200];

pub type Peaks = [u32; 10_200];

// The words of commands, which no call alone has.
pub type Words = [u32; 192];

// The lags of a tick, the delays that `new` loads, or those that a file has.
pub type Heard = [u32; 524_288];

// The flows of a delay file that is read, or a file that is written.
pub type Bytes = [u8; 1_287];

// The lists, lent together.
#[derive(Drop)]
pub struct Lists<'a> {
    pub starts: &'a mut Seconds,
    pub totals: &'a mut Seconds,
    pub counts: &'a mut Counts,
    pub sums: &'a mut Sums,
    pub times: &'a mut Times,
    pub peaks: &'a mut Peaks,
    pub commands: &'a mut Words,
    pub bytes: &'a mut Bytes,
    pub heard: &'a mut Heard,
}

// Where in the lists the places of a window and a hold begin: the starts and totals of its seconds, the counts of their rows, the sums, the peaks.
#[derive(Clone, Copy)]
pub struct Places {
    pub seconds: usize,
    pub counts: usize,
    pub sums: usize,
    pub peaks: usize,
}

impl Places {
    // Of the window and the hold alone: after those of 16 inputs.
    pub const LONE: Places = Places {
        seconds: 176,
        counts: 720_896,
        sums: 65_536,
        peaks: 9_600,
    };

    // Of input i, whose window has so many buckets a second.
    #[tactic(auto, unfolding(crate::specs::Lengths::places_of))]
    pub fn of(i: usize, buckets: usize) -> Places
        ensures { result ≡ places_of i buckets }
    {
        let seconds = i.saturating_mul(11);
        Places {
            seconds,
            counts: seconds.saturating_mul(buckets),
            sums: i.saturating_mul(buckets),
            peaks: i.saturating_mul(600),
        }
    }
}

// The lengths that a call asks for.
#[derive(Clone, Copy)]
pub struct Sizes {
    pub seconds: usize,
    pub counts: usize,
    pub sums: usize,
    pub peaks: usize,
    pub words: usize,
}

// The lengths of a delay file that is written, and of the flows and the delays that one is read into.
#[derive(Clone, Copy)]
pub struct FileSizes {
    pub file: usize,
    pub flows: usize,
    pub delays: usize,
}

// From `from` up to `to`. A part is cut only at two written ends.
#[derive(Clone, Copy)]
pub struct Span {
    pub from: usize,
    pub to: usize,
}

// The buckets a second of windows with these settings, as the library counts them; none where no supervisor has such an offset or maximum, or the
// width is 0: the call is refused then before its lists are asked for.
#[tactic(auto, using(buckets::proofs::Told::reaches_told), unfolding(crate::specs::Lengths::buckets_lent))]
pub fn buckets(offset: u32, maximum: u32, width: u32) -> usize
    ensures { result ≡ buckets_lent offset maximum width }
{
    if !buckets::reaches_allowed(offset, maximum) {
        return 0;
    }
    if width == 0 {
        return 0;
    }
    buckets::inner::buckets_of(offset, maximum, width)
}

// One place less where lists are to be short.
pub fn cut(length: usize, short: bool) -> usize
    ensures { result ≡ cut_to length short }
{
    if short {
        return length.saturating_sub(1);
    }
    length
}

// For n inputs and so many buckets a second.
#[tactic(auto, unfolding(crate::specs::Lengths::lengths_for))]
pub fn lengths(n: usize, buckets: usize, short: bool) -> Sizes
    ensures { result ≡ lengths_for n buckets short }
{
    let seconds = n.saturating_mul(11);
    Sizes {
        seconds: cut(seconds, short),
        counts: cut(seconds.saturating_mul(buckets), short),
        sums: cut(n.saturating_mul(buckets), short),
        peaks: cut(n.saturating_mul(600), short),
        words: cut(n.saturating_mul(12), short),
    }
}

// The buckets a second of a record's windows.
#[tactic(auto, unfolding(crate::specs::LentTo::buckets_held))]
pub fn buckets_in(inputs: Inputs) -> usize
    ensures { result ≡ buckets_held inputs }
{
    let policy = inputs.policy;
    buckets(policy.read_offset, policy.delay_max, inputs.width)
}

// The lengths of the lists that a call asks for: `new` by its settings, every other by the record.
#[tactic(auto, unfolding(crate::specs::LentTo::by_settings, crate::specs::LentTo::by_record))]
pub fn sizes_for(call: Call, inputs: Inputs, short: bool) -> Sizes
    ensures { result ≡ lent_to call inputs short }
{
    let Call::Change(Change::New(asked)) = call else {
        return lengths(inputs.count, buckets_in(inputs), short);
    };
    let settings = asked.settings;
    let n = buckets(settings.read_offset, settings.delay_max, settings.width);
    lengths(settings.count, n, short)
}

// The lengths of the lists that the reader and the writer of a delay file ask for.
#[tactic(auto, unfolding(crate::specs::Lengths::files_lent))]
pub fn file_sizes(short: bool) -> FileSizes
    ensures { result ≡ files_lent short }
{
    FileSizes {
        file: cut(1_287, short),
        flows: cut(1_024, short),
        delays: cut(64, short),
    }
}

// The first n of them, as far as there are any.
pub fn first<T>(s: &[T], n: usize) -> &[T]
    ensures { result.now ≡ take n s.now }
{
    let end = n.min(s.len());
    &s[..end]
}

// So many places from `first` on, of at most `most`.
#[tactic(auto, unfolding(crate::specs::Lengths::places_from))]
pub fn places_from(first: usize, count: usize, most: usize) -> Span
    ensures value { result ≡ places_from first count most }
    ensures from_le_to { (result.from ≤ result.to) × (result.to ≤ most) }
{
    let to = first.saturating_add(count).min(most);
    let from = first.min(most);
    Span { from, to }
}
