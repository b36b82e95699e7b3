// The lists of a line: kinds, looks, lags, loaded delays, rows and peaks.
ghost use Rattle.std.specs.Prelude.{◌≡◌, ℕ, ◌+◌, ◌*◌, ◌≤◌, length, List, Option};
ghost use Rattle.text_scan.specs.declared.Word.{Word};
ghost use Rattle.text_words.specs.Words.{read_as, passed_as};
ghost use Rattle.text_requests.specs.Lists.{kind_one, look_at, load_at, row_at, cell_at, peak_at, times, or_lost, kind_kept, look_kept, load_kept, sixteen, kinds_at, looks_at, loads_at, loaded_as, HalfPut, heard_as, lags_at, cells_end, rows_at};

use crate::parts::{flow_of, kind_of};
use rules_record::{AutoTag, ExtraDelay, Flow};
use rules_routing::World;
use rules_tick::Look;
use text_scan::{ends, is_at};
use text_words::Reader;

// The most delays that are loaded.
pub const MOST_LOADS: usize = 16_384;

// A place that no line has: no word stands there.
const LOST: usize = usize::MAX;

// ---- one of a list
pub trait Listed: Copy {
    ghost one_at: { List ℕ → ℕ → Option (Word Self) };

    fn read(r: &mut Reader<'_>) -> Option<Self>
        ensures read { read_as r.new.at result ≡ one_at r.old.s.now r.old.at }
        ensures same { r.new.s.now ≡ r.old.s.now };
}

impl Listed for ExtraDelay {
    ghost one_at = { kind_one };

    #[tactic(auto, unfolding(crate::specs::Lists::kind_one))]
    fn read(r: &mut Reader<'_>) -> Option<ExtraDelay> {
        let kind = r.kind(b' ')?;
        Some(kind_of(kind))
    }
}

impl Listed for Look {
    ghost one_at = { look_at };

    #[tactic(auto, unfolding(crate::specs::Lists::look_at))]
    fn read(r: &mut Reader<'_>) -> Option<Look> {
        let seen = r.maybe_u64(b' ')?;
        let world = World {
            inode: r.maybe_u64(b',')?,
            made: r.bit(b',')?,
            reader: r.maybe_u32(b',')?,
            head: r.u64(b',')?,
        };
        Some(Look {
            seen,
            world,
            applied: r.u32(b',')?,
            lags: r.u32(b',')? as usize,
        })
    }
}

// A flow and its delay, loaded at `new`.
#[derive(Clone, Copy)]
pub struct Load {
    pub flow: Flow,
    pub delay: u32,
}

impl Listed for Load {
    ghost one_at = { load_at };

    #[tactic(auto, unfolding(crate::specs::Lists::load_at))]
    fn read(r: &mut Reader<'_>) -> Option<Load> {
        let flow = r.flow(b' ')?;
        Some(Load {
            flow: flow_of(flow),
            delay: r.u32(b'=')?,
        })
    }
}

// A second's start and its total.
#[derive(Clone, Copy)]
pub struct Row {
    pub start: u64,
    pub total: u64,
}

impl Listed for Row {
    ghost one_at = { row_at };

    #[tactic(auto, unfolding(crate::specs::Lists::row_at))]
    fn read(r: &mut Reader<'_>) -> Option<Row> {
        Some(Row {
            start: r.u64(b' ')?,
            total: r.u64(b':')?,
        })
    }
}

// A count of a row, which is not 0.
#[derive(Clone, Copy)]
pub struct Cell {
    pub bucket: usize,
    pub count: u32,
}

impl Listed for Cell {
    ghost one_at = { cell_at };

    #[tactic(auto, unfolding(crate::specs::Lists::cell_at))]
    fn read(r: &mut Reader<'_>) -> Option<Cell> {
        Some(Cell {
            bucket: r.u32(b',')? as usize,
            count: r.u32(b'=')?,
        })
    }
}

#[derive(Clone, Copy)]
pub struct Peak {
    pub time: u64,
    pub lag: u32,
}

impl Listed for Peak {
    ghost one_at = { peak_at };

    #[tactic(auto, unfolding(crate::specs::Lists::peak_at))]
    fn read(r: &mut Reader<'_>) -> Option<Peak> {
        Some(Peak {
            time: r.u64(b' ')?,
            lag: r.u32(b':')?,
        })
    }
}

// ---- one of a list as it is kept, wrong or not
// The word that was found; where none was, the blank, and the reader is lost: nothing more is read, and no wrong word is read again.
fn or_lost<T: Copy>(found: Option<T>, none: T, r: &mut Reader<'_>) -> T
    ensures value { result ≡ (or_lost none (read_as r.old.at found)).value }
    ensures read { r.new.at ≡ (or_lost none (read_as r.old.at found)).next }
    ensures same { r.new.s.now ≡ r.old.s.now }
{
    let Some(value) = found else {
        r.at = LOST;
        return none;
    };
    value
}

// Each word up to the first wrong one, and blanks from there on; `pass` tells whether all are there.
trait Kept: Copy {
    ghost kept_at: { List ℕ → ℕ → Word Self };

    fn keep(r: &mut Reader<'_>) -> Self
        ensures value { result ≡ (kept_at r.old.s.now r.old.at).value }
        ensures read { r.new.at ≡ (kept_at r.old.s.now r.old.at).next }
        ensures same { r.new.s.now ≡ r.old.s.now };
}

impl Kept for ExtraDelay {
    ghost kept_at = { kind_kept };

    #[tactic(auto, unfolding(crate::specs::Lists::kind_kept))]
    fn keep(r: &mut Reader<'_>) -> ExtraDelay {
        let kind = or_lost(r.kind(b' '), None, r);
        kind_of(kind)
    }
}

impl Kept for Look {
    ghost kept_at = { look_kept };

    #[tactic(auto, unfolding(crate::specs::Lists::look_kept))]
    fn keep(r: &mut Reader<'_>) -> Look {
        let watch = or_lost(r.maybe_u64(b' '), None, r);
        let open = or_lost(r.maybe_u64(b','), None, r);
        let world = World {
            inode: open,
            made: or_lost(r.bit(b','), false, r),
            reader: or_lost(r.maybe_u32(b','), None, r),
            head: or_lost(r.u64(b','), 0, r),
        };
        Look {
            seen: watch,
            world,
            applied: or_lost(r.u32(b','), 0, r),
            lags: or_lost(r.u32(b','), 0, r) as usize,
        }
    }
}

impl Kept for Load {
    ghost kept_at = { load_kept };

    #[tactic(auto, unfolding(crate::specs::Lists::load_kept))]
    fn keep(r: &mut Reader<'_>) -> Load {
        let flow = or_lost(r.flow(b' '), 0, r);
        Load {
            flow: flow_of(flow),
            delay: or_lost(r.u32(b'='), 0, r),
        }
    }
}

// ---- so many
// To the place after n of them.
#[tactic(auto, using(crate::proofs::Loops::times_step, crate::proofs::Loops::times_end))]
pub fn pass<T: Listed>(r: &mut Reader<'_>, n: usize) -> Option<()>
    ensures read { passed_as r.new.at result ≡ times (T.one_at r.old.s.now) n r.old.at }
    ensures same { r.new.s.now ≡ r.old.s.now }
{
    for _i in 0..n {
        T::read(r)?;
    }
    Some(())
}

// The first n, at most 16, and blanks after them. By index: of `iter_mut().take(n)` no contract tells what the list then holds.
#[tactic(auto, using(crate::proofs::Sixteen::filling_more, crate::proofs::Sixteen::all_filled), unfolding(crate::specs::Lists::sixteen))]
fn sixteen<T: Kept>(mut r: Reader<'_>, n: usize, blank: T) -> [T; 16]
    ensures { result ≡ sixteen (T.kept_at r.entry.s.now) blank n r.entry.at }
{
    let mut all = [blank; 16];
    for i in 0..n.min(16) {
        all[i] = T::keep(&mut r);
    }
    all
}

// The first n kinds, at most 16. The line and a place, as of a request: who calls this, `looks_at` and `loads_at` holds no reader.
#[tactic(auto, unfolding(crate::specs::Lists::kinds_at))]
pub fn kinds_at(s: &[u8], at: usize, n: usize) -> [ExtraDelay; 16]
    ensures { result ≡ kinds_at s.now at n }
{
    sixteen(Reader { s, at }, n, ExtraDelay::Auto(AutoTag::Auto))
}

// What the tick brings for each of n inputs, at most 16, and nothing for an input that does not exist.
#[tactic(auto, unfolding(crate::specs::Lists::looks_at))]
pub fn looks_at(s: &[u8], at: usize, n: usize) -> [Look; 16]
    ensures { result ≡ looks_at s.now at n }
{
    let world = World {
        inode: None,
        made: false,
        reader: None,
        head: 0,
    };
    let nothing = Look {
        seen: None,
        world,
        applied: 0,
        lags: 0,
    };
    sixteen(Reader { s, at }, n, nothing)
}

// ---- lags
// `L`, and the lags up to the end of the line: how many. A line of at most 1 MiB has fewer than the list has places. By index: the
// index is the answer, and the contract speaks of the first so many.
#[tactic(auto, using(crate::proofs::Loops::lags_step, crate::proofs::Loops::lags_end), unfolding(crate::specs::Lists::lags_at))]
pub fn lags_at(r: &mut Reader<'_>, heard: &mut [u32]) -> Option<usize>
    ensures read { heard_as r.new.at result heard.new ≡ lags_at r.old.s.now r.old.at (length heard.old) }
    ensures same { r.new.s.now ≡ r.old.s.now }
{
    r.text(b" L")?;
    for i in 0..heard.len() {
        if ends(r.s, r.at) {
            return Some(i);
        }
        heard[i] = r.u32(b' ')?;
    }
    None
}

// ---- loaded delays
// Eight bytes from place 8 × i on, the first weighing most.
fn put_half(flows: &mut [u8], i: usize, value: u64)
    requires { i * 8 + 8 ≤ length flows.old }
    ensures { HalfPut (i * 8) value flows.old flows.new }
{
    flows[i * 8..i * 8 + 8].copy_from_slice(&value.to_be_bytes());
}

// n loaded delays, at most 16,384, into lists that have room for so many. By index: each goes to three places of two lists.
#[tactic(auto, using(crate::proofs::Loads::loading_more, crate::proofs::Loads::all_loaded))]
fn store_loads(mut r: Reader<'_>, n: usize, flows: &mut [u8], delays: &mut [u32])
    requires { (262144 ≤ length flows.old) × (16384 ≤ length delays.old) }
    ensures { loaded_as n flows.new delays.new ≡ loads_at r.entry.s.now r.entry.at n }
{
    for i in 0..n.min(MOST_LOADS) {
        let load = Load::keep(&mut r);
        put_half(flows, i * 2, load.flow.high);
        put_half(flows, i * 2 + 1, load.flow.low);
        delays[i] = load.delay;
    }
}

// n loaded delays, at most 16,384: the flows' bytes, 16 each, and their delays.
pub fn loads_at(
    s: &[u8],
    at: usize,
    n: usize,
    flows: &mut [u8; 262_144],
    delays: &mut [u32; 524_288],
)
    ensures { loaded_as n flows.new delays.new ≡ loads_at s.now at n }
{
    store_loads(Reader { s, at }, n, flows, delays);
}

// ---- rows
// The cells of a row, of buckets that exist.
#[tactic(auto, using(crate::proofs::Loops::cells_step, crate::proofs::Loops::cells_last), unfolding(crate::specs::Lists::cells_end))]
fn cells_end(r: &mut Reader<'_>, buckets: usize) -> Option<()>
    ensures read { passed_as r.new.at result ≡ cells_end r.old.s.now r.old.at buckets }
    ensures same { r.new.s.now ≡ r.old.s.now }
{
    for _i in 0..r.s.len() {
        if !is_at(r.s, r.at, b',') {
            return Some(());
        }
        let cell = Cell::read(r)?;
        if buckets <= cell.bucket {
            return None;
        }
    }
    None
}

// The rows up to the end of the line: how many.
#[tactic(auto, using(crate::proofs::Loops::rows_step, crate::proofs::Loops::rows_end), unfolding(crate::specs::Lists::rows_at))]
pub fn rows_at(r: &mut Reader<'_>, buckets: usize) -> Option<usize>
    ensures read { read_as r.new.at result ≡ rows_at r.old.s.now r.old.at buckets }
    ensures same { r.new.s.now ≡ r.old.s.now }
{
    for count in 0..r.s.len() {
        if ends(r.s, r.at) {
            return Some(count);
        }
        Row::read(r)?;
        cells_end(r, buckets)?;
    }
    None
}
