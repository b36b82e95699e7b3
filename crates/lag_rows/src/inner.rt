// Whether totals and sums are right (check 6), the sums when seconds go, and the quantile that a row of sums tells. These functions ask something of their caller; the crates above use them after their checks.
ghost use Rattle.std.specs.Prelude.{◌≡◌, ℕ, ◌+◌, ◌-◌, ◌*◌, ◌/◌, ◌%◌, ◌<◌, ◌≤◌, min, [], length, ◌==◌, slice_index, sum};
ghost use Rattle.base.specs.Choice.{both};
ghost use Rattle.base.specs.Limits.{buckets_limit, width_limit};
ghost use Rattle.base.specs.Lists.{sum_from};
ghost use Rattle.rules_window.specs.Window.{windowed};
ghost use Rattle.rules_window.specs.WholeWindow.{summed, tallies_right};
ghost use Rattle.rules_window.specs.InPlace.{less_row, less_rows};
ghost use Rattle.rules_window.specs.Quantile.{column, running, reach, found, quantile_upto, Placeable};
ghost use Rattle.rules_window.specs.ColumnSums.{right_sums, as_one_second};
ghost use Rattle.lag_rows.specs.Tallies.{row_places, rows_to, Covered, Columns, alike, totals_are};
ghost use Rattle.lag_rows.specs.Blocks.{Blocks};

use base::blank;
use rules_window::WindowView;

// The seconds that a window has room for, and the most lags that one of them counts.
pub const SECONDS: usize = 11;

pub const MOST: u64 = 4_294_967_295;

// How many columns are summed before they are compared.
const BLOCK: usize = 512;

// ---- rows and columns one by one, in 64 bits
// The sum of a row.
fn long_sum(row: &[u32]) -> u64
    requires { length row.now ≤ buckets_limit }
    ensures { result ≡ sum row.now }
{
    row.iter().map(|x| u64::from(*x)).sum()
}

// Row sums equal to totals up to 4,294,967,295, in all 11 rows. A loop: a closure would have to be told that i is a row.
fn long_rows(buckets: usize, totals: &[u64], counts: &[u32]) -> bool
    requires { (buckets ≤ buckets_limit) × (length totals.now ≡ 11) × (length counts.now ≡ 11 * buckets) }
    ensures { result ≡ summed 11 buckets totals.now counts.now }
{
    for (i, total) in totals.iter().enumerate() {
        if MOST < *total || long_sum(&counts[i * buckets..i * buckets + buckets]) != *total {
            return false;
        }
    }
    true
}

// The lags of bucket b in the 11 rows. Column by column, here and below: a count stands at r · B + b, so its place is counted.
fn long_column(counts: &[u32], buckets: usize, b: usize) -> u64
    requires { (b < buckets) × (length counts.now ≡ 11 * buckets) }
    ensures { (result ≡ column buckets b 11 counts.now) × (result ≤ 47244640245) }
{
    let mut total: u64 = 0;
    for r in 0..SECONDS {
        total += u64::from(counts[r * buckets + b]);
    }
    total
}

// Each sum is that of its bucket in the 11 rows. A loop, as in `long_rows`.
fn long_columns(buckets: usize, counts: &[u32], sums: &[u64]) -> bool
    requires { (length counts.now ≡ 11 * buckets) × (length sums.now ≡ buckets) }
    ensures { result ≡ right_sums (windowed 11 buckets 0 [] [] counts.now) sums.now }
{
    for (b, sum) in sums.iter().enumerate() {
        if long_column(counts, buckets, b) != *sum {
            return false;
        }
    }
    true
}

// ---- all rows and columns at once, in 32 bits
// Where each of the 11 rows begins. A caller makes this and lends it to `right`: a loop over the buckets then reads every row by a pointer of its own and computes no address.
#[derive(Clone, Copy)]
pub struct RowPlaces {
    places: [usize; SECONDS],
    pub buckets: usize,
    ghost begin: { places ≡ row_places buckets },
    ghost few: { buckets ≤ buckets_limit },
}

pub fn row_places(buckets: usize) -> RowPlaces
    requires { buckets ≤ buckets_limit }
    ensures { result.buckets ≡ buckets }
{
    RowPlaces {
        places: [
            0,
            buckets,
            2 * buckets,
            3 * buckets,
            4 * buckets,
            5 * buckets,
            6 * buckets,
            7 * buckets,
            8 * buckets,
            9 * buckets,
            10 * buckets,
        ],
        buckets,
    }
}

// Where bucket b of row r stands.
fn place(places: &RowPlaces, r: usize, b: usize) -> usize
    requires { (r < 11) × (b < places.now.buckets) }
    ensures { (result ≡ r * places.now.buckets + b) × (result < 11 * places.now.buckets) }
{
    places.places[r] + b
}

// The sum of a column modulo 2^32, and the bits of all counts passed, joined: no count is larger.
#[derive(Clone, Copy)]
struct Column {
    sum: u32,
    bits: u32,
}

// Bucket b of the 11 rows: each count is added to its row's sum and to the column's.
fn add_column(rows: &mut [u32], bits: u32, places: &RowPlaces, b: usize, counts: &[u32]) -> Column
    requires b_lt_buckets { (b < places.now.buckets) × (length counts.now ≡ 11 * places.now.buckets) × (length rows.old ≡ 11) }
    requires rows_value { rows.old ≡ rows_to places.now.buckets b counts.now }
    requires covered { Covered places.now.buckets b bits counts.now }
    ensures rows_after { rows.new ≡ rows_to places.now.buckets (b + 1) counts.now }
    ensures covered_2 { Covered places.now.buckets (b + 1) result.bits counts.now }
    ensures sum_value { result.sum ≡ column places.now.buckets b 11 counts.now % 4294967296 }
{
    let mut sum: u32 = 0;
    let mut joined = bits;
    for r in 0..SECONDS {
        let x = counts[place(places, r, b)];
        rows[r] = rows[r].wrapping_add(x);
        sum = sum.wrapping_add(x);
        joined |= x;
    }
    Column { sum, bits: joined }
}

// The k buckets from `from` on, which are no part of a list: they stand in each of the rows. No number of 64 bits stands in this loop, so that the compiler may take four buckets at once.
fn add_columns(
    rows: &mut [u32],
    columns: &mut [u32],
    bits: u32,
    places: &RowPlaces,
    from: usize,
    k: usize,
    counts: &[u32],
) -> u32
    requires k_bound { (from + k ≤ places.now.buckets) × (length counts.now ≡ 11 * places.now.buckets) × (length rows.old ≡ 11) × (k ≤ length columns.old) }
    requires rows_value { rows.old ≡ rows_to places.now.buckets from counts.now }
    requires covered { Covered places.now.buckets from bits counts.now }
    ensures rows_after { rows.new ≡ rows_to places.now.buckets (from + k) counts.now }
    ensures covered_2 { Covered places.now.buckets (from + k) result counts.now }
    ensures columns { Columns places.now.buckets from k counts.now columns.new }
{
    let mut joined = bits;
    for i in 0..k {
        let column = add_column(rows, joined, places, from + i, counts);
        columns[i] = column.sum;
        joined = column.bits;
    }
    joined
}

// The bits in which k columns differ from the sums from `from` on, joined to those of the columns before.
fn differing(columns: &[u32], from: usize, k: usize, wrong: u64, sums: &[u64]) -> u64
    requires { (k ≤ length columns.now) × (from + k ≤ length sums.now) }
    ensures { (result == 0) ≡ both (wrong == 0) (alike from k columns.now sums.now) }
{
    let mut joined = wrong;
    for (i, column) in columns[..k].iter().enumerate() {
        joined |= sums[from + i] ^ u64::from(*column);
    }
    joined
}

// Each row's sum is its total. By its index: two iterators side by side cost each check of a window more.
fn totals_are(rows: &[u32; SECONDS], totals: &[u64]) -> bool
    requires { length totals.now ≡ 11 }
    ensures { result ≡ totals_are 11 rows.now totals.now }
{
    for r in 0..SECONDS {
        if u64::from(rows[r]) != totals[r] {
            return false;
        }
    }
    true
}

// Row sums equal to totals, and column sums to the sums: one pass reads each count once, and the 11 of a bucket side by side.
// 11 counts below 2^20 have a sum below 2^24, and 4,096 one below 2^32, so that sums of 32 bits have not wrapped; else those of 64 bits are taken.
fn sums_right(places: &RowPlaces, lists: WindowView<'_>) -> bool
    requires { (length lists.totals.now ≡ 11) × (length lists.counts.now ≡ 11 * places.now.buckets) × (length lists.sums.now ≡ places.now.buckets) }
    ensures { result ≡ tallies_right places.now.buckets lists.entry.totals.now lists.entry.counts.now lists.entry.sums.now }
{
    let buckets = places.buckets;
    let mut rows = [0u32; SECONDS];
    let mut columns = [0u32; BLOCK];
    let mut bits: u32 = 0;
    let mut wrong: u64 = 0;
    for b in (0..buckets).step_by(BLOCK) {
        let k = BLOCK.min(buckets - b);
        bits = add_columns(&mut rows, &mut columns, bits, places, b, k, lists.counts);
        wrong = differing(&columns, b, k, wrong, lists.sums);
    }
    if bits < 1_048_576 {
        return wrong == 0 && totals_are(&rows, lists.totals);
    }
    long_rows(buckets, lists.totals, lists.counts)
        && long_columns(buckets, lists.counts, lists.sums)
}

// Row sums equal to totals up to 4,294,967,295, and each sum that of its bucket, over all 11 rows. Where all totals are zero nothing is added.
pub fn right(places: &RowPlaces, lists: WindowView<'_>) -> bool
    requires { (0 < places.now.buckets) × (length lists.totals.now ≡ 11) × (length lists.counts.now ≡ 11 * places.now.buckets) × (length lists.sums.now ≡ places.now.buckets) }
    ensures { result ≡ tallies_right places.now.buckets lists.entry.totals.now lists.entry.counts.now lists.entry.sums.now }
{
    if blank(lists.totals, 0) {
        return blank(lists.counts, 0) && blank(lists.sums, 0);
    }
    sums_right(places, lists)
}

// ---- seconds go
// The lags of row r are taken off the sums.
fn take_row(buckets: usize, r: usize, counts: &[u32], sums: &mut [u64])
    requires r_bound { (r < 11) × (length counts.now ≡ 11 * buckets) × (length sums.old ≡ buckets) }
    requires by_index { (b : ℕ) → b < buckets → slice_index counts.now (r * buckets + b) ≤ slice_index sums.old b }
    ensures { sums.new ≡ less_row buckets r counts.now sums.old }
{
    let row = r * buckets;
    for (b, sum) in sums.iter_mut().enumerate() {
        *sum -= u64::from(counts[row + b]);
    }
}

// The lags of the k oldest seconds are taken off the sums.
pub fn take_rows(buckets: usize, k: usize, counts: &[u32], sums: &mut [u64])
    requires k_bound { (k ≤ 11) × (length counts.now ≡ 11 * buckets) × (length sums.old ≡ buckets) }
    requires by_index { (b : ℕ) → b < buckets → column buckets b k counts.now ≤ slice_index sums.old b }
    ensures { sums.new ≡ less_rows buckets k counts.now sums.old }
{
    for r in 0..k {
        take_row(buckets, r, counts, sums);
    }
}

// ---- the quantile that a row of sums tells: nothing else is read
fn total(xs: &[u64]) -> u64
    requires { sum xs.now ≤ 47244640245 }
    ensures { result ≡ sum xs.now }
{
    xs.iter().sum()
}

// b times the width.
fn edge(b: usize, width: u32) -> u32
    requires { (b ≤ buckets_limit) × (width ≤ width_limit) }
    ensures { result ≡ b * width }
{
    (b as u32) * width
}

// A row of sums, of which the buckets that start at most at limit are counted: in these are at most 11 full seconds of lags.
#[derive(Clone, Copy)]
struct SumsUpto<'a> {
    limit: u32,
    width: u32,
    buckets: usize,
    sums: &'a [u64],
    ghost shape: { (1 ≤ width) × (buckets ≤ buckets_limit) × (length sums.now ≡ buckets) },
    ghost few: { running limit width buckets 1 sums.now buckets ≤ 47244640245 },
}

// How many buckets are counted.
fn shown(row: SumsUpto<'_>) -> usize
    ensures { result ≡ min row.entry.buckets (row.entry.limit / row.entry.width + 1) }
{
    row.buckets.min((row.limit / row.width) as usize + 1)
}

// The sum of the first m numbers, of which there are at most 4,096: 64 blocks of 64. The sums of the whole blocks are kept, for the search, each in its place.
// m, and not the part up to it: what is said of the blocks is said of the list as it is lent.
fn add_blocks(m: usize, sums: &[u64], blocks: &mut [u64; 64]) -> u64
    requires m_in_bounds { (m ≤ length sums.now) × (m ≤ buckets_limit) }
    requires sums_bound { sum_from 0 m sums.now ≤ 47244640245 }
    ensures value { result ≡ sum_from 0 m sums.now }
    ensures blocks { Blocks m sums.now blocks.new }
{
    let whole = m / 64;
    let mut all: u64 = 0;
    for i in 0..whole {
        let more = total(&sums[64 * i..64 * i + 64]);
        blocks[i] = more;
        all += more;
    }
    all + total(&sums[64 * whole..m])
}

// The lags in the buckets that are counted, and their blocks.
fn total_upto(row: SumsUpto<'_>, blocks: &mut [u64; 64]) -> u64
    ensures value { result ≡ running row.entry.limit row.entry.width row.entry.buckets 1 row.entry.sums.now row.entry.buckets }
    ensures blocks { Blocks (min row.entry.buckets (row.entry.limit / row.entry.width + 1)) row.entry.sums.now blocks.new }
{
    add_blocks(shown(row), row.sums, blocks)
}

// The first bucket, of those from `from` on, where the running count reaches target; `before` is the running count up to there.
fn reached_from(row: SumsUpto<'_>, target: u64, from: usize, before: u64) -> Option<usize>
    requires from_bound { (from ≤ min row.buckets (row.limit / row.width + 1)) × (1 ≤ from → before < target) }
    requires before_value { before ≡ running row.limit row.width row.buckets 1 row.sums.now from }
    ensures { result ≡ reach target row.entry.limit row.entry.width row.entry.buckets 1 row.entry.sums.now (row.entry.buckets - from) from }
{
    let mut seen: u64 = before;
    for b in from..shown(row) {
        seen += row.sums[b];
        if target <= seen {
            return Some(b);
        }
    }
    None
}

// The first bucket where the running count reaches target: only the block of 64 buckets that reaches it is walked bucket by bucket.
fn reached(row: SumsUpto<'_>, target: u64, blocks: &[u64; 64]) -> Option<usize>
    requires { Blocks (min row.buckets (row.limit / row.width + 1)) row.sums.now blocks.now }
    ensures { result ≡ reach target row.entry.limit row.entry.width row.entry.buckets 1 row.entry.sums.now row.entry.buckets 0 }
{
    let whole = shown(row) / 64;
    let mut seen: u64 = 0;
    for (i, more) in blocks[..whole].iter().enumerate() {
        if target <= seen + more {
            return reached_from(row, target, 64 * i, seen);
        }
        seen += more;
    }
    reached_from(row, target, 64 * whole, seen)
}

// The quantile q of the lags up to limit: one pass sums the row, and the sums of its blocks lead to the bucket.
pub fn quantile_upto(buckets: usize, width: u32, q: f64, limit: u32, sums: &[u64]) -> Option<u32>
    requires buckets_le_buckets_limit { (buckets ≤ buckets_limit) × (1 ≤ width) × (width ≤ width_limit) }
    requires sums_len { length sums.now ≡ buckets }
    requires placeable { Placeable q limit (as_one_second buckets width sums.now) }
    ensures { found result ≡ quantile_upto q limit (as_one_second buckets width sums.now) }
{
    let row = SumsUpto {
        limit,
        width,
        buckets,
        sums,
    };
    let mut blocks = [0u64; 64];
    let total = total_upto(row, &mut blocks);
    if total == 0 {
        return None;
    }
    let target = doubles::inner::quantile_place(total, q);
    let b = reached(row, target, &blocks)?;
    Some(edge(b + 1, width))
}
