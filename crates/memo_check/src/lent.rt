// The memory that each memo is made in, and what all of them share.

ghost use Rattle.std.specs.Prelude.{◌≤◌, ◌<◌, length};

use memo::Memo;
use table::{Entry, Interval, Table};
use words::Bitset;

// The bounds of every value.
pub(crate) const RANGE: Interval = Interval {
    lo: -1000000.0,
    hi: 1000000.0,
};

// The words and tags of the largest memo.
pub(crate) const WORDS: usize = 7168;

pub(crate) const TAGS: usize = 1024;

// Memory for the largest memo.
#[derive(Drop)]
pub(crate) struct Buffers<'a> {
    pub words: &'a mut [u64],
    pub tags: &'a mut [u8],
    pub dict: &'a mut [u64],
    ghost words_fit: { 7168 ≤ length words.now },
    ghost tags_fit: { 1024 ≤ length tags.now },
    ghost dict_fits: { 255 ≤ length dict.now },
}

// What some work gives on a cleared memo of generation 2, in the first of the words and tags.
fn work_in<R, F: FnOnce(&mut Memo) -> R>(
    words: &mut [u64],
    tags: &mut [u8],
    dict: &mut [u64],
    table: Table,
    work: F,
) -> R
    requires called { F.IsAlwaysCallable work }
    requires fits { (7168 ≤ length words.old) × (1024 ≤ length tags.old) × (255 ≤ length dict.old) }
{
    let total = table.words();
    let rows = table.rows();
    let mut memo = Memo {
        table,
        words: &mut words[..total],
        tags: &mut tags[..rows],
        dict,
        entered: 0,
        generation: 2,
    };
    memo.clear();
    work(&mut memo)
}

// The same in lent memory.
pub(crate) fn with_memo<R, F: FnOnce(&mut Memo) -> R>(
    lent: &mut Buffers,
    table: Table,
    work: F,
) -> R
    requires { F.IsAlwaysCallable work }
{
    work_in(lent.words, lent.tags, lent.dict, table, work)
}

// Stores an entry whose bounds lie in the range.
pub(crate) fn store(memo: &mut Memo, key: Bitset, entry: Entry, nodes: u64) {
    if RANGE.contains(entry.bounds.lo) && RANGE.contains(entry.bounds.hi) {
        memo.store(RANGE, key, entry, nodes);
    }
}

// A whole number of size below span, by a number of a sequence.
pub(crate) fn value(r: u64, span: u64) -> f64
    requires { (0 < span) × (span ≤ 1000001) }
{
    let v = whole::of_i64((r % span) as i64);
    if r / 0x10_0000 % 2 == 0 { v } else { 0.0 - v }
}

// A best move as a number, 32 ones for none: what the Rust's list has, which the hashes and the lines of the file stdout are of.
pub(crate) fn number(best: Option<u64>) -> u64 {
    best.unwrap_or(0xFFFF_FFFF)
}
