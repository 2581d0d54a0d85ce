// Replays of long sequences on tables of each kind, by their hashes.

ghost use Rattle.std.specs.Prelude.{◌≤◌, ◌<◌};

use crate::lent::{Buffers, RANGE, number, store, value, with_memo};
use memo::Memo;
use std::io;
use table::{Entry, Interval, Table};
use words::Bitset;

// Where a replay stands.
#[derive(Clone, Copy)]
struct ReplayState {
    seed: u64,
    hash: u64,
}

// The next number of a sequence (xorshift, 64 bits).
fn next(s: u64) -> u64 {
    let a = s ^ (s << 13);
    let b = a ^ (a >> 7);
    b ^ (b << 17)
}

// Word j of key number at, 0 past the table's key words.
fn key_word(at: u64, j: u64, count: usize) -> u64
    requires { (at < 4096) × (j < 4) }
{
    if (j as usize) < count {
        words::wrapping_mul64(at * 4 + j + 1, 0xD6E8_FEB8_6659_FD93)
    } else {
        0
    }
}

// Key number at.
fn key(at: u64, count: usize) -> Bitset
    requires { at < 4096 }
{
    Bitset {
        a: key_word(at, 0, count),
        b: key_word(at, 1, count),
        c: key_word(at, 2, count),
        d: key_word(at, 3, count),
    }
}

// A hash with what a get answers.
fn hashed_got(hash: u64, got: Option<Entry>) -> u64 {
    match got {
        Some(entry) => {
            let lo = whole::value_bits(entry.bounds.lo);
            let hi = whole::value_bits(entry.bounds.hi);
            test_cases::hashed_words(hash, &[lo, hi, number(entry.best)])
        }
        None => test_cases::hashed(hash, 7),
    }
}

// A hash with what a get of key number at answers, where every move is one.
fn hashed_get(hash: u64, memo: &Memo, at: u64) -> u64
    requires { at < 4096 }
{
    let got = memo.get(RANGE, key(at, memo.table.key_words), Bitset::FULL);
    hashed_got(hash, got)
}

// The best move by a number of the sequence: one of 256, or none.
fn best(r: u64) -> Option<u64> {
    let t = r % 257;
    (t < 256).then_some(t)
}

// One turn: a get of the key drawn, a store by two more numbers, or a new generation.
fn turn(memo: &mut Memo, state: ReplayState, pool: u64, span: u64) -> ReplayState
    requires { (0 < pool) × (pool ≤ 4096) × (0 < span) × (span ≤ 1000001) }
{
    let a = next(state.seed);
    let b = next(a);
    let c = next(b);
    let at = a / 64 % pool;
    let mut hash = state.hash;
    match b % 64 {
        0..24 => hash = hashed_get(hash, memo, at),
        24 => memo.generation = memo.generation % 127 + 1,
        _ => {
            let bounds = Interval {
                lo: value(b / 64, span),
                hi: value(c / 64, span),
            };
            let best = best(a / 0x1_0000_0000);
            let key = key(at, memo.table.key_words);
            store(memo, key, Entry { bounds, best }, c % 0x10000);
        }
    }
    ReplayState { seed: c, hash }
}

// The size of values: a compact table gets few bounds at first, and then more than its dictionary holds.
fn span(compact: bool, first: bool) -> u64
    ensures { (0 < result) × (result ≤ 1000001) }
{
    if !compact {
        1000001
    } else if first {
        9
    } else {
        300
    }
}

// So many turns; the hash of what the gets answered.
fn turns(memo: &mut Memo, entries: u64, seed: u64) -> u64
    requires { entries ≤ 1024 }
{
    let compact = memo.table.compact;
    let count = 400 + 24 * entries;
    let mut state = ReplayState {
        seed,
        hash: test_cases::HASH_START,
    };
    for i in 0..count {
        let span = span(compact, i * 2 < count);
        state = turn(memo, state, 2 * entries + 1, span);
    }
    state.hash
}

// A hash with every word and tag, and the dictionary.
fn hashed_memo(hash: u64, memo: &Memo) -> u64 {
    let hash = test_cases::hashed_bytes(test_cases::hashed_words(hash, memo.words), memo.tags);
    test_cases::hashed_words(hash, memo.dictionary())
}

// The line of one table.
fn replay(
    rt: &impl Print,
    lent: &mut Buffers,
    entries: usize,
    key_words: usize,
    // (a plain answer, as in the `Table` of crate table)
    compact: bool,
    seed: u64,
) -> io::Result<()>
    requires { (1 ≤ entries) × (entries ≤ 1024) × (2 ≤ key_words) × (key_words ≤ 4) }
{
    let table = Table::new(entries, 64 * key_words, compact);
    let (count, hash) = with_memo(lent, table, |memo| {
        let hash = turns(memo, entries as u64, seed);
        (memo.entered, hashed_memo(hash, memo))
    });
    let compact = u64::from(compact);
    println!(rt; "{entries} {key_words} {compact} {count} {hash}")
}

// The entries of table j. (A `match`, not a table: of each arm it is seen alone that its number lies between the two.)
fn entries_of(j: usize) -> usize
    ensures { (1 ≤ result) × (result ≤ 1024) }
{
    match j {
        0 => 1,
        1 => 2,
        2 => 3,
        3 => 4,
        4 => 5,
        5 => 7,
        6 => 8,
        7 => 1023,
        _ => 1024,
    }
}

// A line for each number of entries, with and without a dictionary, and for keys of two to four words.
pub(crate) fn replay_all(rt: &impl Print, lent: &mut Buffers) -> io::Result<()> {
    for i in 0..54 {
        let compact = i / 3 % 2 == 1;
        let seed = 88172645463325252 + i as u64;
        replay(rt, lent, entries_of(i / 6), 2 + i % 3, compact, seed)?;
    }
    Ok(())
}
