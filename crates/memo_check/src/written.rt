// Short runs that are written out whole, and rows that no store wrote.

ghost use Rattle.std.specs.Prelude.{◌≤◌, ◌<◌, length};

use crate::lent::{Buffers, RANGE, number, store, value, with_memo};
use memo::Memo;
use std::fmt::{self, Display, Formatter, Write};
use std::io;
use table::{Entry, Interval, Table};
use words::Bitset;

// A store of a run: three words of the key, the bounds, the best move (`_` for none) and the nodes, a byte for each.
type Row = [u8; 7];

// The number that a byte of a run stands for: 0 for `0` and so on, 17 for `A`, 47 for `_`. (Such a byte is no type of its own, so that a `From` would be no plainer.)
fn number_of(byte: u8) -> u64
    ensures { result < 48 }
{
    u64::from(byte) % 48
}

// A bound by its byte: 0 to 15 as it is, 16 more for a minus.
fn bound(byte: u8) -> f64 {
    let n = number_of(byte);
    value(n % 16 + n / 16 * 0x10_0000, 16)
}

// The entry of a store.
fn entry(row: &Row) -> Entry {
    let bounds = Interval {
        lo: bound(row[3]),
        hi: bound(row[4]),
    };
    let best = number_of(row[5]);
    Entry {
        bounds,
        best: (best != 47).then_some(best),
    }
}

// The key of a store.
fn key(row: &Row) -> Bitset {
    Bitset {
        a: number_of(row[0]),
        b: number_of(row[1]),
        c: number_of(row[2]),
        ..Bitset::EMPTY
    }
}

// What a get gives: the bits of its bounds and its best move.
#[derive(Clone, Copy)]
struct Got(Option<Entry>);

impl Display for Got {
    fn fmt<W: Write>(&self, f: &mut Formatter<W>) -> fmt::Result {
        match self.0 {
            Some(entry) => {
                let lo = whole::value_bits(entry.bounds.lo);
                let hi = whole::value_bits(entry.bounds.hi);
                let best = number(entry.best);
                write!(f, "{lo} {hi} {best}")
            }
            None => f.write_str("-"),
        }
    }
}

// A list, with one space before each item.
#[derive(Clone, Copy)]
struct Spaced<'a, T>(&'a [T]);

impl<'a, T: Display> Display for Spaced<'a, T> {
    fn fmt<W: Write>(&self, f: &mut Formatter<W>) -> fmt::Result {
        for item in self.0 {
            write!(f, " {item}")?;
        }
        Ok(())
    }
}

// Writes what a get of a key gives; moves 0 to 10 are moves.
fn look(rt: &impl Print, memo: &Memo, key: Bitset) -> io::Result<()> {
    let moves = Bitset {
        a: 2047,
        ..Bitset::EMPTY
    };
    println!(rt; "get {}", Got(memo.get(RANGE, key, moves)))
}

// Writes what a run left, and what a get of each of its keys gives.
fn show(rt: &impl Print, memo: &Memo, run: &[Row]) -> io::Result<()> {
    println!(rt; "words{}", Spaced(memo.words))?;
    println!(rt; "tags{}", Spaced(memo.tags))?;
    println!(rt; "dictionary{}", Spaced(memo.dictionary()))?;
    for row in run {
        look(rt, memo, key(row))?;
    }
    Ok(())
}

// The stores of a run.
fn store_all(memo: &mut Memo, run: &[Row]) {
    for row in run {
        store(memo, key(row), entry(row), number_of(row[6]));
    }
}

// A short run on one table, written out whole.
fn written(
    rt: &impl Print,
    lent: &mut Buffers,
    entries: usize,
    key_words: usize,
    // (a plain answer, as in the `Table` of crate table)
    compact: bool,
    run: &[Row],
) -> io::Result<()>
    requires { (1 ≤ entries) × (entries ≤ 1024) × (2 ≤ key_words) × (key_words ≤ 4) }
{
    let table = Table::new(entries, 64 * key_words, compact);
    with_memo(lent, table, |memo| {
        store_all(memo, run);
        show(rt, memo, run)
    })
}

// Six stores in one bucket: one is met with its row, and the last replaces the weakest.
pub(crate) fn six(rt: &impl Print, lent: &mut Buffers) -> io::Result<()> {
    let run = [
        *b"100A103",
        *b"2000011",
        *b"300A0_0",
        *b"1000111",
        *b"4001129",
        *b"500AA02",
    ];
    written(rt, lent, 5, 2, true, &run)
}

// Ten stores in two buckets: both fill, and the second is used.
pub(crate) fn ten(rt: &impl Print, lent: &mut Buffers) -> io::Result<()> {
    let run = [
        *b"101D512",
        *b"202C524",
        *b"303B531",
        *b"404A543",
        *b"5050550",
        *b"6061562",
        *b"7072574",
        *b"8083581",
        *b"9094593",
        *b":0:55:0",
    ];
    written(rt, lent, 8, 3, false, &run)
}

// A row under key 1 of generation 2, and a dictionary of 0, 2,000,000 and a NaN; no store wrote them.
fn alter(memo: &mut Memo, meta: u64) {
    for (word, value) in memo.words.iter_mut().zip([1, 0, meta]) {
        *word = value;
    }
    if let Some(tag) = memo.tags.first_mut() {
        *tag = 177;
    }
    let numbers = [0, 0x413e_8480_0000_0000, 0x7ff8_0000_0000_0000];
    for (word, value) in memo.dict.iter_mut().zip(numbers) {
        *word = value;
    }
    memo.entered = 3;
}

// What a get of key 1 gives where its row has that meta word. A bound that is no number between the net's bounds, or whose index lies past the dictionary, reads as the net's own,
// and a move that is none as none; a row of the counted engine (bit 63) is not found.
pub(crate) fn altered(rt: &impl Print, lent: &mut Buffers, meta: u64) -> io::Result<()> {
    let table = Table::new(5, 128, true);
    let key = Bitset {
        a: 1,
        ..Bitset::EMPTY
    };
    with_memo(lent, table, |memo| {
        alter(memo, meta);
        look(rt, memo, key)
    })
}
