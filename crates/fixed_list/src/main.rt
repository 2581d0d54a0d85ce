// Replays a list of cases (lists/README.md) from standard input: each case is called on memory filled as the list says, and its answer and the hash of the memory left are compared.
// Writes one line: how many sheets and cases, how many cases gave what the list says, and whether the list is whole.

#![tactic(auto)]

ghost use Rattle.std.specs.Prelude.{◌≤◌, length};

use arrayvec::{ArrayString, ArrayVec};
use input::Settings;
use report::Report;
use rules::Answer;
use std::fmt::Write;
use std::io;
use std::io::Read;
use std::str::FromStr;
use test_cases::{HASH_START, Sheet};

// The first line of each report.
const HEADING: &[u8] = b"answer move value nodes\n";

// A case: the settings, the lengths of the memory, and the end of its line, an answer and a hash.
#[derive(Clone, Copy)]
struct ListCase<'a> {
    settings: Settings<'a>,
    words: usize,
    tags: usize,
    end: &'a [u8],
}

// The number of a decimal text.
fn number<T: FromStr>(text: &[u8]) -> Option<T>
where
    T::Err: Drop,
{
    std::str::from_utf8(text).ok()?.parse::<T>().ok()
}

// The case of a line.
fn read_case(line: &[u8]) -> Option<ListCase<'_>> {
    let mut fields = line.splitn(9, |b| *b == b' ').skip(1);
    Some(ListCase {
        settings: Settings {
            budget: number(fields.next()?)?,
            entries: number(fields.next()?)?,
            driver: number(fields.next()?)?,
            filters: number(fields.next()?)?,
            chain: fields.next()?,
        },
        words: number(fields.next()?)?,
        tags: number(fields.next()?)?,
        end: fields.next()?,
    })
}

// The pieces of a chain: `-` stands for none, else each byte for the piece and 48. (Not as in program `solve`, whose chain is digits alone, in bytes that it may write.)
fn pieces(chain: &[u8]) -> ArrayVec<u8, 128> {
    let mut all = ArrayVec::new();
    if chain != b"-".as_slice() {
        for b in chain {
            let _ = all.try_push(b.wrapping_sub(48));
        }
    }
    all
}

// Whether the end of a line is an answer, as the second line of its report, a space and a hash.
fn ends_in(end: &[u8], answer: Answer, hash: u64) -> bool {
    let mut text = ArrayString::<160>::new();
    if write!(text, "{}{hash:016x}", Report(answer)).is_err() {
        return false;
    }
    let Some(shown) = text.as_str().as_bytes().strip_prefix(HEADING) else {
        return false;
    };
    shown.len() == end.len()
        && shown
            .iter()
            .zip(end)
            .all(|(b, x)| *b == *x || (*b == b'\n' && *x == b' '))
}

// Whether a case on a sheet gives what the list says, on memory that is lent.
fn holds(case: ListCase, sheet: &[u8], words: &mut [u64], tags: &mut [u8]) -> bool {
    for (i, w) in words.iter_mut().enumerate() {
        *w = 0xA5A5_A5A5_0000_0000 | i as u64;
    }
    for (i, t) in tags.iter_mut().enumerate() {
        *t = (i % 255 + 1) as u8;
    }
    let settings = case.settings;
    let chain = pieces(settings.chain);
    let answer = game::choose(
        sheet,
        settings.budget,
        settings.entries,
        settings.driver,
        settings.filters,
        chain.as_slice(),
        words,
        tags,
    );
    let hash = test_cases::hashed_bytes(test_cases::hashed_words(HASH_START, words), tags);
    ends_in(case.end, answer, hash)
}

// Whether the case of a line holds; a line that is no case, or asks for more memory than there is, does not.
fn line_holds(line: &[u8], sheet: &[u8], words: &mut [u64], tags: &mut [u8]) -> bool {
    let Some(case) = read_case(line) else {
        return false;
    };
    if words.len() < case.words || tags.len() < case.tags {
        return false;
    }
    holds(
        case,
        sheet,
        &mut words[..case.words],
        &mut tags[..case.tags],
    )
}

// How far the list is read: how many sheets and cases there were, how many held, whether the last line was right, and the hash of all lines.
// (`whole` is a plain answer: no value goes with it that an Option would carry.)
#[derive(Clone, Copy)]
struct Totals {
    sheets: u64,
    cases: u64,
    held: u64,
    whole: bool,
    hash: u64,
}

impl Totals {
    // Whether the last line, `e`, gives the sheets, the cases, and the hash of all before.
    fn closes(&self, line: &[u8]) -> bool {
        let mut text = ArrayString::<128>::new();
        let (sheets, cases, hash) = (self.sheets, self.cases, self.hash);
        let is_written = write!(text, "e {sheets} {cases} {hash:016x}").is_ok();
        is_written && text.as_str().as_bytes() == line
    }
}

// A line of the list, with its byte 10.
fn step(totals: &mut Totals, line: &[u8], sheet: &mut Sheet, words: &mut [u64], tags: &mut [u8]) {
    let text = line.strip_suffix(b"\n").unwrap_or(line);
    match text.first() {
        Some(b'c') => {
            totals.cases = totals.cases.wrapping_add(1);
            if line_holds(text, sheet.text(), words, tags) {
                totals.held = totals.held.wrapping_add(1);
            }
        }
        Some(b'e') => totals.whole = totals.closes(text),
        Some(b's') => {
            totals.sheets = totals.sheets.wrapping_add(1);
            sheet.build(text);
        }
        _ => sheet.build(text),
    }
    totals.hash = test_cases::hashed_bytes(totals.hash, line);
}

// Goes through lines of the list.
fn steps(totals: &mut Totals, lines: &[u8], sheet: &mut Sheet, words: &mut [u64], tags: &mut [u8]) {
    for line in lines.split_inclusive(|b| *b == b'\n') {
        step(totals, line, sheet, words, tags);
    }
}

// How many bytes the lines have that are ended.
fn ended(part: &[u8]) -> usize
    ensures { result ≤ length part.now }
{
    match part.iter().rposition(|b| *b == b'\n') {
        Some(last) => last + 1,
        None => 0,
    }
}

// Reads the list part by part, and goes through the lines that are ended. No list takes 64 turns.
fn all<R: Read>(
    reader: &mut R,
    part: &mut [u8],
    bytes: &mut [u8],
    words: &mut [u64],
    tags: &mut [u8],
) -> io::Result<Totals> {
    let mut sheet = Sheet::new(bytes);
    let mut totals = Totals {
        sheets: 0,
        cases: 0,
        held: 0,
        whole: false,
        hash: HASH_START,
    };
    let mut left = 0;
    for _ in 0..64 {
        let n = left + streams::read_full(reader, &mut part[left..])?;
        let end = ended(&part[..n]);
        steps(&mut totals, &part[..end], &mut sheet, words, tags);
        part.rotate_left(end);
        left = n - end;
    }
    Ok(totals)
}

fn show(rt: &impl Print, totals: Totals) -> io::Result<()> {
    let (sheets, cases, held) = (totals.sheets, totals.cases, totals.held);
    let whole = if totals.whole { "whole" } else { "damaged" };
    println!(rt; "{sheets} sheets, {cases} cases, {held} as the list says, list {whole}")
}

fn main(rt: HostRuntime) -> io::Result<()> {
    let mut part = [0u8; 65536];
    let mut sheet = [0u8; 70000];
    let mut words = [0u64; 7200];
    let mut tags = [0u8; 1100];
    let totals = all(
        &mut rt.stdin(),
        &mut part,
        &mut sheet,
        &mut words,
        &mut tags,
    )?;
    show(&rt, totals)
}
