// Reads a list of sheets from standard input and writes what the reader gives of each; the file stdout holds the answers.
// The list is in the form of lists/README.md: `s` begins a sheet, `|text` adds text and byte 10, `!text` text alone, `x` bytes in hexadecimal, `*N text` adds text and byte 10
// N times, and `c` reads the sheet so far. Of a net the program writes its size, the number of its rows and FNV-1a over their words; of a refusal its number and line.

#![tactic(auto)]

use sheet::ROWS;
use std::io;
use test_cases::{HASH_FACTOR, HASH_START, Sheet};

// FNV-1a by whole words, as the stored answers are.
fn mixed(rows: &[u64]) -> u64 {
    let mut h = HASH_START;
    for row in rows {
        h = (h ^ *row).wrapping_mul(HASH_FACTOR);
    }
    h
}

// Reads a sheet, and writes what it gives.
fn answer(rt: &impl Print, text: &[u8], rows: &mut [u64; ROWS]) -> io::Result<()> {
    match sheet::read_sheet(text, rows) {
        Ok(size) => {
            let h = mixed(&rows[..size.rows]);
            println!(rt;
                "net {} {} {} {h:016x}",
                size.transitions, size.places, size.rows
            )
        }
        Err(fault) => {
            let number = u64::from(fault.refusal);
            println!(rt; "refused {number} {}", fault.line)
        }
    }
}

// Goes through the list, line by line: a case is read, another line builds the sheet.
fn run(rt: &impl Print, list: &[u8], bytes: &mut [u8], rows: &mut [u64; ROWS]) -> io::Result<()> {
    let mut sheet = Sheet::new(bytes);
    for line in list.split(|b| *b == b'\n') {
        match line.first() {
            Some(b'c') => answer(rt, sheet.text(), rows)?,
            _ => sheet.build(line),
        }
    }
    Ok(())
}

fn main(rt: HostRuntime) -> io::Result<()> {
    let mut list = [0u8; 262144];
    let mut sheet = [0u8; 70000];
    let mut rows = [0u64; ROWS];
    let n = streams::read_full(&mut rt.stdin(), &mut list)?;
    run(&rt, &list[..n], &mut sheet, &mut rows)
}
