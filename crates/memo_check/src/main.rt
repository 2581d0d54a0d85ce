// Replays sequences of stores and gets, and writes for each table a line: entries, key words, 1 if compact, words in the dictionary, and a hash: FNV-1a, 64 bits, of the bytes,
// low first, of what each get answers (its bounds' bits and best move, or 7), and then of every word and tag of the table and every word of the dictionary. Two short runs are
// written out whole: words, tags, dictionary, and what a get of each key that was stored gives. The file stdout is what the Rust's memo gives on all of these (oracle
// memo-list); its last three lines, gets from rows that no store wrote, are what the definitions say.

#![tactic(auto)]

mod cases;
mod lent;
mod written;

use lent::{Buffers, TAGS, WORDS};
use std::io;

fn main(rt: HostRuntime) -> io::Result<()> {
    let mut words = [0u64; WORDS];
    let mut tags = [0u8; TAGS];
    let mut dict = [0u64; 255];
    let mut lent = Buffers {
        words: &mut words,
        tags: &mut tags,
        dict: &mut dict,
    };
    cases::replay_all(&rt, &mut lent)?;
    written::six(&rt, &mut lent)?;
    written::ten(&rt, &mut lent)?;
    written::altered(&rt, &mut lent, 0x0200_0301_0000_000b)?;
    written::altered(&rt, &mut lent, 0x0200_0002_0000_000a)?;
    written::altered(&rt, &mut lent, 0x8200_0000_0000_0000)
}
