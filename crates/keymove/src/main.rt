// Program `keymove`: reads a sheet from standard input and writes its key move, with budget 1,000, memo 1,024, scout, must-win and chain 0 1 2.
// It reads one byte more than a sheet may have, so that an over-long one is refused.

#![tactic(auto)]

ghost use Rattle.std.specs.Prelude.{◌≡◌, replicate};
ghost use Rattle.rules.specs.Answer.{report};
ghost use Rattle.rules.specs.Keymove.{keymove};

use report::Report;
use std::io;

// The largest memo: its entries, a tag for each, and its words.
const ENTRIES: usize = 1024;

const WORDS: usize = 7168;

// The answer to a sheet, in the memory that is lent: what it displays is the program's answer.
fn answer(sheet: &[u8], words: &mut [u64], tags: &mut [u8]) -> Report
    requires { (words.old ≡ replicate 7168 0) × (tags.old ≡ replicate 1024 0) }
    ensures { report result.0 ≡ keymove sheet.now }
{
    let chain: [u8; 3] = [0, 1, 2];
    Report(game::choose(sheet, 1000, 1024, 1, 1, &chain, words, tags))
}

// Writes it.
fn run(
    rt: &impl Print,
    sheet: &[u8],
    words: &mut [u64; WORDS],
    tags: &mut [u8; ENTRIES],
) -> io::Result<()>
    requires { (words.old ≡ replicate 7168 0) × (tags.old ≡ replicate 1024 0) }
{
    rt.print(answer(sheet, words, tags))
}

fn main(rt: HostRuntime) -> io::Result<()> {
    let mut sheet = [0u8; 65537];
    let mut words = [0u64; WORDS];
    let mut tags = [0u8; ENTRIES];
    let n = streams::read_full(&mut rt.stdin(), &mut sheet)?;
    run(&rt, &sheet[..n], &mut words, &mut tags)
}
