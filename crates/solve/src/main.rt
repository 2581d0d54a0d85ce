// Program `solve`: the call with its settings as arguments, solve BUDGET ENTRIES DRIVER FILTERS CHAIN, on a sheet from standard input. CHAIN is a digit for each piece, `-` for none.
// Writes the two lines of `keymove` to standard output, and a refusal in words to standard error. A number out of range goes to the call, which refuses it; what is no number gets a line on the usage.

#![tactic(auto)]

use input::Settings;
use report::{Reason, Report};
use rules::Answer;
use std::env::Env;
use std::io;

// The words and tags of the largest memo.
const WORDS: usize = 7168;

const TAGS: usize = 1024;

// The settings that the arguments give; the pieces of the chain stand in buf.
fn given<'a>(rt: &impl Env, buf: &'a mut [u8]) -> Option<Settings<'a>> {
    arguments::settings(rt, arguments::setting(rt, 1)?, buf)
}

fn usage(rt: &impl Eprint) -> io::Result<()> {
    eprintln!(rt; "solve BUDGET ENTRIES DRIVER FILTERS CHAIN < SHEET")
}

// The call on the memory that is lent, and what is written of it.
fn run(
    rt: &(impl Print + Eprint),
    settings: Settings,
    sheet: &[u8],
    words: &mut [u64; WORDS],
    tags: &mut [u8; TAGS],
) -> io::Result<()> {
    let answer = game::choose(
        sheet,
        settings.budget,
        settings.entries,
        settings.driver,
        settings.filters,
        settings.chain,
        words,
        tags,
    );
    rt.print(Report(answer))?;
    if let Answer::Refused { refusal, line, .. } = answer {
        let reason = Reason { refusal, line };
        eprintln!(rt; "refused: {reason}")?;
    }
    Ok(())
}

fn main(rt: HostRuntime) -> io::Result<()> {
    let mut sheet = [0u8; 65537];
    let mut buf = [0u8; 4096];
    let mut words = [0u64; WORDS];
    let mut tags = [0u8; TAGS];
    if !arguments::are_five(&rt) {
        return usage(&rt);
    }
    let n = streams::read_full(&mut rt.stdin(), &mut sheet)?;
    let Some(settings) = given(&rt, &mut buf) else {
        return usage(&rt);
    };
    run(&rt, settings, &sheet[..n], &mut words, &mut tags)
}
