// The call for programs in C and Rust: the arguments of game::choose, and four words for the answer (specs/Encoding). A slice is a pointer and a length. (The entries for sessions
// are in entries.rt.)

#![tactic(auto)]

ghost use Rattle.std.specs.Prelude.{◌≡◌, [], ◌∷◌, ◌++◌, ◌≤◌, length, take, drop};
ghost use Rattle.keymove_c.specs.Encoding.{encoded, served, entry_of};
ghost use Rattle.rules.specs.Call.{asked};

mod entries;
mod session;
mod state;

use rules::Answer;

// The four words of an answer.
fn words_of(answer: Answer) -> [u64; 4]
    ensures { result ≡ encoded answer }
{
    match answer {
        Answer::Exact { key, value, nodes } => [0, key, whole::value_bits(value), nodes],
        Answer::None => [1, 0, 0, 0],
        Answer::Spent { nodes } => [2, 0, 0, nodes],
        Answer::Refused {
            refusal,
            line,
            nodes,
        } => [3, u64::from(refusal), line, nodes],
    }
}

// Writes the four words of an answer; what lies behind them is as before.
fn put_answer(four: [u64; 4], out: &mut [u64])
    requires { 4 ≤ length out.old }
    ensures { out.new ≡ four ++ drop 4 out.old }
{
    out[..4].copy_from_slice(&four);
}

// The call. Where out has fewer than four words it does nothing at all. (Nine parameters: the C interface.)
#[unsafe(no_mangle)]
pub extern "C" fn keymove_choose(
    sheet: &[u8],
    budget: u64,
    entries: u64,
    driver: u64,
    filters: u64,
    chain: &[u8],
    words: &mut [u64],
    tags: &mut [u8],
    out: &mut [u64],
)
    ensures { served out.new words.new tags.new ≡ entry_of (asked sheet.now budget entries driver filters chain.now words.old tags.old) out.old }
{
    if out.len() < 4 {
        return;
    }
    let answer = game::choose(sheet, budget, entries, driver, filters, chain, words, tags);
    put_answer(words_of(answer), out);
}
