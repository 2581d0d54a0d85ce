// Sessions for programs in C and Rust: opening, and a choice in one (specs/Sessions).

ghost use Rattle.std.specs.Prelude.{◌≡◌, [], ◌∷◌};
ghost use Rattle.rules.specs.Call.{options_by};
ghost use Rattle.keymove_c.specs.Sessions.{session_words, OpenEntry, PickEntry};

use crate::state::STATE_WORDS;
use crate::{put_answer, session, words_of};
use bits::NET_WORDS;
use words::Bitset;

// How many words a session takes.
#[unsafe(no_mangle)]
pub extern "C" fn keymove_session_words() -> u64
    ensures { result ≡ session_words }
{
    (NET_WORDS + STATE_WORDS) as u64
}

// Opens a sheet in a session. Where out has fewer than four words it does nothing at all. (Nine parameters: the C interface.)
#[unsafe(no_mangle)]
pub extern "C" fn keymove_open(
    session: &mut [u64],
    sheet: &[u8],
    entries: u64,
    driver: u64,
    filters: u64,
    chain: &[u8],
    words: &mut [u64],
    tags: &mut [u8],
    out: &mut [u64],
)
    ensures { OpenEntry sheet.now (options_by entries driver filters chain.now) session.old words.old tags.old out.old session.new words.new tags.new out.new }
{
    if out.len() < 4 {
        return;
    }
    let four = session::open(session, sheet, entries, driver, filters, chain, words, tags);
    put_answer(four, out);
}

// A choice in a session, for the marking of four words. Where out has fewer than four words it does nothing at all. (Nine parameters: the C interface.)
#[unsafe(no_mangle)]
pub extern "C" fn keymove_pick(
    session: &mut [u64],
    budget: u64,
    m0: u64,
    m1: u64,
    m2: u64,
    m3: u64,
    words: &mut [u64],
    tags: &mut [u8],
    out: &mut [u64],
)
    ensures { PickEntry session.old budget (m0 ∷ m1 ∷ m2 ∷ m3 ∷ []) words.old tags.old out.old session.new words.new tags.new out.new }
{
    if out.len() < 4 {
        return;
    }
    let marking = Bitset {
        a: m0,
        b: m1,
        c: m2,
        d: m3,
    };
    let answer = session::pick(session, budget, marking, words, tags);
    put_answer(words_of(answer), out);
}
