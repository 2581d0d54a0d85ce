// Opening a session and a choice in one, on the words that hold it.

ghost use Rattle.std.specs.Prelude.{◌≡◌, [], ◌++◌, length};
ghost use Rattle.words.specs.Sets as sets;
ghost use Rattle.rules.specs.Answer.{early};
ghost use Rattle.rules.specs.Net.{Net};
ghost use Rattle.rules.specs.Call.{options_by};
ghost use Rattle.rules.specs.Session.{refused_at, open_session};
ghost use Rattle.bits.specs.Compiled.{net_words};
ghost use Rattle.game.specs.Sessions.{OpenedNet};
ghost use Rattle.keymove_c.specs.Sessions.{state_length, leaves_session, too_short, encoded_opening, StateOpened, SessionOpened, StatePicked, SessionPicked};

use crate::state::{STATE_WORDS, pack, unpack};
use crate::words_of;
use bits::NET_WORDS;
use rules::{Answer, Refusal};
use sheet::Fault;
use words::Bitset;

// The words for the answer where opening is refused.
fn refused(fault: Fault) -> [u64; 4]
    ensures { result ≡ encoded_opening (refused_at fault.refusal fault.line) }
{
    words_of(Answer::Refused {
        refusal: fault.refusal,
        line: fault.line,
        nodes: 0,
    })
}

// The same where a session is too short: as with no lent memory at all, which is refused by 6 at the latest.
// (Not inlined, and open_in neither: each has the words of a net on the stack, and so they are there once.)
#[inline(never)]
fn open_short(sheet: &[u8], entries: u64, driver: u64, filters: u64, chain: &[u8]) -> [u64; 4]
    ensures { result ≡ encoded_opening (open_session sheet.now (options_by entries driver filters chain.now) [] []).answer }
{
    words_of(game::choose(sheet, 0, entries, driver, filters, chain, &mut [], &mut []))
}

// Opens a sheet; the words of a session are written where it is opened. (Nine parameters: those of the C interface.)
#[inline(never)]
fn open_in(
    opened_net: &mut [u64; NET_WORDS],
    state: &mut [u64; STATE_WORDS],
    sheet: &[u8],
    entries: u64,
    driver: u64,
    filters: u64,
    chain: &[u8],
    words: &mut [u64],
    tags: &mut [u8],
) -> [u64; 4]
    ensures long { (length opened_net.new ≡ net_words) × (length state.new ≡ state_length) }
    ensures is { StateOpened sheet.now (options_by entries driver filters chain.now) opened_net.old state.old words.old tags.old result opened_net.new state.new words.new tags.new }
{
    match game::open(
        sheet, entries, driver, filters, chain, opened_net, words, tags,
    ) {
        Ok(opened) => {
            pack(opened, state);
            [4, 0, 0, 0]
        }
        Err(fault) => refused(fault),
    }
}

// The same with all that stands behind the words of the net.
fn open_behind(
    opened_net: &mut [u64; NET_WORDS],
    rest: &mut [u64],
    sheet: &[u8],
    entries: u64,
    driver: u64,
    filters: u64,
    chain: &[u8],
    words: &mut [u64],
    tags: &mut [u8],
) -> [u64; 4]
    ensures { SessionOpened sheet.now (options_by entries driver filters chain.now) (opened_net.old ++ rest.old) words.old tags.old result (opened_net.new ++ rest.new) words.new tags.new }
{
    let Some((state, _behind)) = rest.split_first_chunk_mut::<STATE_WORDS>() else {
        return open_short(sheet, entries, driver, filters, chain);
    };
    open_in(
        opened_net, state, sheet, entries, driver, filters, chain, words, tags,
    )
}

// Opens a sheet on the words of a session.
pub fn open(
    session: &mut [u64],
    sheet: &[u8],
    entries: u64,
    driver: u64,
    filters: u64,
    chain: &[u8],
    words: &mut [u64],
    tags: &mut [u8],
) -> [u64; 4]
    ensures { SessionOpened sheet.now (options_by entries driver filters chain.now) session.old words.old tags.old result session.new words.new tags.new }
{
    let Some((opened_net, rest)) = session.split_first_chunk_mut::<NET_WORDS>() else {
        return open_short(sheet, entries, driver, filters, chain);
    };
    open_behind(
        opened_net, rest, sheet, entries, driver, filters, chain, words, tags,
    )
}

// Whether a refusal leaves the words of a session as they are.
fn is_early(refusal: Refusal) -> bool
    ensures { result ≡ early refusal }
{
    let number = u64::from(refusal);
    number <= 7 || number == 13
}

fn leaves_session(answer: Answer) -> bool
    ensures { result ≡ leaves_session answer }
{
    match answer {
        Answer::Refused { refusal, .. } => is_early(refusal),
        _ => false,
    }
}

// The answer where a session is too short.
fn too_short(budget: u64) -> Answer
    ensures { result ≡ too_short budget }
{
    let refusal = if budget <= 10_000_000 {
        Refusal::Memory
    } else {
        Refusal::Settings
    };
    Answer::Refused {
        refusal,
        line: 0,
        nodes: 0,
    }
}

// A choice in the session that words are read as; the words are written unless they are left alone.
fn pick_in(
    opened_net: &[u64; NET_WORDS],
    state: &mut [u64; STATE_WORDS],
    budget: u64,
    marking: Bitset,
    words: &mut [u64],
    tags: &mut [u8],
) -> Answer
    ensures long { length state.new ≡ state_length }
    ensures is { (net : Net) → OpenedNet net opened_net.now → StatePicked net state.old words.old tags.old budget (sets.words marking) result state.new words.new tags.new }
{
    let mut session = unpack(state);
    let answer = session.pick(opened_net, budget, marking, words, tags);
    if leaves_session(answer) {
        return answer;
    }
    pack(session, state);
    answer
}

// The same with all that stands behind the words of the net.
fn pick_behind(
    opened_net: &[u64; NET_WORDS],
    rest: &mut [u64],
    budget: u64,
    marking: Bitset,
    words: &mut [u64],
    tags: &mut [u8],
) -> Answer
    ensures { SessionPicked (opened_net.now ++ rest.old) words.old tags.old budget (sets.words marking) result (opened_net.now ++ rest.new) words.new tags.new }
{
    let Some((state, _behind)) = rest.split_first_chunk_mut::<STATE_WORDS>() else {
        return too_short(budget);
    };
    pick_in(opened_net, state, budget, marking, words, tags)
}

// A choice on the words of a session.
pub fn pick(
    session: &mut [u64],
    budget: u64,
    marking: Bitset,
    words: &mut [u64],
    tags: &mut [u8],
) -> Answer
    ensures { SessionPicked session.old words.old tags.old budget (sets.words marking) result session.new words.new tags.new }
{
    let Some((opened_net, rest)) = session.split_first_chunk_mut::<NET_WORDS>() else {
        return too_short(budget);
    };
    pick_behind(opened_net, rest, budget, marking, words, tags)
}
