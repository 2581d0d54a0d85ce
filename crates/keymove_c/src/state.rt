// A session as the words that stand behind those of its net (specs/Sessions).

ghost use Rattle.std.specs.Prelude.{◌≡◌, List, ℕ, ◌++◌, ◌-◌, ◌%◌, ◌^◌, ◌≤◌, length, map, replicate, take};
ghost use Rattle.rules.specs.Net.{Net};
ghost use Rattle.game.specs.Sessions.{session_of};
ghost use Rattle.keymove_c.specs.Sessions.{zero_padded, state_words, session_at};

use game::Session;

// How many words stand behind those of the net: the dictionary, the history, six numbers and the chain.
pub const STATE_WORDS: usize = 525;

// Where the parts stand.
const HISTORY_AT: usize = 255;

const NUMBERS_AT: usize = 511;

const CHAIN_AT: usize = 517;

// Copies words to the front, with zeros behind them.
fn put_padded(from: &[u64], to: &mut [u64])
    requires { length from.now ≤ length to.old }
    ensures { to.new ≡ zero_padded (length to.old) from.now }
{
    to.fill(0);
    to[..from.len()].copy_from_slice(from);
}

// Counters as words.
fn put_counters(from: &[u32; 256], to: &mut [u64])
    requires { length to.old ≡ 256 }
    ensures is { to.new ≡ from.now }
    ensures back { map (λ w. w % 2 ^ 32) from.now ≡ from.now }
{
    for i in 0..256 {
        to[i] = u64::from(from[i]);
    }
}

// Counters from any words.
fn take_counters(from: &[u64], to: &mut [u32; 256])
    requires { length from.now ≡ 256 }
    ensures { to.new ≡ map (λ w. w % 2 ^ 32) from.now }
{
    for i in 0..256 {
        to[i] = (from[i] % 4_294_967_296) as u32;
    }
}

// Pieces as words.
fn put_pieces(from: &[u8; 8], to: &mut [u64; 8])
    ensures is { to.new ≡ from.now }
    ensures back { map (λ w. w % 2 ^ 8) from.now ≡ from.now }
{
    for i in 0..8 {
        to[i] = u64::from(from[i]);
    }
}

// Pieces from any words.
fn take_pieces(from: &[u64], to: &mut [u8; 8])
    requires { length from.now ≡ 8 }
    ensures { to.new ≡ map (λ w. w % 2 ^ 8) from.now }
{
    for i in 0..8 {
        to[i] = (from[i] % 256) as u8;
    }
}

// So many words of eight, with zeros behind them.
fn put_front(from: &[u64; 8], n: usize, to: &mut [u64])
    requires { (n ≤ 8) × (length to.old ≡ 8) }
    ensures { to.new ≡ zero_padded 8 (take n from.now) }
{
    put_padded(&from[..n], to);
}

// The words of a session.
pub fn pack(s: Session, state: &mut [u64; STATE_WORDS])
    ensures is { (net : Net) → state.new ≡ state_words (session_of net s) }
    ensures back { (net : Net) → session_at net state.new ≡ session_of net s }
{
    let entered = usize::min(s.entered, 255);
    let pieces = usize::min(s.pieces, 8);
    let (dict, rest) = state.split_at_mut(HISTORY_AT);
    put_padded(&s.dict[..entered], dict);
    let (history, rest) = rest.split_at_mut(256);
    put_counters(&s.history, history);
    let (numbers, chain) = rest.split_at_mut(6);
    numbers.copy_from_slice(&[
        entered as u64,
        s.generation,
        s.entries,
        s.driver,
        s.filters,
        pieces as u64,
    ]);
    let mut all = [0u64; 8];
    put_pieces(&s.chain, &mut all);
    put_front(&all, pieces, chain);
}

// The session that any words are read as.
pub fn unpack(state: &[u64; STATE_WORDS]) -> Session
    ensures { (net : Net) → session_of net result ≡ session_at net state.now }
{
    let mut dict = [0u64; 255];
    dict.copy_from_slice(&state[..HISTORY_AT]);
    let mut history = [0u32; 256];
    take_counters(&state[HISTORY_AT..NUMBERS_AT], &mut history);
    let mut chain = [0u8; 8];
    take_pieces(&state[CHAIN_AT..], &mut chain);
    Session {
        entries: state[513],
        driver: state[514],
        filters: state[515],
        chain,
        pieces: state[516] as usize,
        dict,
        entered: state[511] as usize,
        history,
        generation: state[512],
    }
}
