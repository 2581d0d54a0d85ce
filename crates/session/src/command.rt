// The commands of the program.

use words::Bitset;

// What a line asks for.
#[derive(Clone, Copy)]
pub enum Command {
    // To the sheet's marking.
    Start,
    // A move. (A number, as a sheet has it: one that no transition has is no move.)
    Play(u64),
    // The last `play` or `at` undone.
    Back,
    // To this marking.
    At(Bitset),
    // Where the program stands.
    Marking,
    // The key within a budget.
    Choose(u64),
}

// The number of a hexadecimal digit. (Digits are the bytes from 48, three times 16, on; letters of both cases are 1 to 6 more than a number of 16s.)
fn digit(b: u8) -> u64 {
    let low = u64::from(b % 16);
    if b.is_ascii_digit() { low } else { low + 9 }
}

// The word of 16 hexadecimal digits.
fn word(text: &[u8]) -> Option<u64> {
    if text.len() != 16 || !text.iter().all(|b| b.is_ascii_hexdigit()) {
        return None;
    }
    Some(
        text.iter()
            .fold(0u64, |n, b| n.wrapping_mul(16) | digit(*b)),
    )
}

// The marking of four words, with one space between.
fn marking(text: &[u8]) -> Option<Bitset> {
    let mut words = text.split(|b| *b == b' ');
    let m = Bitset {
        a: word(words.next()?)?,
        b: word(words.next()?)?,
        c: word(words.next()?)?,
        d: word(words.next()?)?,
    };
    if words.next().is_some() {
        return None;
    }
    Some(m)
}

impl Command {
    // The command of a line, without its byte 10; a byte 13 before that is a line's end too.
    pub fn read(line: &[u8]) -> Option<Command> {
        let text = line.strip_suffix(b"\r").unwrap_or(line);
        if let Some(t) = text.strip_prefix(b"play ") {
            return Some(Command::Play(arguments::number(t)?));
        }
        if let Some(budget) = text.strip_prefix(b"choose ") {
            return Some(Command::Choose(arguments::number(budget)?));
        }
        if let Some(words) = text.strip_prefix(b"at ") {
            return Some(Command::At(marking(words)?));
        }
        if text == b"start".as_slice() {
            return Some(Command::Start);
        }
        if text == b"back".as_slice() {
            return Some(Command::Back);
        }
        if text == b"marking".as_slice() {
            return Some(Command::Marking);
        }
        None
    }
}
