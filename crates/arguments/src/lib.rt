// The arguments of the programs that take the settings of a call: numbers, and the pieces of a chain.

#![tactic(auto)]

use input::Settings;
use std::env::{Env, FillError};

// Whether a text is one of digits, of which there is at least one. (A digit's number is its byte % 16: the digits are the bytes from 48, three times 16, on.)
fn is_digits(text: &[u8]) -> bool {
    !text.is_empty() && text.iter().all(|b| b.is_ascii_digit())
}

// The number of decimal digits; one past 64 bits is the largest. (`parse` would take a `+` too, and refuse what is past 64 bits.)
fn digits(text: &[u8]) -> Option<u64> {
    if !is_digits(text) {
        return None;
    }
    Some(
        text.iter().fold(0u64, |n, b| {
            n.saturating_mul(10).saturating_add(u64::from(*b % 16))
        }),
    )
}

// A number as a sheet has it, but for leading zeros. One with `-` before it, which no range has, is the largest; `-0` is none.
pub fn number(text: &[u8]) -> Option<u64> {
    let Some(size) = text.strip_prefix(b"-") else {
        return digits(text);
    };
    if digits(size)? == 0 {
        return None;
    }
    Some(u64::MAX)
}

fn has_argument(rt: &impl Env, i: usize) -> bool {
    !matches!(rt.arg(i, &mut []), Err(FillError::NotPresent))
}

// Whether there are as many arguments as such a program has.
pub fn are_five(rt: &impl Env) -> bool {
    has_argument(rt, 5) && !has_argument(rt, 6)
}

// Argument i at the start of buf, or nothing where it is missing or longer than buf.
pub fn argument<'a>(rt: &impl Env, i: usize, buf: &'a mut [u8]) -> &'a mut [u8] {
    let n = rt.arg(i, buf).unwrap_or(0);
    &mut buf[..n]
}

// Argument i as a number.
pub fn setting(rt: &impl Env, i: usize) -> Option<u64> {
    let mut buf = [0u8; 4096];
    number(argument(rt, i, &mut buf))
}

// The pieces of a chain, in place of its digits. (Not as in program `fixed_list`, where each byte is a piece of any value.)
fn pieces(text: &mut [u8]) -> Option<&[u8]> {
    if &*text == b"-".as_slice() {
        return Some(&[]);
    }
    if !is_digits(text) {
        return None;
    }
    for b in text.iter_mut() {
        *b %= 16;
    }
    Some(text)
}

// The settings with this budget, of which arguments 2 to 5 are entries, driver, filters and chain; the pieces of the chain stand in buf.
pub fn settings<'a>(rt: &impl Env, budget: u64, buf: &'a mut [u8]) -> Option<Settings<'a>> {
    Some(Settings {
        budget,
        entries: setting(rt, 2)?,
        driver: setting(rt, 3)?,
        filters: setting(rt, 4)?,
        chain: pieces(argument(rt, 5, buf))?,
    })
}
