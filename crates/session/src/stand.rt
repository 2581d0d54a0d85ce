// Where the program stands.

ghost use Rattle.std.specs.Prelude.{◌≡◌, ◌≤◌, List, [], ◌∷◌, ◌++◌, ◌+◌, ◌-◌, length, drop};
ghost use Rattle.rules.specs.Net.{Net};
ghost use Rattle.bits.specs.Compiled.{Walked};
ghost use Rattle.bits.specs.Position.{words, Within};
ghost use Rattle.words.specs.declared.Bitset.{Bitset};
ghost use Rattle.rules.specs.Play.{start};
ghost use Rattle.rows.specs.Packed.{net_in};
ghost use Rattle.indexed.specs.Limited.{Limited};
ghost use Rattle.session.specs.Moves.{FirstMarking, move_of, moved_of};
ghost use Rattle.session.specs.Undoing.{past_of};

use bits::NetWords;
use rules::Refusal;
use sheet::{Fault, ROWS, Size};
use std::fmt;
use words::Bitset;

// How many times `back` can be said, one after the other.
const PAST: usize = 1024;

// A marking as its line.
#[derive(Clone, Copy)]
pub struct Shown(pub Bitset);

impl fmt::Display for Shown {
    fn fmt<W: fmt::Write>(&self, f: &mut fmt::Formatter<W>) -> fmt::Result {
        let Bitset { a, b, c, d } = self.0;
        write!(f, "marking {a:016x} {b:016x} {c:016x} {d:016x}")
    }
}

// The marking of the rows at the front of the array.
fn marking_of_rows(rows: &[u64; ROWS], size: Size) -> Bitset
    requires { Limited (net_in size.transitions size.places size.rows rows.now) × (size.rows ≤ 6560) }
    ensures { words result ≡ start (net_in size.transitions size.places size.rows rows.now) }
{
    input::start(&rows[..size.rows])
}

// The marking of a sheet, or why the sheet is refused.
pub fn first_marking(sheet: &[u8]) -> Result<Bitset, Fault>
    ensures { FirstMarking sheet.now result }
{
    let mut rows = [0u64; ROWS];
    let size = sheet::read_sheet(sheet, &mut rows)?;
    Ok(marking_of_rows(&rows, size))
}

// What a move comes to: a marking, or it is none there, or its play is refused.
#[derive(Clone, Copy)]
pub enum Moved {
    To(Bitset),
    Illegal,
    Refused(Refusal),
}

// Move t from a marking, as the rules have it: fired, and settled. (`at` gives any marking: of one with tokens past the net's places nothing is promised, and they stay where they are.)
pub fn played(net: NetWords, m: Bitset, t: u64) -> Moved
    ensures { (g : Net) → Walked g net.entry.words.now → Within g (words m) → moved_of result ≡ move_of g (words m) t }
{
    if 255 < t {
        return Moved::Illegal;
    }
    let position = net.fresh(m);
    if !net.has_move(position, t) {
        return Moved::Illegal;
    }
    match net.play(position, t) {
        Ok(next) => Moved::To(next.marking),
        Err(halt) => Moved::Refused(Refusal::from(halt)),
    }
}

// The sheet's marking, the one where the program stands, and those that `back` returns to: where each `play` and `at` since the last `start` set out from, n of them.
// Of more than there is room for, the oldest is forgotten: what was played last can always be taken back.
#[derive(Clone, Copy)]
pub struct Stand {
    first: Bitset,
    pub marking: Bitset,
    past: [Bitset; PAST],
    n: usize,
}

impl Stand {
    pub fn new(first: Bitset) -> Stand
        ensures { (result.first ≡ first) × (result.marking ≡ first) × (past_of result ≡ []) }
    {
        Stand {
            first,
            marking: first,
            past: [Bitset::EMPTY; PAST],
            n: 0,
        }
    }

    // To the sheet's marking. What was played before is no part of the line that begins there, so `back` does not lead to it.
    pub fn restart(&mut self)
        ensures { (self.new.first ≡ self.old.first) × (self.new.marking ≡ self.old.first) × (past_of self.new ≡ []) }
    {
        self.marking = self.first;
        self.n = 0;
    }

    // To a marking, which `back` undoes.
    pub fn go(&mut self, m: Bitset)
        ensures to { (self.new.first ≡ self.old.first) × (self.new.marking ≡ m) }
        ensures past { past_of self.new ≡ drop (length (past_of self.old) + 1 - 1024) (past_of self.old ++ (self.old.marking ∷ [])) }
    {
        let from = self.marking;
        self.marking = m;
        if self.n < PAST {
            self.past[self.n] = from;
            self.n += 1;
            return;
        }
        self.past.rotate_left(1);
        self.past[PAST - 1] = from;
    }

    // To where the last `go` set out from. Where nothing is left to undo it stays, and the line says where, as after every `back`.
    pub fn back(&mut self)
        ensures same { self.new.first ≡ self.old.first }
        ensures undone { (l : List Bitset) (m : Bitset) → past_of self.old ≡ l ++ (m ∷ []) → (self.new.marking ≡ m) × (past_of self.new ≡ l) }
        ensures nothing { past_of self.old ≡ [] → self.new ≡ self.old }
    {
        let n = usize::min(self.n, PAST);
        if n == 0 {
            return;
        }
        self.n = n - 1;
        self.marking = self.past[n - 1];
    }
}
