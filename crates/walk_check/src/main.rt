// Reads a list of sheets from standard input, walks the net of each along moves, and writes a line for each walk: transitions, places, and a hash.
// The file stdout is what the Rust's walk gives on the same list (tools/oracle: walk-list). A line `w` of the list holds the moves, two hexadecimal digits each
// (lists/README.md). A walk begins at the start, and begins there again where no move is left; a move that is not played to its end leaves the position as it was.
// The hash is FNV-1a, 64 bits, of words: for each move how its play ended (0: settled, 1: spilled, 2: endless), and at the start and after each move what `seen` takes.

#![tactic(auto)]

ghost use Rattle.std.specs.Prelude.{◌≤◌};

use bits::{Bitset, Halt, NET_WORDS, NetWords, Position, Side};
use indexed::{CELLS, Rows};
use sheet::ROWS;
use std::io;
use test_cases::{HASH_START, Sheet};

// Where a walk stands.
#[derive(Clone, Copy)]
struct Stand {
    at: Position,
    hash: u64,
}

// A net, and how many transitions it has.
#[derive(Clone, Copy)]
struct Walker<'a> {
    net: NetWords<'a>,
    transitions: u64,
    ghost few: { transitions ≤ 256 },
}

// The words of two sets.
fn words_of(m: Bitset, e: Bitset) -> [u64; 8] {
    [m.a, m.b, m.c, m.d, e.a, e.b, e.c, e.d]
}

impl<'a> Walker<'a> {
    ghost use Rattle.std.specs.Prelude.{◌<◌};

    // A hash with the number of moves, and each.
    fn hashed_moves(self, p: Position, h: u64) -> u64 {
        let moves = self.net.moves(p);
        moves.iter().fold(
            test_cases::hashed(h, moves.len()),
            |sum, t| test_cases::hashed(sum, t),
        )
    }

    // A hash with the deficit of each transition, and whether it is a move.
    fn hashed_deficits(self, p: Position, h: u64) -> u64 {
        let mut sum = h;
        for t in 0..self.transitions {
            sum = test_cases::hashed(sum, self.net.deficit(p, t).unwrap_or(NO_DEFICIT));
            sum = test_cases::hashed(sum, u64::from(self.net.has_move(p, t)));
        }
        sum
    }

    // What is seen of a position: its marking, its tracked set, its moves, the side to move, whether it is over, its score, and the deficits.
    fn seen(self, p: Position, h: u64) -> u64 {
        let words = words_of(p.marking, p.enabled);
        let mut sum = self.hashed_moves(p, test_cases::hashed_words(h, &words));
        sum = test_cases::hashed(sum, side_number(self.net.mover(p)));
        sum = test_cases::hashed(sum, u64::from(self.net.over(p)));
        sum = test_cases::hashed(sum, whole::value_bits(self.net.score(p)));
        self.hashed_deficits(p, sum)
    }

    // The walk at a position, its hash so far h.
    fn arrived(self, p: Position, h: u64) -> Stand {
        Stand {
            at: p,
            hash: self.seen(p, h),
        }
    }

    // Plays move t, from the first position where no move is left.
    fn step(self, from: Stand, first: Position, t: u64) -> Stand
        requires { t < 256 }
    {
        let p = if self.net.over(from.at) {
            first
        } else {
            from.at
        };
        match self.net.play(p, t) {
            Ok(q) => self.arrived(q, test_cases::hashed(from.hash, 0)),
            Err(Halt::Spilled) => self.arrived(p, test_cases::hashed(from.hash, 1)),
            Err(Halt::Endless) => self.arrived(p, test_cases::hashed(from.hash, 2)),
        }
    }

    // The hash of a walk along the moves.
    fn follow(self, first: Position, moves: &[u8]) -> u64 {
        let mut w = self.arrived(first, HASH_START);
        for pair in moves.chunks_exact(2) {
            w = self.step(w, first, u64::from(test_cases::byte(pair[0], pair[1])));
        }
        w.hash
    }
}

// What is hashed for the deficit of a transition that no marking enables. (What the Rust's list hashes.)
const NO_DEFICIT: u64 = 0xFFFF_FFFF;

// What is hashed for the side to move. (What the Rust's list hashes.)
fn side_number(side: Option<Side>) -> u64 {
    match side {
        None => 0,
        Some(Side::Max) => 1,
        Some(Side::Min) => 2,
    }
}

// Compiles a net, and walks it.
fn walk(rows: Rows, moves: &[u8], c: &mut [u64; NET_WORDS], cells: &mut [u64; CELLS]) -> u64 {
    c.fill(0);
    cells.fill(0);
    indexed::compile_walk(rows, c, cells);
    let net = NetWords::new(c);
    let walker = Walker {
        net,
        transitions: rows.transitions as u64,
    };
    walker.follow(net.fresh(input::start(rows.words)), moves)
}

// Reads a sheet, walks its net, and writes the line.
fn answer(
    rt: &impl Print,
    text: &[u8],
    rows: &mut [u64; ROWS],
    moves: &[u8],
    c: &mut [u64; NET_WORDS],
    cells: &mut [u64; CELLS],
) -> io::Result<()> {
    match sheet::read_sheet(text, rows) {
        Ok(size) => {
            let net = Rows {
                words: &rows[..size.rows],
                transitions: size.transitions,
                places: size.places,
            };
            let h = walk(net, moves, c, cells);
            println!(rt; "{} {} {h:016x}", size.transitions, size.places)
        }
        Err(_) => println!(rt; "refused"),
    }
}

// Goes through the list, line by line: a walk, or a line that builds the sheet.
fn run(
    rt: &impl Print,
    list: &[u8],
    bytes: &mut [u8],
    rows: &mut [u64; ROWS],
    c: &mut [u64; NET_WORDS],
    cells: &mut [u64; CELLS],
) -> io::Result<()> {
    let mut sheet = Sheet::new(bytes);
    for line in list.split(|b| *b == b'\n') {
        match line.split_first() {
            Some((b'w', moves)) => answer(rt, sheet.text(), rows, moves, c, cells)?,
            _ => sheet.build(line),
        }
    }
    Ok(())
}

fn main(rt: HostRuntime) -> io::Result<()> {
    let mut list = [0u8; 524288];
    let mut sheet = [0u8; 70000];
    let mut rows = [0u64; ROWS];
    let mut c = [0u64; NET_WORDS];
    let mut cells = [0u64; CELLS];
    let n = streams::read_full(&mut rt.stdin(), &mut list)?;
    run(&rt, &list[..n], &mut sheet, &mut rows, &mut c, &mut cells)
}
