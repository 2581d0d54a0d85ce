// Program `session`: plays a position forward and back, and chooses keys in one session: session SHEETFILE ENTRIES DRIVER FILTERS CHAIN. CHAIN is a digit for each piece, `-` for none.
// Reads a command from each line of standard input (src/command.rt), and answers it by a line of standard output before it reads on; refusals stand in words on standard error too.
// The line of `choose` is a `Line` of crate report, whose text is proved. A sheet that is not opened gets one line, and the program ends.

#![tactic(auto)]

ghost use Rattle.std.specs.Prelude.{◌<◌, ◌≤◌, IfOk, IfSome};

mod command;
mod stand;

use bits::{NET_WORDS, NetWords};
use command::Command;
use game::Session;
use input::Settings;
use report::{Line, Reason};
use rules::{Answer, Refusal};
use sheet::Fault;
use stand::{Moved, Shown, Stand};
use std::env::Env;
use std::io::Read;
use std::rt::Files;
use std::{fs, io};

// The words and tags of the largest memo.
const WORDS: usize = 7168;

const TAGS: usize = 1024;

// Room for a sheet and one byte more, so that an over-long one is refused.
const SHEET: usize = 65537;

// Room for a line and its end. The longest command has 70 bytes, but for leading zeros of a number.
const LINE: usize = 256;

// What stands for the front of a line that is longer: no command begins so.
const TOO_LONG: u8 = b'?';

// What the program works on: the words of the net, the session, where it stands, and the memory that is lent.
#[derive(Drop)]
struct Work<'a> {
    opened_net: &'a [u64; NET_WORDS],
    session: &'a mut Session,
    stand: &'a mut Stand,
    words: &'a mut [u64],
    tags: &'a mut [u8],
}

fn usage(rt: &impl Eprint) -> io::Result<()> {
    eprintln!(rt; "session SHEETFILE ENTRIES DRIVER FILTERS CHAIN < COMMANDS")
}

// A refusal in words.
fn explain(rt: &impl Eprint, refusal: Refusal, line: u64) -> io::Result<()> {
    let reason = Reason { refusal, line };
    eprintln!(rt; "refused: {reason}")
}

// Writes an answer's line.
fn write_answer(rt: &(impl Print + Eprint), answer: Answer) -> io::Result<()> {
    rt.print(Line(answer))?;
    if let Answer::Refused { refusal, line, .. } = answer {
        explain(rt, refusal, line)?;
    }
    Ok(())
}

// Writes where the program stands.
fn write_marking(rt: &impl Print, stand: &Stand) -> io::Result<()> {
    rt.println(Shown(stand.marking))
}

// Plays a move, where it is one and plays.
fn play(rt: &(impl Print + Eprint), net: NetWords, stand: &mut Stand, t: u64) -> io::Result<()> {
    match stand::played(net, stand.marking, t) {
        Moved::To(m) => {
            stand.go(m);
            write_marking(rt, stand)
        }
        Moved::Illegal => println!(rt; "illegal"),
        Moved::Refused(refusal) => {
            println!(rt; "refused {}", u64::from(refusal))?;
            explain(rt, refusal, 0)
        }
    }
}

// Does a command, and answers it.
fn run_command(rt: &(impl Print + Eprint), work: &mut Work, command: Command) -> io::Result<()> {
    match command {
        Command::Start => work.stand.restart(),
        Command::Back => work.stand.back(),
        Command::At(m) => work.stand.go(m),
        Command::Marking => {}
        Command::Play(t) => return play(rt, NetWords::new(work.opened_net), work.stand, t),
        Command::Choose(budget) => {
            let (opened_net, marking) = (work.opened_net, work.stand.marking);
            let answer = work
                .session
                .pick(opened_net, budget, marking, work.words, work.tags);
            return write_answer(rt, answer);
        }
    }
    write_marking(rt, work.stand)
}

// Answers a line.
fn answer(rt: &(impl Print + Eprint), work: &mut Work, line: &[u8]) -> io::Result<()> {
    match Command::read(line) {
        Some(command) => run_command(rt, work, command),
        None => println!(rt; "unknown"),
    }
}

// How many bytes of the buffer stay, of a line whose end is not in it: of a full one a single byte, with which no command begins.
fn kept(buf: &mut [u8; LINE], n: usize) -> usize
    ensures { result < 256 }
{
    if n < LINE {
        return n;
    }
    buf[0] = TOO_LONG;
    1
}

// Answers each line as soon as its end is read. (No end: the last line of the input may have none.)
fn serve<R: Read>(
    rt: &(impl Print + Eprint),
    reader: &mut R,
    buf: &mut [u8; LINE],
    work: &mut Work,
) -> io::Result<()> {
    let mut n = 0;
    for _ in 0..u64::MAX {
        if let Some(end) = buf[..n].iter().position(|b| *b == b'\n') {
            answer(rt, work, &buf[..end])?;
            buf[..n].rotate_left(end + 1);
            n -= end + 1;
            continue;
        }
        n = kept(buf, n);
        let more = reader.read(&mut buf[n..])?;
        if more == 0 {
            break;
        }
        n += more;
    }
    if n == 0 {
        return Ok(());
    }
    answer(rt, work, &buf[..n])
}

// Opens a sheet in what is lent; the session, and where the program stands.
fn opened(
    sheet: &[u8],
    settings: Settings,
    opened_net: &mut [u64; NET_WORDS],
    words: &mut [u64; WORDS],
    tags: &mut [u8; TAGS],
) -> Result<(Session, Stand), Fault> {
    let session = game::open(
        sheet,
        settings.entries,
        settings.driver,
        settings.filters,
        settings.chain,
        opened_net,
        words,
        tags,
    )?;
    Ok((session, Stand::new(stand::first_marking(sheet)?)))
}

// Opens a sheet, and answers the commands of a reader, or refuses the sheet.
fn run<R: Read>(
    rt: &(impl Print + Eprint),
    reader: &mut R,
    sheet: &[u8],
    settings: Settings,
) -> io::Result<()> {
    let mut opened_net = [0u64; NET_WORDS];
    let mut words = [0u64; WORDS];
    let mut tags = [0u8; TAGS];
    let mut buf = [0u8; LINE];
    match opened(sheet, settings, &mut opened_net, &mut words, &mut tags) {
        Ok((mut session, mut stand)) => {
            let mut work = Work {
                opened_net: &opened_net,
                session: &mut session,
                stand: &mut stand,
                words: &mut words,
                tags: &mut tags,
            };
            serve(rt, reader, &mut buf, &mut work)
        }
        Err(Fault { refusal, line }) => write_answer(
            rt,
            Answer::Refused {
                refusal,
                line,
                nodes: 0,
            },
        ),
    }
}

// Reads a file until buf is full or the file ends; how many bytes stand at the start of buf.
fn read_file<R: Files>(rt: &R, path: &str, buf: &mut [u8; SHEET]) -> io::Result<usize>
    ensures { IfOk result (λ n. n ≤ 65537) }
{
    let mut file = fs::open(rt, path)?;
    streams::read_full(&mut file, buf)
}

// Reads the sheet that argument 1 names, where it can be read; else a line says why not.
fn read_named(rt: &(impl Env + Files + Eprint), buf: &mut [u8; SHEET]) -> io::Result<Option<usize>>
    ensures { IfOk result (λ found. IfSome found (λ n. n ≤ 65537)) }
{
    let mut name = [0u8; 4096];
    let Ok(path) = std::str::from_utf8(arguments::argument(rt, 1, &mut name)) else {
        eprintln!(rt; "session: the name of the sheet's file is no text")?;
        return Ok(None);
    };
    match read_file(rt, path, buf) {
        Ok(n) => Ok(Some(n)),
        Err(error) => {
            eprintln!(rt; "session: {path}: {error}")?;
            Ok(None)
        }
    }
}

fn main(rt: HostRuntime) -> io::Result<()> {
    let mut chain = [0u8; 4096];
    let mut sheet = [0u8; SHEET];
    if !arguments::are_five(&rt) {
        return usage(&rt);
    }
    let Some(settings) = arguments::settings(&rt, 0, &mut chain) else {
        return usage(&rt);
    };
    let Some(n) = read_named(&rt, &mut sheet)? else {
        return Ok(());
    };
    run(&rt, &mut rt.stdin(), &sheet[..n], settings)
}
