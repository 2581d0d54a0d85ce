// How an answer is displayed: its line, the two lines that program `keymove` prints, and a refusal in words.

#![tactic(auto)]

ghost use Rattle.std.specs.Prelude.{Some};
ghost use Rattle.rules.specs.Answer.{answer_line, report};

use rules::{Answer, Refusal};
use std::fmt;
use std::num::saturating_f64_to_i64;

// An answer as its line.
#[derive(Clone, Copy)]
pub struct Line(pub Answer);

impl fmt::Display for Line {
    ghost output = { λ l. Some (answer_line l.0) };

    fn fmt<W: fmt::Write>(&self, f: &mut fmt::Formatter<W>) -> fmt::Result {
        match self.0 {
            Answer::Exact { key, value, nodes } => {
                let whole = saturating_f64_to_i64(value);
                write!(f, "exact {key} {whole} {nodes}\n")
            }
            Answer::None => f.write_str("none - - 0\n"),
            Answer::Spent { nodes } => { write!(f, "spent - - {nodes}\n") }
            Answer::Refused {
                refusal,
                line,
                nodes,
            } => {
                let number = u64::from(refusal);
                write!(f, "refused {number} {line} {nodes}\n")
            }
        }
    }
}

// An answer as the two lines, a heading and its own.
#[derive(Clone, Copy)]
pub struct Report(pub Answer);

impl fmt::Display for Report {
    ghost output = { λ r. Some (report r.0) };

    #[tactic(auto, unfolding(rules::specs::Answer::report))]
    fn fmt<W: fmt::Write>(&self, f: &mut fmt::Formatter<W>) -> fmt::Result {
        let line = Line(self.0);
        write!(f, "answer move value nodes\n{line}")
    }
}

// A refusal in words, with its line where it has one. (0 for none: what the call answers, a word in the C interface.)
#[derive(Clone, Copy)]
pub struct Reason {
    pub refusal: Refusal,
    pub line: u64,
}

impl fmt::Display for Reason {
    fn fmt<W: fmt::Write>(&self, f: &mut fmt::Formatter<W>) -> fmt::Result {
        let line = self.line;
        f.write_str(match self.refusal {
            Refusal::Sheet if line == 0 => "the sheet has more than 65,536 bytes",
            Refusal::Sheet => "a line of the sheet is malformed",
            Refusal::Range => "a number, an index or a count of rows is beyond a limit",
            Refusal::Roll => {
                "a place is marked or a transition given its role twice, or it has none"
            }
            Refusal::Settings => "a setting is outside its range",
            Refusal::NoGoals => "the chain reads goals and the net has none",
            Refusal::Memory => "the memory that was lent is too small",
            Refusal::Unsettled => "an automatic transition is enabled where the search starts",
            Refusal::Mixed => "moves of two sides, or of side 0, in one position",
            Refusal::Spilled => "a firing would leave 0/1",
            Refusal::Endless =>
                "an automatic transition is still enabled when 10,000 have fired after one move",
            Refusal::Wide => "more than 64 moves in one position",
            Refusal::Deep => "a node 65 moves below its run's root",
            Refusal::Marking => "a bit is set at the number of places or beyond",
        })?;
        if line > 0 {
            write!(f, ", line {line}")?;
        }
        Ok(())
    }
}
