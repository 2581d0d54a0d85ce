// The answers of a call, which the definitions in specs/ speak of: document 01, "The call", and its refusals 1 to 12 in their order, and 13 of document 02, L1.

#![tactic(auto)]

ghost use Rattle.std.specs.Prelude.{◌≡◌};
ghost use Rattle.rules.specs.Answer.{refusal_number};

// Why a call is refused: 1 to 7 from the input, 8 to 12 from the state of a search, 13 from the marking that a session is given.
#[derive(Clone, Copy)]
pub enum Refusal {
    Sheet,
    Range,
    Roll,
    Settings,
    NoGoals,
    Memory,
    Unsettled,
    Mixed,
    Spilled,
    Endless,
    Wide,
    Deep,
    Marking,
}

impl From<Refusal> for u64 {
    ghost from_gives = { λ refusal number. number ≡ refusal_number refusal };

    fn from(refusal: Refusal) -> u64 {
        match refusal {
            Refusal::Sheet => 1,
            Refusal::Range => 2,
            Refusal::Roll => 3,
            Refusal::Settings => 4,
            Refusal::NoGoals => 5,
            Refusal::Memory => 6,
            Refusal::Unsettled => 7,
            Refusal::Mixed => 8,
            Refusal::Spilled => 9,
            Refusal::Endless => 10,
            Refusal::Wide => 11,
            Refusal::Deep => 12,
            Refusal::Marking => 13,
        }
    }
}

// What a call answers, in the four forms that document 01 names (so neither an Option nor a Result). The exact answer carries the value of the root's run, as side 1 sees it;
// `line` is that of refusals 1 to 3, else 0 (not None: a word in the C interface, as each of the numbers is).
#[derive(Clone, Copy)]
pub enum Answer {
    Exact {
        key: u64,
        value: f64,
        nodes: u64,
    },
    None,
    Spent {
        nodes: u64,
    },
    Refused {
        refusal: Refusal,
        line: u64,
        nodes: u64,
    },
}
