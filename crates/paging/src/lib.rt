// The words of document 01: pages, frames and moments, the four rules, what a request comes to, and the twelve ways to say no.
// The rules themselves, the walk and plans are definitions in specs/; their laws are in proofs/.
#![tactic(auto)]

ghost use Rattle.std.specs.Prelude.{◌≡◌, Some};
ghost use Rattle.paging.specs.Refusals.{table, refusal_text, gate_numbers};
ghost use Rattle.paging.specs.Rules.{rule_numbered};
ghost use Rattle.paging.specs.Walk.{fault_of, word_of};

use std::error::Error;
use std::fmt;

// "No page" or "no moment", according to the field.
pub const MARK: u32 = 4294967295;

// A tile's number, 0 to 4,294,967,294.
#[derive(Clone, Copy, Debug, PartialEq, Eq)]
pub struct Page(pub u32);

// A place in the cache, from 0.
#[derive(Clone, Copy, Debug, PartialEq, Eq)]
pub struct Frame(pub u32);

// The place of a request in its trace, from 0.
#[derive(Clone, Copy, Debug, PartialEq, Eq, PartialOrd, Ord)]
pub struct Moment(pub u32);

// What a frame in use knows of its page. Of moments that never were, the mark and no Option: a record is words, and any word may stand there.
#[derive(Clone, Copy, Debug, PartialEq, Eq)]
pub struct Entry {
    pub page: Page,
    pub loaded: Moment,
    pub last: Moment,
    pub earlier: Moment,
}

// The four eviction rules.
#[derive(Clone, Copy, Debug, PartialEq, Eq)]
pub enum Rule {
    Lru,
    Fifo,
    Min,
    Lru2,
}

// The rule that a number stands for; refusal 1, where it stands for none.
impl TryFrom<u32> for Rule {
    type Error = Refusal;

    ghost try_from_gives = { λ number result. result ≡ rule_numbered number };

    fn try_from(number: u32) -> Result<Rule, Refusal> {
        match number {
            1 => Ok(Rule::Lru),
            2 => Ok(Rule::Fifo),
            3 => Ok(Rule::Min),
            4 => Ok(Rule::Lru2),
            _ => Err(Refusal::UnknownRule),
        }
    }
}

// What one request came to. Faults are all but hits.
#[derive(Clone, Copy, Debug, PartialEq, Eq)]
pub enum Outcome {
    Hit,
    Loaded,
    Dropped(Page),
}

impl Outcome {
    // A fault is a request whose page isn't held, whether or not something is dropped. 1 or 0, as faults are added up.
    pub fn fault(self) -> u32
        ensures { result ≡ fault_of self }
    {
        match self {
            Outcome::Hit => 0,
            Outcome::Loaded => 1,
            Outcome::Dropped(_) => 1,
        }
    }

    // The plan's word: the page to drop, or the mark; no Option, as a plan is words (`word_of`).
    pub fn word(self) -> u32
        ensures { result ≡ word_of self }
    {
        match self {
            Outcome::Hit => MARK,
            Outcome::Loaded => MARK,
            Outcome::Dropped(page) => page.0,
        }
    }
}

// The twelve ways to say no, in the order of their numbers. A case holds its place where document 01 does not fix it.
#[derive(Clone, Copy, Debug, PartialEq, Eq)]
pub enum Refusal {
    UnknownRule,
    FramesOutside(u32),
    TraceTooLong,
    MarkRequested(u32),
    UnsoundRecord,
    LentTooShort,
    PlanBroken(u32),
    ClockFull,
    FileCut(u32),
    CountNotAllowed(u32),
    BytesLeftOver(u32),
    PlanAboveCache,
}

impl Refusal {
    pub fn number(self) -> u32
        ensures { result ≡ (table self).number }
    {
        match self {
            Refusal::UnknownRule => 1,
            Refusal::FramesOutside(_) => 2,
            Refusal::TraceTooLong => 3,
            Refusal::MarkRequested(_) => 4,
            Refusal::UnsoundRecord => 5,
            Refusal::LentTooShort => 6,
            Refusal::PlanBroken(_) => 7,
            Refusal::ClockFull => 8,
            Refusal::FileCut(_) => 9,
            Refusal::CountNotAllowed(_) => 10,
            Refusal::BytesLeftOver(_) => 11,
            Refusal::PlanAboveCache => 12,
        }
    }

    pub fn place(self) -> u32
        ensures { result ≡ (table self).place }
    {
        match self {
            Refusal::FramesOutside(at) => at,
            Refusal::MarkRequested(at) => at,
            Refusal::PlanBroken(at) => at,
            Refusal::FileCut(at) => at,
            Refusal::CountNotAllowed(at) => at,
            Refusal::BytesLeftOver(at) => at,
            Refusal::PlanAboveCache => 8,
            Refusal::UnknownRule => 0,
            Refusal::TraceTooLong => 0,
            Refusal::UnsoundRecord => 0,
            Refusal::LentTooShort => 0,
            Refusal::ClockFull => 0,
        }
    }
}

// As the report's line of a refusal has it.
impl fmt::Display for Refusal {
    ghost output = { λ refusal. Some (refusal_text refusal) };

    fn fmt<W: fmt::Write>(&self, f: &mut fmt::Formatter<W>) -> fmt::Result {
        let refusal = *self;
        write!(f, "refused {} at {}", refusal.number(), refusal.place())
    }
}

impl Error for Refusal {}

// The numbers of a gate: a refusal's number and place, 0 for both where the call may go on: they leave by C (`gate_numbers`).
#[derive(Clone, Copy, Debug, PartialEq, Eq)]
pub struct GateNumbers {
    pub number: u32,
    pub place: u32,
}

impl From<Result<(), Refusal>> for GateNumbers {
    ghost from_gives = { λ gate numbers. numbers ≡ gate_numbers gate };

    fn from(gate: Result<(), Refusal>) -> GateNumbers {
        match gate {
            Ok(()) => GateNumbers {
                number: 0,
                place: 0,
            },
            Err(refusal) => GateNumbers {
                number: refusal.number(),
                place: refusal.place(),
            },
        }
    }
}
