// What every service on a trace asks first, once for all: the chain of refusals 1, 2, 3, 4 and 6 of document 01 as code.
// A service takes the gate of its trace, adds its own tests, and goes on where the gate is open.
// Beside it: where a page stands in a list of pages, and document 01's numbers of an answer.
#![tactic(auto)]

ghost use Rattle.std.specs.Prelude.{◌≡◌};
ghost use Rattle.paging.specs.Lists.{place_of};
ghost use Rattle.paging.specs.Calls.{outside, gate, trace_tests, rule_tests};
ghost use Rattle.calls.specs.Chain.{lent_gate};
ghost use Rattle.calls.specs.Answers.{answer_numbers};

use paging::{Refusal, Rule};

// Each in the type that is counted in most; who counts in the other has a constant of its own.
pub const FRAMES: u32 = 256;

pub const REQUESTS: usize = 8000;

// The numbers of an answer: its faults, and a refusal's number and place. What an answer lacks is 0: they leave by C (`answer_numbers`).
#[derive(Clone, Copy, Debug, PartialEq, Eq)]
pub struct AnswerNumbers {
    pub faults: u32,
    pub number: u32,
    pub place: u32,
}

// Whether a number of frames is not 1 to 256.
pub fn outside(n: u32) -> bool
    ensures { result ≡ outside n }
{
    n < 1 || FRAMES < n
}

// Where the page first stands in the list; the list's length, if nowhere: a number in either case, since MIN compares it as a moment (`next_of`).
pub fn place_of(page: u32, pages: &[u32]) -> usize
    ensures { result ≡ place_of page pages.now }
{
    pages
        .iter()
        .position(|other| *other == page)
        .unwrap_or(pages.len())
}

// Refusals 2, 3 and 4: every call on a trace.
#[tactic(auto, using(crate::proofs::Search::found_mem, paging::proofs::Held::place_out), unfolding(paging::specs::Calls::gate, paging::specs::Calls::trace_tests))]
pub fn trace_gate(n: u32, trace: &[u32]) -> Result<(), Refusal>
    ensures { result ≡ gate (trace_tests n trace.now) }
{
    if outside(n) {
        return Err(Refusal::FramesOutside(0));
    }
    if REQUESTS < trace.len() {
        return Err(Refusal::TraceTooLong);
    }
    // By place_of, the one search: its laws are proved once.
    let at = place_of(paging::MARK, trace);
    if at < trace.len() {
        return Err(Refusal::MarkRequested(at as u32));
    }
    Ok(())
}

// Refusal 1, then those of the trace: a call that names a rule, by any number.
#[tactic(auto, unfolding(paging::specs::Calls::gate, paging::specs::Calls::rule_tests))]
pub fn rule_gate(rule: u32, n: u32, trace: &[u32]) -> Result<(), Refusal>
    ensures { result ≡ gate (rule_tests rule n trace.now) }
{
    Rule::try_from(rule)?;
    trace_gate(n, trace)
}

// An earlier refusal stays; else 6 where fewer words are lent than there are requests.
pub fn lent_gate(before: Result<(), Refusal>, requests: usize, lent: usize) -> Result<(), Refusal>
    ensures { result ≡ lent_gate before requests lent }
{
    before?;
    if lent < requests {
        return Err(Refusal::LentTooShort);
    }
    Ok(())
}

impl From<Result<u32, Refusal>> for AnswerNumbers {
    ghost from_gives = { λ answer numbers. numbers ≡ answer_numbers answer };

    fn from(answer: Result<u32, Refusal>) -> AnswerNumbers {
        match answer {
            Ok(faults) => AnswerNumbers {
                faults,
                number: 0,
                place: 0,
            },
            Err(refusal) => AnswerNumbers {
                faults: 0,
                number: refusal.number(),
                place: refusal.place(),
            },
        }
    }
}
