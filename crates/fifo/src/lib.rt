// FIFO over a whole trace: its count and its plan. The frames are filled one after another, and their pages then go in the same order, round and round:
// so the policy carries the frame of the next fault, which is the next free one or, in a full cache, that of the page loaded earliest.
#![tactic(auto)]

ghost use Rattle.std.specs.Prelude.{◌≡◌, ◌≤◌, ◌<◌, length};
ghost use Rattle.paging.specs.Calls.{trace_tests};
ghost use Rattle.paging.specs.Services.{answered, written};
ghost use Rattle.paging.specs.Walk.{fault_of, entries_at};
ghost use Rattle.paging.specs.declared.Rule.TheVariants.{Fifo};
ghost use Rattle.walks.specs.Tied.{held_before, choice_at, seat_at, told_at, Within};
ghost use Rattle.fifo.specs.Devices.{next_after};
ghost use Rattle.fifo.specs.Round.{Round};

use held::Held;
use paging::{Frame, Outcome, Refusal};
use walks::Policy;

// The frame of the next fault in n frames, after a request that came to this: it goes on by one with each fault, from the last frame to the first.
fn next_after(outcome: Outcome, next: usize, n: usize) -> usize
    requires { next < n }
    ensures { result ≡ next_after (fault_of outcome) next n }
{
    if outcome == Outcome::Hit {
        return next;
    }
    if next + 1 < n {
        return next + 1;
    }
    0
}

// The frame of the next fault.
#[derive(Drop)]
pub struct FifoPolicy {
    next: usize,
}

impl Policy for FifoPolicy {
    ghost rule = { Fifo };

    ghost Keeps = { λ policy n trace t. Round n t policy.next (entries_at Fifo n trace t) };

    fn start() -> FifoPolicy {
        FifoPolicy { next: 0 }
    }

    fn goes(&mut self, _n: usize, _trace: &[u32], _t: usize, _held: &Held) -> Frame {
        Frame(self.next as u32)
    }

    fn served(&mut self, n: usize, _trace: &[u32], _t: usize, _frame: Frame, outcome: Outcome) {
        self.next = next_after(outcome, self.next, n);
    }
}

// FIFO's faults of a trace, or refusal 2, 3 or 4; as much of its plan as there are lent words for goes into them. A refusal keeps all words.
// A line for each rule: its promise names the rule.
pub fn run(n: u32, trace: &[u32], words: &mut [u32]) -> Result<u32, Refusal>
    ensures { (result ≡ answered (trace_tests n trace.now) Fifo n trace.now) × (words.new ≡ written (trace_tests n trace.now) Fifo n trace.now words.old) }
{
    walks::run::<FifoPolicy>(n, trace, words)
}
