// MIN over a whole trace: its count and its plan. Beside each held page stands its turn, the moment of its next request.
#![tactic(auto)]

ghost use Rattle.std.specs.Prelude.{◌≡◌, ℕ, ◌+◌, ◌≤◌, ◌<◌, length, get_or};
ghost use Rattle.paging.specs.Calls.{frame_limit, request_limit, trace_tests};
ghost use Rattle.paging.specs.Services.{answered, written};
ghost use Rattle.paging.specs.Walk.{entries_at};
ghost use Rattle.paging.specs.declared.Rule.TheVariants.{Min};
ghost use Rattle.minimum.specs.Devices.Turns.{turn_of, goes_before, Behind};
ghost use Rattle.minimum.specs.Fair.{Fair};

use held::Held;
use paging::{Frame, Outcome, Refusal};
use walks::Policy;

// The turn of the page that is requested at moment t: when it is requested next; the trace's length, if never.
fn next_request(trace: &[u32], t: usize) -> u32
    requires { (t < length trace.now) × (length trace.now ≤ request_limit) }
    ensures { result ≡ turn_of trace.now (t + 1) (get_or trace.now t 0) }
{
    let from = t + 1;
    let later = &trace[from..];
    (from + calls::place_of(trace[t], later)) as u32
}

// Whether the first goes before the second: its turn is later, or the same and its number lower.
fn beyond(turn: u32, page: u32, other: u32, rival: u32) -> bool
    ensures { result ≡ goes_before turn page other rival }
{
    (other, page) < (turn, rival)
}

// The frame whose turn is latest; of several with the same turn, that of the lowest page number.
fn latest(pages: &[u32], turns: &[u32; held::FRAMES]) -> Frame
    requires { (0 < length pages.now) × (length pages.now ≤ frame_limit) }
    ensures { (result.0 < length pages.now) × ((j : ℕ) → j < length pages.now → Behind pages.now turns.now j result.0) }
{
    let mut best: usize = 0;
    // By frames, as `Held` lends the pages and knows no turns; no min_by_key, as the latest turn goes first but the lowest page.
    for i in 1..pages.len() {
        if beyond(turns[i], pages[i], turns[best], pages[best]) {
            best = i;
        }
    }
    Frame(best as u32)
}

// The turn of the page in each frame.
#[derive(Drop)]
pub struct MinPolicy {
    turns: [u32; held::FRAMES],
}

impl Policy for MinPolicy {
    ghost rule = { Min };

    ghost Keeps = { λ policy n trace t. Fair n trace t policy.turns };

    fn start() -> MinPolicy {
        MinPolicy {
            turns: [0; held::FRAMES],
        }
    }

    fn goes(&mut self, _n: usize, _trace: &[u32], _t: usize, held: &Held) -> Frame {
        latest(held.pages(), &self.turns)
    }

    fn served(&mut self, _n: usize, trace: &[u32], t: usize, frame: Frame, _outcome: Outcome) {
        self.turns[frame.0 as usize] = next_request(trace, t);
    }
}

// MIN's faults of a trace, or refusal 2, 3 or 4; as much of its plan as there are lent words for goes into them. A refusal keeps all words.
// A line for each rule: its promise names the rule.
pub fn run(n: u32, trace: &[u32], words: &mut [u32]) -> Result<u32, Refusal>
    ensures { (result ≡ answered (trace_tests n trace.now) Min n trace.now) × (words.new ≡ written (trace_tests n trace.now) Min n trace.now words.old) }
{
    walks::run::<MinPolicy>(n, trace, words)
}
