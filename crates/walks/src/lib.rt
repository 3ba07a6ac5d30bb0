// The walk of a rule over a whole trace, once for all rules: `run`, over a `Policy`, which is what a rule keeps beside the pages held and by which it knows the page that goes.
// In order: a policy; a hand that goes over the moments, by which two of the policies find that page; one request; the walk.
//
// A hand's list `served` has the frame in which the page of each moment stood then. A list of moments has one for each frame.
#![tactic(auto)]

ghost use Rattle.std.specs.Prelude.{◌≡◌, ℕ, List, ◌-◌, ◌+◌, ◌≤◌, ◌<◌, length, get_or, set, None};
ghost use Rattle.paging.specs.Calls.{frame_limit, request_limit, trace_tests};
ghost use Rattle.paging.specs.Held.{found};
ghost use Rattle.paging.specs.Services.{answered, laid, written};
ghost use Rattle.paging.specs.Walk.{fault_of, word_of, faults, plan};
ghost use Rattle.paging.specs.declared.Rule.{Rule};
ghost use Rattle.walks.specs.Hands.{has, stops, first_from};
ghost use Rattle.walks.specs.Tied.{held_before, choice_at, seat_at, told_at, Within};

use held::Held;
use paging::{Frame, Outcome, Page, Refusal};

// What a rule keeps over a trace, in arrays of the limits' lengths, since the walk has no heap, and the page that it drops.
pub trait Policy {
    ghost rule: { Rule };

    // What it keeps is right, just before the request of moment t of a trace in n frames.
    ghost Keeps: { Self → ℕ → List ℕ → ℕ → Type 0 };

    // Before the first request.
    fn start() -> Self
        ensures { (n : ℕ) (trace : List ℕ) → 1 ≤ n → Keeps result n trace 0 };

    // Frames, trace and moment come one by one, as `Within` speaks of the three.
    // The frame whose page goes, where the page requested is absent and the cache full: the one that the rule drops.
    fn goes(&mut self, n: usize, trace: &[u32], t: usize, held: &Held) -> Frame
        requires within { Within n trace.now t }
        requires keeps { Keeps self.old n trace.now t }
        requires held { held.now ≡ held_before rule n trace.now t }
        requires absent { found (get_or trace.now t 0) held.now ≡ None }
        requires full { n ≤ length held.now }
        ensures goes { result.0 ≡ choice_at rule n trace.now t }
        ensures keeps { Keeps self.new n trace.now t };

    // The request of moment t was served, its page in this frame, and came to this.
    fn served(&mut self, n: usize, trace: &[u32], t: usize, frame: Frame, outcome: Outcome)
        requires within { Within n trace.now t }
        requires keeps { Keeps self.old n trace.now t }
        requires seat { frame.0 ≡ seat_at rule n trace.now t }
        requires told { outcome ≡ told_at rule n trace.now t }
        ensures { Keeps self.new n trace.now (t + 1) };
}

// Whether a list of moments has this one for the frame. Tested by hand and not by `get`: so the clause is read off the two tests (`has`).
fn has(moments: &[u16], frame: usize, moment: usize) -> bool
    ensures { result ≡ has moments.now frame moment }
{
    frame < moments.len() && moments[frame] as usize == moment
}

// Whether both lists have this moment for the frame served then, or `served` has none.
fn stops(at: usize, served: &[u8], moments: &[u16], others: &[u16]) -> bool
    ensures { result ≡ stops moments.now others.now served.now at }
{
    if served.len() <= at {
        return true;
    }
    let frame = served[at] as usize;
    has(moments, frame, at) && has(others, frame, at)
}

// The first moment, from the hand on and before `end`, that both lists have for the frame served then, or for which `served` has none.
// Where there is none such: `end`, or the hand if it is past that.
pub fn onward(hand: usize, end: usize, served: &[u8], moments: &[u16], others: &[u16]) -> usize
    ensures { result ≡ first_from (stops moments.now others.now served.now) hand (end - hand) }
{
    // No `find` over the range: the loop goes on as the definition does (`first_from`), where `find` would need a law of its own.
    for at in hand..end {
        if stops(at, served, moments, others) {
            return at;
        }
    }
    hand.max(end)
}

// The fault of the outcome of moment i; its word of the plan goes into the lent words, if there is one for it.
pub fn told(outcome: Outcome, i: usize, words: &mut [u32]) -> u32
    ensures { (result ≡ fault_of outcome) × (words.new ≡ set words.old i (word_of outcome)) }
{
    // Tried with `get_mut`: its proof takes the list from both arms by hand, which is no plainer.
    if i < words.len() {
        words[i] = outcome.word();
    }
    outcome.fault()
}

// The frame for the page of moment t: its own, if it is held; the next free one, if there is room; else that of the page that goes.
fn seat<P: Policy>(policy: &mut P, n: usize, trace: &[u32], t: usize, held: &Held) -> Frame
    requires within { Within n trace.now t }
    requires keeps { P.Keeps policy.old n trace.now t }
    requires held { held.now ≡ held_before P.rule n trace.now t }
    ensures seat { result.0 ≡ seat_at P.rule n trace.now t }
    ensures keeps { P.Keeps policy.new n trace.now t }
{
    match held.find(Page(trace[t])) {
        Some(frame) => frame,
        None => {
            let len = held.len();
            if len < n {
                return Frame(len as u32);
            }
            policy.goes(n, trace, t, held)
        }
    }
}

// Walks a trace from empty: its faults, and as much of its plan as there are lent words for. With no words it only counts.
fn walked<P: Policy + Drop>(n: u32, trace: &[u32], words: &mut [u32]) -> u32
    requires { (1 ≤ n) × (n ≤ frame_limit) × (length trace.now ≤ request_limit) }
    ensures { (result ≡ faults P.rule n trace.now) × (words.new ≡ laid (plan P.rule n trace.now) words.old) }
{
    let mut policy = P::start();
    let mut held = Held::new();
    let mut faults: u32 = 0;
    // By moments, and not over the pages: a policy is asked with the whole trace, as MIN looks ahead.
    for t in 0..trace.len() {
        let frame = seat(&mut policy, n as usize, trace, t, &held);
        let outcome = held.put(Page(trace[t]), frame);
        faults += told(outcome, t, words);
        policy.served(n as usize, trace, t, frame, outcome);
    }
    faults
}

// The rule's faults of a trace, or refusal 2, 3 or 4; as much of its plan as there are lent words for goes into them. A refusal keeps all words.
pub fn run<P: Policy + Drop>(n: u32, trace: &[u32], words: &mut [u32]) -> Result<u32, Refusal>
    ensures { (result ≡ answered (trace_tests n trace.now) P.rule n trace.now) × (words.new ≡ written (trace_tests n trace.now) P.rule n trace.now words.old) }
{
    calls::trace_gate(n, trace)?;
    Ok(walked::<P>(n, trace, words))
}
