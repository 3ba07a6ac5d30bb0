// What the service Check answers: the chain of refusals, then the walk of a plan over its trace, with the pages held and their index.
// What is wrong with an entry, and else the frame for the requested page, is said by `judge_entry`; the page is put there by `Held::put`, as in the walk of the rules. Frames, trace and words come one by one, as C hands them over.
#![tactic(auto)]

ghost use Rattle.std.specs.Prelude.{◌≡◌, ◌≤◌, eqb, length, Ok, Err};
ghost use Rattle.paging.specs.Lists.{pick};
ghost use Rattle.paging.specs.Rules.{mark};
ghost use Rattle.paging.specs.Calls.{request_limit, frame_limit};
ghost use Rattle.paging.specs.Held.{found, frame_after};
ghost use Rattle.paging.specs.Plans.{judged, check};
ghost use Rattle.plans.specs.Check.{check_of};
ghost use Rattle.plans.specs.Devices.{settled};

use held::Held;
use paging::{Frame, Moment, Page, Refusal};

// An entry that must be the mark: the frame where it is, and the refusal that it gets otherwise.
fn mark_only(w: Page, frame: Frame, otherwise: Refusal) -> Result<Frame, Refusal>
    ensures { result ≡ settled (pick (eqb w.0 mark) (Ok tt) (Err otherwise)) frame }
{
    if w == Page(paging::MARK) {
        return Ok(frame);
    }
    Err(otherwise)
}

// What the entry `w` for a request of page `p` at moment `t` in `m` frames comes to: the page's own frame, the next free one, or that of the page that `w` names; or the refusal.
#[tactic(auto, unfolding(paging::specs::Held::frame_after, paging::specs::Plans::judged))]
fn judge_entry(m: u32, t: Moment, p: Page, w: Page, held: &Held) -> Result<Frame, Refusal>
    ensures { result ≡ settled (judged m t.0 held.now p.0 w.0) (record { 0 = frame_after m p.0 (found w.0 held.now) held.now }) }
{
    let broken = Refusal::PlanBroken(t.0);
    if let Some(frame) = held.find(p) {
        return mark_only(w, frame, broken);
    }
    let next = held.len();
    if next < m as usize {
        return mark_only(w, Frame(next as u32), broken);
    }
    held.find(w).ok_or(broken)
}

// The walk of a plan from an empty cache, where refusals 2, 3, 4 and 6 are not given. By a call of its own: laid into a caller in C, the loop keeps its bounds in memory.
#[inline(never)]
fn walked(m: u32, trace: &[u32], words: &[u32]) -> Result<u32, Refusal>
    requires { (m ≤ frame_limit) × (length trace.now ≤ request_limit) × (length trace.now ≤ length words.now) }
    ensures { result ≡ check m trace.now words.now }
{
    let mut held = Held::new();
    let mut faults: u32 = 0;
    // The entry by its place, and not by `zip`, which counts both lists down: a quarter longer for each request.
    for (t, page) in trace.iter().enumerate() {
        let p = Page(*page);
        let w = Page(words[t]);
        let frame = judge_entry(m, Moment(t as u32), p, w, &held)?;
        faults += held.put(p, frame).fault();
    }
    Ok(faults)
}

// The faults of the plan in the first T words; else refusal 2, 3, 4 or 6, or 7 at the first entry that breaks the rule.
#[tactic(auto, unfolding(crate::specs::Check::check_of), using(calls::proofs::Chain::gate_lent, calls::proofs::Chain::trace_open, calls::proofs::Chain::lent_open))]
pub fn run(m: u32, trace: &[u32], words: &[u32]) -> Result<u32, Refusal>
    ensures { result ≡ check_of m trace.now words.now }
{
    calls::lent_gate(calls::trace_gate(m, trace), trace.len(), words.len())?;
    walked(m, trace, words)
}
