// Document 01's services Check and Better of two.
// Check is answered by the walk of a plan (`plans::run`).
// Better of two has one choice, `better`, behind both of its questions.
// Frames, trace and plans come one by one, as C hands them over; a promise says the numbers beside the answer, as no less may be promised.
#![tactic(auto)]

ghost use Rattle.std.specs.Prelude.{◌≡◌};
ghost use Rattle.calls.specs.Answers.{answer_numbers};
ghost use Rattle.plans.specs.Check.{check_of};
ghost use Rattle.judge.specs.Better.{fewer, better_of, better_words, lender_of, verdict_numbers};

use paging::Refusal;

// Which of two plans is better, and its faults.
#[derive(Clone, Copy, Debug, PartialEq, Eq)]
pub enum BetterPlan {
    First(u32),
    Second(u32),
}

// The numbers of a verdict, which leave by C: which plan, its faults, and a refusal's number and place. What a verdict lacks is 0.
#[derive(Clone, Copy, Debug, PartialEq, Eq)]
pub struct VerdictNumbers {
    pub which: u32,
    pub faults: u32,
    pub number: u32,
    pub place: u32,
}

// Check: what the walk of the plan in the first T words answers, refusals 2, 3, 4 and 6 before it.
// It hands on `plans::run`: this is the service's name, and its promise has the answer's numbers too.
pub fn check(m: u32, trace: &[u32], words: &[u32]) -> Result<u32, Refusal>
    ensures { (result ≡ check_of m trace.now words.now) × (answer_numbers result ≡ answer_numbers (check_of m trace.now words.now)) }
{
    plans::run(m, trace, words)
}

// The plan with fewer faults, of two answers of Check.
fn fewer(first: Result<u32, Refusal>, second: Result<u32, Refusal>) -> Result<BetterPlan, Refusal>
    ensures { result ≡ fewer first second }
{
    match (first, second) {
        (Ok(f), Ok(g)) if g < f => Ok(BetterPlan::Second(g)),
        (Ok(f), _) => Ok(BetterPlan::First(f)),
        (Err(_), Ok(g)) => Ok(BetterPlan::Second(g)),
        (Err(refusal), Err(_)) => Err(refusal),
    }
}

// Better of two, the verdict: the plan with fewer faults, and its count. Equal: the first. Neither accepted: the first plan's refusal.
#[tactic(auto, unfolding(crate::specs::Better::better_of))]
pub fn better(m: u32, trace: &[u32], first: &[u32], second: &[u32]) -> Result<BetterPlan, Refusal>
    ensures { (result ≡ better_of m trace.now first.now second.now) × (verdict_numbers result ≡ verdict_numbers (better_of m trace.now first.now second.now)) }
{
    fewer(check(m, trace, first), check(m, trace, second))
}

// Better of two, the words: the first T words of the plan that the verdict names, as they were lent: the very slice, and no copy, is what callers ask for.
#[tactic(auto, unfolding(crate::specs::Better::better_words), using(crate::proofs::TwoPlans::words_first, crate::proofs::TwoPlans::words_second))]
pub fn better_words<'a>(m: u32, trace: &[u32], first: &'a [u32], second: &'a [u32]) -> &'a [u32]
    ensures words { result.now ≡ better_words m trace.now first.now second.now }
    ensures lender { result.ref_ptr ≡ lender_of (better_of m trace.now first.now second.now) first.entry.ref_ptr second.entry.ref_ptr }
{
    match better(m, trace, first, second) {
        Ok(BetterPlan::First(_)) => &first[..trace.len()],
        Ok(BetterPlan::Second(_)) => &second[..trace.len()],
        Err(_) => &first[..0],
    }
}

impl From<Result<BetterPlan, Refusal>> for VerdictNumbers {
    ghost from_gives = { λ verdict numbers. numbers ≡ verdict_numbers verdict };

    fn from(verdict: Result<BetterPlan, Refusal>) -> VerdictNumbers {
        match verdict {
            Ok(BetterPlan::First(faults)) => VerdictNumbers {
                which: 1,
                faults,
                number: 0,
                place: 0,
            },
            Ok(BetterPlan::Second(faults)) => VerdictNumbers {
                which: 2,
                faults,
                number: 0,
                place: 0,
            },
            Err(refusal) => VerdictNumbers {
                which: 0,
                faults: 0,
                number: refusal.number(),
                place: refusal.place(),
            },
        }
    }
}
