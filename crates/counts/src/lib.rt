// The services Count and Write a plan, for all four rules: each rule has a crate with its walk over a whole trace.
// Rule, frames, trace and words come one by one, as C hands them over; a promise says the numbers beside the answer, as no less may be promised.
#![tactic(auto)]

ghost use Rattle.std.specs.Prelude.{◌≡◌};
ghost use Rattle.paging.specs.Rules.{rule_numbered, named};
ghost use Rattle.paging.specs.Calls.{trace_tests, rule_tests};
ghost use Rattle.paging.specs.Services.{answered, written};
ghost use Rattle.calls.specs.Answers.{answer_numbers};
ghost use Rattle.counts.specs.Counts.{count_of, plan_answer, plan_words};

use paging::{Refusal, Rule};

// The faults of the rule's walk, or refusal 2, 3 or 4, and as much of the plan as there are lent words for.
// A match: the one place where a rule becomes its crate's walk, and all four are named.
fn walk(rule: Rule, n: u32, trace: &[u32], words: &mut [u32]) -> Result<u32, Refusal>
    ensures { (result ≡ answered (trace_tests n trace.now) rule n trace.now) × (words.new ≡ written (trace_tests n trace.now) rule n trace.now words.old) }
{
    match rule {
        Rule::Lru => lru1::run(n, trace, words),
        Rule::Fifo => fifo::run(n, trace, words),
        Rule::Min => minimum::run(n, trace, words),
        Rule::Lru2 => lru2::run(n, trace, words),
    }
}

// The same for the rule that a number stands for; refusal 1 comes first.
fn run(rule: u32, n: u32, trace: &[u32], words: &mut [u32]) -> Result<u32, Refusal>
    ensures { (result ≡ count_of rule n trace.now) × (words.new ≡ written (rule_tests rule n trace.now) (named (rule_numbered rule)) n trace.now words.old) }
{
    walk(Rule::try_from(rule)?, n, trace, words)
}

// Count: the faults of the rule with n frames, or refusal 1, 2, 3 or 4 in that order.
pub fn count(rule: u32, n: u32, trace: &[u32]) -> Result<u32, Refusal>
    ensures { (result ≡ count_of rule n trace.now) × (answer_numbers result ≡ answer_numbers (count_of rule n trace.now)) }
{
    run(rule, n, trace, &mut [])
}

// Write a plan: the rule's plan in the first T words, every other word as it was. Refusals 1, 2, 3, 4, then 6, with all words as they were.
pub fn write_plan(rule: u32, n: u32, trace: &[u32], words: &mut [u32]) -> Result<u32, Refusal>
    ensures { (result ≡ plan_answer rule n trace.now words.old) × (words.new ≡ plan_words rule n trace.now words.old) × (answer_numbers result ≡ answer_numbers (plan_answer rule n trace.now words.old)) }
{
    calls::lent_gate(calls::rule_gate(rule, n, trace), trace.len(), words.len())?;
    run(rule, n, trace, words)
}
