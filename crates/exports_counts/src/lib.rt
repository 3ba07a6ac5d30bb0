// Count, Write a plan and Check for callers outside. How an answer is told, and what is asked of a caller, stands in `laying`.
#![tactic(auto)]

ghost use Rattle.std.specs.Prelude.{◌≡◌};
ghost use Rattle.counts.specs.Counts.{count_of, plan_answer, plan_words};
ghost use Rattle.plans.specs.Check.{check_of};
ghost use Rattle.paging.specs.Services.{laid};
ghost use Rattle.exports_counts.specs.Words.{count_words};

use calls::AnswerNumbers;
use laying::lay;
use paging::Refusal;

// As put_reply has it for replies, in crate `exports_cache`: other numbers.
fn put_count(counted: Result<u32, Refusal>, answer: &mut [u32])
    ensures { answer.new ≡ laid (count_words counted) answer.old }
{
    let told = AnswerNumbers::from(counted);
    lay(&[told.number, told.place, told.faults], answer);
}

#[unsafe(no_mangle)]
pub extern "C" fn hedravos_count(rule: u32, n: u32, trace: &[u32], answer: &mut [u32])
    ensures { answer.new ≡ laid (count_words (count_of rule n trace.now)) answer.old }
{
    put_count(counts::count(rule, n, trace), answer);
}

#[unsafe(no_mangle)]
pub extern "C" fn hedravos_plan(
    rule: u32,
    n: u32,
    trace: &[u32],
    words: &mut [u32],
    answer: &mut [u32],
)
    ensures words { words.new ≡ plan_words rule n trace.now words.old }
    ensures answer { answer.new ≡ laid (count_words (plan_answer rule n trace.now words.old)) answer.old }
{
    put_count(counts::write_plan(rule, n, trace, words), answer);
}

#[unsafe(no_mangle)]
pub extern "C" fn hedravos_check(m: u32, trace: &[u32], words: &[u32], answer: &mut [u32])
    ensures { answer.new ≡ laid (count_words (check_of m trace.now words.now)) answer.old }
{
    put_count(judge::check(m, trace, words), answer);
}
