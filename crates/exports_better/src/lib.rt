// Better of two for callers outside: the verdict, and the words of the plan that it names. How an answer is told, and what is asked of a caller, stands in `laying`.
#![tactic(auto)]

ghost use Rattle.std.specs.Prelude.{◌≡◌};
ghost use Rattle.judge.specs.Better.{better_of, better_words};
ghost use Rattle.paging.specs.Services.{laid};
ghost use Rattle.exports_better.specs.Words.{verdict_words, chosen_words};

use judge::VerdictNumbers;
use laying::lay;

#[unsafe(no_mangle)]
pub extern "C" fn hedravos_better(
    m: u32,
    trace: &[u32],
    first: &[u32],
    second: &[u32],
    answer: &mut [u32],
)
    ensures { answer.new ≡ laid (verdict_words (better_of m trace.now first.now second.now)) answer.old }
{
    let told = VerdictNumbers::from(judge::better(m, trace, first, second));
    let numbers = [told.number, told.place, told.which, told.faults];
    lay(&numbers, answer);
}

// The words that Better of two hands back, laid over the front of lent ones, and how many they are.
#[tactic(auto, using(crate::proofs::Words::words_few))]
#[unsafe(no_mangle)]
pub extern "C" fn hedravos_better_words<'a>(
    m: u32,
    trace: &[u32],
    first: &'a [u32],
    second: &'a [u32],
    words: &mut [u32],
    answer: &mut [u32],
)
    ensures words { words.new ≡ laid (better_words m trace.now first.now second.now) words.old }
    ensures answer { answer.new ≡ laid (chosen_words m trace.now first.now second.now) answer.old }
{
    let chosen = judge::better_words(m, trace, first, second);
    lay(chosen, words);
    let numbers = [chosen.len() as u32];
    lay(&numbers, answer);
}
