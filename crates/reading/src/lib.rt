// What reading a bundle file of document 01 answers: its sizes and counts, or the first refusal. Nothing is copied here; `bundle::read` copies what was judged.
// In order: a word by the reader of `words`; the gates of a file, front to back; the answer; document 01's numbers of it.
// How many words are lent comes beside the file, as the clause has it (`read_of`); the promise says the numbers beside the answer, as no less may be promised.
#![tactic(auto)]

ghost use Rattle.std.specs.Prelude.{◌≡◌, ◌+◌, ◌*◌, ◌/◌, ◌<◌, ◌≤◌, true, false, length, MatchOption};
ghost use Rattle.paging.specs.Calls.{request_limit, gate, marked, first_mark};
ghost use Rattle.paging.specs.declared.Refusal.TheVariants.{FileCut};
ghost use Rattle.words.specs.Bytes.{word_at, words_at};
ghost use Rattle.reading.specs.Reading.{request_count, plan_fits, size_tests, head_tests, tail_tests, form_tests, value_tests, read_tests, read_of};
ghost use Rattle.reading.specs.Numbers.{read_numbers};

use paging::Refusal;
use words::reader;

// What a bundle says of itself: both sizes, the number of requests, and of plan words (0 where no plan came).
#[derive(Clone, Copy, Debug, PartialEq, Eq)]
pub struct Sizes {
    pub n: u32,
    pub m: u32,
    pub requests: u32,
    pub planned: u32,
}

// Document 01's numbers of a reading, as C gets them. What an answer lacks is 0.
#[derive(Clone, Copy, Debug, PartialEq, Eq)]
pub struct ReadNumbers {
    pub number: u32,
    pub place: u32,
    pub n: u32,
    pub m: u32,
    pub requests: u32,
    pub planned: u32,
}

// The word at a byte of a file that has it, by a reader, which so never answers none.
#[tactic(auto, using(words::proofs::Bytes::word_whole))]
fn number_at(file: &[u8], at: usize) -> u32
    requires { at + 4 ≤ length file.now }
    ensures { result ≡ word_at file.now at }
{
    reader::word_from(file, at).unwrap()
}

// The first moment that requests the mark, if any does.
// The search goes through the requests' numbers: in the file they are bytes, and no list of words.
fn mark_at(file: &[u8], requests: usize) -> Option<usize>
    requires { 16 + 4 * requests ≤ length file.now }
    ensures { MatchOption result (marked (words_at file.now 16 requests) ≡ false) (λ i. (i < requests) × (marked (words_at file.now 16 requests) ≡ true) × (i ≡ first_mark (words_at file.now 16 requests))) }
{
    (0..requests).position(
        |i|
            requires { 16 + 4 * i + 4 ≤ length file.now }
        { number_at(file, 16 + 4 * i) == paging::MARK },
    )
}

// 9: the byte where the missing or partial word begins.
fn cut(len: usize) -> Refusal
    requires { len < 65536 }
    ensures { result ≡ FileCut (len / 4 * 4) }
{
    Refusal::FileCut((len / 4 * 4) as u32)
}

// Refusals 9 and 10 as far as the requests' count.
#[tactic(auto, unfolding(paging::specs::Calls::gate, crate::specs::Reading::head_tests))]
fn head_gate(file: &[u8]) -> Result<(), Refusal>
    ensures { result ≡ gate (head_tests file.now) }
{
    if file.len() < 4 {
        return Err(cut(file.len()));
    }
    if number_at(file, 0) != 2 {
        return Err(Refusal::CountNotAllowed(0));
    }
    if file.len() < 16 {
        return Err(cut(file.len()));
    }
    if (calls::REQUESTS as u32) < number_at(file, 12) {
        return Err(Refusal::CountNotAllowed(12));
    }
    Ok(())
}

// 10: a plan's count is 0, as document 01 says that there is none, or the number of requests.
pub fn plan_fits(requests: usize, planned: usize) -> bool
    ensures { result ≡ plan_fits requests planned }
{
    planned == 0 || planned == requests
}

// Refusals 9, 10 and 11 from the requests on.
#[tactic(auto, unfolding(paging::specs::Calls::gate, crate::specs::Reading::tail_tests))]
fn tail_gate(file: &[u8], requests: usize) -> Result<(), Refusal>
    requires { (requests ≡ request_count file.now) × (requests ≤ request_limit) }
    ensures { result ≡ gate (tail_tests file.now) }
{
    let at = 16 + 4 * requests;
    if file.len() < at + 4 {
        return Err(cut(file.len()));
    }
    let planned = number_at(file, at) as usize;
    if !plan_fits(requests, planned) {
        return Err(Refusal::CountNotAllowed(at as u32));
    }
    let end = at + 4 + 4 * planned;
    if file.len() < end {
        return Err(cut(file.len()));
    }
    if end < file.len() {
        return Err(Refusal::BytesLeftOver(end as u32));
    }
    Ok(())
}

// Refusals 9, 10 and 11, front to back.
#[tactic(auto, using(crate::proofs::Chains::form_steps))]
fn form_gate(file: &[u8]) -> Result<(), Refusal>
    ensures { result ≡ gate (form_tests file.now) }
{
    head_gate(file)?;
    tail_gate(file, number_at(file, 12) as usize)
}

// Refusals 2 and 12, with the places that 2 has for n and for m.
#[tactic(auto, unfolding(paging::specs::Calls::gate, crate::specs::Reading::size_tests))]
pub fn size_gate(n: u32, m: u32, first: u32, second: u32) -> Result<(), Refusal>
    ensures { result ≡ gate (size_tests n m first second) }
{
    if calls::outside(n) {
        return Err(Refusal::FramesOutside(first));
    }
    if calls::outside(m) {
        return Err(Refusal::FramesOutside(second));
    }
    if n < m {
        return Err(Refusal::PlanAboveCache);
    }
    Ok(())
}

// Refusals 2, 12 and 4 of a file in form.
#[tactic(auto, using(crate::proofs::Chains::value_steps))]
fn value_gate(file: &[u8], requests: usize) -> Result<(), Refusal>
    requires { (requests ≡ request_count file.now) × (requests ≤ request_limit) × (16 + 4 * requests ≤ length file.now) }
    ensures { result ≡ gate (value_tests file.now) }
{
    size_gate(number_at(file, 4), number_at(file, 8), 4, 8)?;
    if let Some(moment) = mark_at(file, requests) {
        return Err(Refusal::MarkRequested((16 + 4 * moment) as u32));
    }
    Ok(())
}

// Every refusal of a reading in its order; `requests` and `plan` are how many words are lent for each.
#[tactic(auto, using(crate::proofs::Chains::read_steps))]
fn read_gate(file: &[u8], requests: usize, plan: usize) -> Result<(), Refusal>
    ensures { result ≡ gate (read_tests file.now requests plan) }
{
    form_gate(file)?;
    let count = number_at(file, 12) as usize;
    let planned = number_at(file, 16 + 4 * count) as usize;
    calls::lent_gate(
        calls::lent_gate(value_gate(file, count), count, requests),
        planned,
        plan,
    )
}

// The sizes and counts of a file for which so many words are lent, or the first refusal: 9, 10 and 11 front to back, then 2, 12, 4 and 6.
#[tactic(auto, using(crate::proofs::Chains::answer_steps))]
pub fn judge(file: &[u8], requests: usize, plan: usize) -> Result<Sizes, Refusal>
    ensures { (result ≡ read_of file.now requests plan) × (read_numbers result ≡ read_numbers (read_of file.now requests plan)) }
{
    read_gate(file, requests, plan)?;
    let count = number_at(file, 12);
    let planned = number_at(file, 16 + 4 * (count as usize));
    Ok(Sizes {
        n: number_at(file, 4),
        m: number_at(file, 8),
        requests: count,
        planned,
    })
}

impl From<Result<Sizes, Refusal>> for ReadNumbers {
    ghost from_gives = { λ answer numbers. numbers ≡ read_numbers answer };

    fn from(answer: Result<Sizes, Refusal>) -> ReadNumbers {
        match answer {
            Ok(sizes) => ReadNumbers {
                number: 0,
                place: 0,
                n: sizes.n,
                m: sizes.m,
                requests: sizes.requests,
                planned: sizes.planned,
            },
            Err(refusal) => ReadNumbers {
                number: refusal.number(),
                place: refusal.place(),
                n: 0,
                m: 0,
                requests: 0,
                planned: 0,
            },
        }
    }
}
