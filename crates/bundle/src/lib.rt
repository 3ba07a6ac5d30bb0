// The bundle file of document 01: little-endian words in three sections, sizes, requests and plan, each after its count.
// Reading copies only what `reading` has judged whole; writing judges the call before it writes anything.
// In order: reading; words and sections to bytes; writing; document 01's numbers of a writing.
// Sizes, requests, plan and room come one by one, as C hands them over; a promise says the numbers beside the answer, as no less may be promised.
#![tactic(auto)]

ghost use Rattle.std.specs.Prelude.{◌≡◌, ◌+◌, ◌*◌, ◌≤◌, length};
ghost use Rattle.paging.specs.Calls.{request_limit, gate};
ghost use Rattle.paging.specs.Services.{laid};
ghost use Rattle.reading.specs.Reading.{read_of};
ghost use Rattle.reading.specs.Numbers.{read_numbers};
ghost use Rattle.bundle.specs.Bytes.{bytes_of, bytes_in, section};
ghost use Rattle.bundle.specs.Reading.{requests_left, plan_left};
ghost use Rattle.bundle.specs.Writing.{call_tests, write_of, room_left};
ghost use Rattle.bundle.specs.Numbers.{write_numbers};

use paging::Refusal;
use reading::Sizes;
use words::reader;

// Document 01's numbers of a writing, as C gets them, in this order and by these names, so no `AnswerNumbers`. What an answer lacks is 0.
#[derive(Clone, Copy, Debug, PartialEq, Eq)]
pub struct WriteNumbers {
    pub number: u32,
    pub place: u32,
    pub bytes: u32,
}

// Reading: both sizes and counts, with the requests and the plan at the front of the lent lists, other words as they were.
// Refusals 9, 10 and 11 front to back, then 2, 12, 4 and 6, with all words as they were.
#[tactic(auto, using(crate::proofs::Chains::read_steps))]
pub fn read(file: &[u8], requests: &mut [u32], plan: &mut [u32]) -> Result<Sizes, Refusal>
    ensures { (result ≡ read_of file.now (length requests.old) (length plan.old)) × (requests.new ≡ requests_left file.now requests.old (length plan.old)) × (plan.new ≡ plan_left file.now (length requests.old) plan.old) × (read_numbers result ≡ read_numbers (read_of file.now (length requests.old) (length plan.old))) }
{
    let sizes = reading::judge(file, requests.len(), plan.len())?;
    let at = 16 + 4 * (sizes.requests as usize);
    reader::section_from(file, 16, sizes.requests as usize, requests);
    reader::section_from(file, at + 4, sizes.planned as usize, plan);
    Ok(sizes)
}

// Puts a word at the front of the room.
#[tactic(auto, using(crate::proofs::Bytes::put_four))]
fn put_word(room: &mut [u8], word: u32)
    requires { 4 ≤ length room.old }
    ensures { room.new ≡ laid (bytes_of word) room.old }
{
    room[..4].copy_from_slice(&word.to_le_bytes());
}

// Puts words one behind the other at the front of the room.
// Each part is taken by its place: what a room holds after a loop over its chunks can't be proved.
#[tactic(auto, using(crate::proofs::Bytes::laid_none, crate::proofs::Bytes::laid_word))]
fn put_words(room: &mut [u8], words: &[u32])
    requires { 4 * length words.now ≤ length room.old }
    ensures { room.new ≡ laid (bytes_in words.now) room.old }
{
    for (i, word) in words.iter().enumerate() {
        put_word(&mut room[4 * i..], *word);
    }
}

// Puts a section at the front of the room: the count of its words, then its words.
#[tactic(auto, using(crate::proofs::Bytes::laid_section))]
fn put_section(room: &mut [u8], words: &[u32])
    requires { (4 + 4 * length words.now ≤ length room.old) × (length words.now ≤ request_limit) }
    ensures { room.new ≡ laid (section words.now) room.old }
{
    put_word(room, words.len() as u32);
    put_words(&mut room[4..], words);
}

// Refusals 2, 12, 3, 4 and 10 of a writing.
#[tactic(auto, using(crate::proofs::Chains::call_steps))]
fn call_gate(n: u32, m: u32, trace: &[u32], planned: usize) -> Result<(), Refusal>
    ensures { result ≡ gate (call_tests n m trace.now planned) }
{
    reading::size_gate(n, m, 0, 0)?;
    calls::trace_gate(n, trace)?;
    if !reading::plan_fits(trace.len(), planned) {
        return Err(Refusal::CountNotAllowed(0));
    }
    Ok(())
}

// Writing: the bundle at the front of the room, other bytes as they were; answers its bytes.
// Refusals 2, 12, 3, 4, 10 and 6, with the whole room as it was. Whether the plan keeps the plan rule isn't judged.
#[tactic(auto, using(crate::proofs::Chains::write_steps))]
pub fn write(n: u32, m: u32, trace: &[u32], plan: &[u32], room: &mut [u8]) -> Result<u32, Refusal>
    ensures { (result ≡ write_of n m trace.now plan.now (length room.old)) × (room.new ≡ room_left n m trace.now plan.now room.old) × (write_numbers result ≡ write_numbers (write_of n m trace.now plan.now (length room.old))) }
{
    call_gate(n, m, trace, plan.len())?;
    let at = 16 + 4 * trace.len();
    let end = at + 4 + 4 * plan.len();
    if room.len() < end {
        return Err(Refusal::LentTooShort);
    }
    put_section(room, &[n, m]);
    put_section(&mut room[12..], trace);
    put_section(&mut room[at..], plan);
    Ok(end as u32)
}

impl From<Result<u32, Refusal>> for WriteNumbers {
    ghost from_gives = { λ answer numbers. numbers ≡ write_numbers answer };

    fn from(answer: Result<u32, Refusal>) -> WriteNumbers {
        match answer {
            Ok(bytes) => WriteNumbers {
                number: 0,
                place: 0,
                bytes,
            },
            Err(refusal) => WriteNumbers {
                number: refusal.number(),
                place: refusal.place(),
                bytes: 0,
            },
        }
    }
}
