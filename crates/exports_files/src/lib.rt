// Bundle files for callers outside: reading and writing. How an answer is told, and what is asked of a caller, stands in `laying`.
#![tactic(auto)]

ghost use Rattle.std.specs.Prelude.{◌≡◌, length};
ghost use Rattle.reading.specs.Reading.{read_of};
ghost use Rattle.bundle.specs.Reading.{requests_left, plan_left};
ghost use Rattle.bundle.specs.Writing.{write_of, room_left};
ghost use Rattle.paging.specs.Services.{laid};
ghost use Rattle.exports_files.specs.Words.{read_words, write_words};

use bundle::WriteNumbers;
use laying::lay;
use reading::ReadNumbers;

#[unsafe(no_mangle)]
pub extern "C" fn hedravos_read(
    bytes: &[u8],
    requests: &mut [u32],
    plan: &mut [u32],
    answer: &mut [u32],
)
    ensures requests { requests.new ≡ requests_left bytes.now requests.old (length plan.old) }
    ensures plan { plan.new ≡ plan_left bytes.now (length requests.old) plan.old }
    ensures answer { answer.new ≡ laid (read_words (read_of bytes.now (length requests.old) (length plan.old))) answer.old }
{
    let told = ReadNumbers::from(bundle::read(bytes, requests, plan));
    let numbers = [
        told.number,
        told.place,
        told.n,
        told.m,
        told.requests,
        told.planned,
    ];
    lay(&numbers, answer);
}

#[unsafe(no_mangle)]
pub extern "C" fn hedravos_write(
    n: u32,
    m: u32,
    trace: &[u32],
    plan: &[u32],
    room: &mut [u8],
    answer: &mut [u32],
)
    ensures room { room.new ≡ room_left n m trace.now plan.now room.old }
    ensures answer { answer.new ≡ laid (write_words (write_of n m trace.now plan.now (length room.old))) answer.old }
{
    let told = WriteNumbers::from(bundle::write(n, m, trace, plan, room));
    let numbers = [told.number, told.place, told.bytes];
    lay(&numbers, answer);
}
