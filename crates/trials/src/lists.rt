// Count, Write a plan, Check and Better of two.
// An answer is its faults, and a refusal's number and place; behind a colon stand words as they are left or handed back, the mark as -.
use crate::script::Line;
use crate::show;
use calls::{AnswerNumbers, REQUESTS};
use judge::VerdictNumbers;
use paging::{MARK, Refusal};
use std::{array, io};

fn show_answer(rt: &impl Print, answer: Result<u32, Refusal>) -> io::Result<()> {
    let told = AnswerNumbers::from(answer);
    print!(rt; " {} {} {}", told.faults, told.number, told.place)
}

// rule n; trace
pub(crate) fn count(rt: &impl Print, line: &Line) -> io::Result<()> {
    show_answer(
        rt,
        counts::count(line.words[0], line.words[1], line.rest(line.first)),
    )
}

// rule n; trace. The plan goes into ten words that all hold 9.
pub(crate) fn write_plan(rt: &impl Print, line: &Line) -> io::Result<()> {
    let mut plan = [9u32; 10];
    show_answer(
        rt,
        counts::write_plan(
            line.words[0],
            line.words[1],
            line.rest(line.first),
            &mut plan,
        ),
    )?;
    show::words(rt, &plan)
}

// m; trace; plan
pub(crate) fn judge(rt: &impl Print, line: &Line) -> io::Result<()> {
    let trace = line.list(line.first, line.second);
    show_answer(
        rt,
        judge::check(line.words[0], trace, line.rest(line.second)),
    )
}

// m; trace; plan; plan
pub(crate) fn better(rt: &impl Print, line: &Line) -> io::Result<()> {
    let m = line.words[0];
    let trace = line.list(line.first, line.second);
    let first = line.list(line.second, line.third);
    let second = line.rest(line.third);
    let told = VerdictNumbers::from(judge::better(m, trace, first, second));
    print!(rt;
        " {} {} {} {}",
        told.which, told.faults, told.number, told.place
    )?;
    show::words(rt, judge::better_words(m, trace, first, second))
}

// 300 pages in turn through 256 frames: every request faults and drops the page loaded 256 requests before. The line has the plan's last word.
pub(crate) fn turns(rt: &impl Print, line: &Line) -> io::Result<()> {
    let trace: [u32; REQUESTS] = array::from_fn(|at| (at % 300) as u32);
    let mut plan: [u32; REQUESTS] = array::from_fn(|at| {
        if at < 256 {
            MARK
        } else {
            ((at - 256) % 300) as u32
        }
    });
    plan[REQUESTS - 1] = line.words[0];
    show_answer(rt, judge::check(256, &trace, &plan))
}
