// The text of document 01's report, from the bytes of a bundle file into a lent room.
// In order: the lines; the report.
#![tactic(auto)]

ghost use Rattle.std.specs.Prelude.{◌≡◌, length, take};
ghost use Rattle.paging.specs.Services.{laid};
ghost use Rattle.text.specs.Writing.{Wrote};
ghost use Rattle.reporting.specs.Report.{rule_line, claimed, claim_line, rules_text, lines_of, report_of};

use calls::AnswerNumbers;
use paging::Refusal;
use reading::Sizes;
use text::Writer;

fn rule_line(out: &mut Writer<'_>, name: &[u8], rule: u32, frames: u32, trace: &[u32])
    ensures { Wrote out.old (rule_line name.now rule frames trace.now) out.new }
{
    let told = AnswerNumbers::from(counts::count(rule, frames, trace));
    out.line(name, frames, told.faults);
}

// The rules go by document 01's numbers, as counts::count takes them. A loop over the five is no plainer: its invariant would say each line again.
fn rules_text(out: &mut Writer<'_>, sizes: Sizes, trace: &[u32])
    ensures { Wrote out.old (rules_text sizes trace.now) out.new }
{
    rule_line(out, b"lru ", 1, sizes.n, trace);
    rule_line(out, b"fifo ", 2, sizes.n, trace);
    rule_line(out, b"min ", 3, sizes.n, trace);
    rule_line(out, b"lru2 ", 4, sizes.n, trace);
    rule_line(out, b"min ", 3, sizes.m, trace);
}

// What Check answers to the plan.
fn claimed(out: &mut Writer<'_>, m: u32, answer: Result<u32, Refusal>)
    ensures { Wrote out.old (claimed m answer) out.new }
{
    match answer {
        Ok(faults) => out.two_numbers(m, b" ", faults),
        Err(refusal) => out.refused_line(refusal),
    }
}

// Sizes, trace and plan stay three parameters, as the definitions take them: a struct for two functions is no plainer.
fn claim_line(out: &mut Writer<'_>, sizes: Sizes, trace: &[u32], plan: &[u32])
    ensures { Wrote out.old (claim_line sizes trace.now plan.now) out.new }
{
    out.word(b"claim ");
    // 0 words of a plan: none came, as document 01 says.
    if sizes.planned == 0 {
        out.word(b"none\n");
    } else {
        claimed(out, sizes.m, judge::check(sizes.m, trace, plan));
    }
}

fn lines(out: &mut Writer<'_>, sizes: Sizes, trace: &[u32], plan: &[u32])
    ensures { Wrote out.old (lines_of sizes trace.now plan.now) out.new }
{
    out.word(b"requests ");
    out.number(sizes.requests);
    out.put(b'\n');
    rules_text(out, sizes, trace);
    claim_line(out, sizes, trace, plan);
}

// The whole text, or the one line of a refused file.
fn text_of(out: &mut Writer<'_>, file: &[u8])
    ensures { Wrote out.old (report_of file.now) out.new }
{
    // No heap: each list has room for as many words as a file may have, and its front is used.
    let mut requests = [0u32; calls::REQUESTS];
    let mut plan = [0u32; calls::REQUESTS];
    match bundle::read(file, &mut requests, &mut plan) {
        Err(refused) => out.refused_line(refused),
        Ok(sizes) => lines(
            out,
            sizes,
            &requests[..sizes.requests as usize],
            &plan[..sizes.planned as usize],
        ),
    }
}

// The report of a file at the front of the room, as much of it as there is room for, other bytes as they were; answers the bytes put.
pub fn report(file: &[u8], room: &mut [u8]) -> usize
    ensures { (result ≡ length (take (length room.old) (report_of file.now))) × (room.new ≡ laid (report_of file.now) room.old) }
{
    let mut out = Writer::new(room, 0);
    text_of(&mut out, file);
    out.position()
}
