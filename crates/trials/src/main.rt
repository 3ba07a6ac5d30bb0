// Document 01's trials, run: each line of standard input has a name, a colon, a word that says what is asked, and numbers. The name is printed as it is read, the answer behind it.
// script.rt reads a line, lists.rt answers what is asked of lists, caches.rt what is asked of a record.
// Printer, line and record stay three parameters: what is asked of lists needs no record. Rooms are arrays: how much is lent is what is tried.
#![tactic(auto)]

mod caches;
mod lists;
mod script;
mod show;

use input::read_full;
use paging::MARK;
use records::WORDS;
use script::{Line, Verb};
use std::io;

fn answer(rt: &impl Print, line: &Line, record: &mut [u32; WORDS]) -> io::Result<()> {
    match line.verb {
        Some(Verb::Count) => lists::count(rt, line),
        Some(Verb::Write) => lists::write_plan(rt, line),
        Some(Verb::Judge) => lists::judge(rt, line),
        Some(Verb::Better) => lists::better(rt, line),
        Some(Verb::Turns) => lists::turns(rt, line),
        Some(Verb::New) => caches::new(rt, line, record),
        Some(Verb::Record) => {
            caches::take(&line.words, record);
            Ok(())
        }
        Some(Verb::Feed) => caches::feed(rt, line, record),
        Some(Verb::Kept) => caches::twice(rt, line, record),
        Some(Verb::Map) => caches::map(rt, line, record),
        Some(Verb::Nothing) | None => Ok(()),
    }
}

// A line with its end: what stands before the colon is its name, and all of it where there is none. A last line with no end is not answered.
fn run(rt: &impl Print, text: &[u8], line: &mut Line, record: &mut [u32; WORDS]) -> io::Result<()> {
    let colon = text.iter().position(|byte| *byte == b':');
    let (name, asked) = text.split_at(colon.unwrap_or(text.len()));
    rt.write_all(name)?;
    if text.ends_with(b"\n") {
        line.read(asked.get(1..).unwrap_or(&[]));
        answer(rt, line, record)?;
        println!(rt)?;
    }
    Ok(())
}

fn main(rt: HostRuntime) -> io::Result<()> {
    let mut script = [0u8; 65536];
    let read = read_full(&mut rt.reader(), &mut script)?;
    let mut line = Line::new();
    let mut record = [MARK; WORDS];
    for text in script[..read].split_inclusive(|byte| *byte == b'\n') {
        run(&rt, text, &mut line, &mut record)?;
    }
    Ok(())
}
