// Trials of the bundle file that are run: document 01's example of 84 bytes written and read back, each refusal of a reading and of a writing, no bytes at all, and the largest file.
// A line of a reading has number, place, n, m, T and the plan's count; one of a writing has number, place and bytes. Behind a colon stand lent words as
// they are left, the mark as -. Printer, name and file stay three parameters: a struct for functions of a line or two is no plainer. Rooms are arrays: how much is lent is what is tried.
#![tactic(auto)]

ghost use Rattle.std.specs.Prelude.{◌<◌};

use bundle::WriteNumbers;
use calls::REQUESTS;
use paging::{MARK, Refusal};
use reading::ReadNumbers;
use std::io;

// Document 01's example.
const TRACE: [u32; 8] = [5, 6, 7, 5, 8, 6, 5, 7];

const PLAN: [u32; 8] = [MARK, MARK, 5, 6, 7, 5, 8, 6];

// As `trials` has it: a crate for both would take more text, a promise and edits, than these lines.
fn show_words(rt: &impl Print, words: &[u32]) -> io::Result<()> {
    print!(rt; " :")?;
    for word in words {
        match *word {
            MARK => print!(rt; " -")?,
            word => print!(rt; " {word}")?,
        }
    }
    Ok(())
}

// Reads into two lists, and prints the name and the numbers of the answer.
fn read_into(
    rt: &impl Print,
    name: &str,
    file: &[u8],
    requests: &mut [u32],
    plan: &mut [u32],
) -> io::Result<()> {
    let told = ReadNumbers::from(bundle::read(file, requests, plan));
    print!(rt; "{name} {} {}", told.number, told.place)?;
    print!(rt; " {} {} {} {}", told.n, told.m, told.requests, told.planned)
}

// Reads into two lists of nine words that all hold 1.
fn read(rt: &impl Print, name: &str, file: &[u8]) -> io::Result<()> {
    let mut requests = [1u32; 9];
    let mut plan = [1u32; 9];
    read_into(rt, name, file, &mut requests, &mut plan)?;
    show_words(rt, &requests)?;
    show_words(rt, &plan)?;
    println!(rt)
}

// Reads the first bytes of a file, if it has so many. By `get`: that a slice of the room has its bytes, `&room[..52]`, was not proved here.
fn front(rt: &impl Print, name: &str, file: &[u8], len: usize) -> io::Result<()> {
    match file.get(..len) {
        Some(file) => read(rt, name, file),
        None => Ok(()),
    }
}

fn show_written(rt: &impl Print, name: &str, answer: Result<u32, Refusal>) -> io::Result<()> {
    let told = WriteNumbers::from(answer);
    println!(rt; "{name} {} {} {}", told.number, told.place, told.bytes)
}

// The example, in ninety bytes that held 1.
fn example(rt: &impl Print) -> io::Result<[u8; 90]> {
    let mut room = [1u8; 90];
    show_written(rt, "example", bundle::write(3, 2, &TRACE, &PLAN, &mut room))?;
    Ok(room)
}

// The example with one byte changed.
fn changed(rt: &impl Print, name: &str, mut file: [u8; 90], at: usize, byte: u8) -> io::Result<()>
    requires { at < 90 }
{
    file[at] = byte;
    front(rt, name, &file, 84)
}

fn readings(rt: &impl Print) -> io::Result<()> {
    let file = example(rt)?;
    front(rt, "whole", &file, 84)?;
    front(rt, "9-empty", &file, 0)?;
    front(rt, "9-count", &file, 14)?;
    front(rt, "9-requests", &file, 31)?;
    front(rt, "9-plan", &file, 83)?;
    front(rt, "11", &file, 85)?;
    changed(rt, "10-sizes", file, 0, 3)?;
    changed(rt, "10-requests", file, 15, 255)?;
    changed(rt, "10-plan", file, 48, 7)?;
    changed(rt, "2-n", file, 4, 0)?;
    changed(rt, "2-m", file, 9, 1)?;
    changed(rt, "12", file, 8, 4)?;
    changed(rt, "4", marked(file), 0, 2)
}

// The second request made the mark.
fn marked(mut file: [u8; 90]) -> [u8; 90] {
    file[20..24].fill(255);
    file
}

fn writings(rt: &impl Print) -> io::Result<()> {
    let mut room = [1u8; 84];
    let mut small = [1u8; 83];
    let short = [MARK, MARK, 5];
    let long = [MARK; 8001];
    show_written(rt, "2-n", bundle::write(0, 0, &TRACE, &PLAN, &mut room))?;
    show_written(rt, "2-m", bundle::write(3, 257, &TRACE, &PLAN, &mut room))?;
    show_written(rt, "12", bundle::write(2, 3, &long, &PLAN, &mut room))?;
    show_written(rt, "3", bundle::write(3, 2, &long, &PLAN, &mut room))?;
    show_written(
        rt,
        "4",
        bundle::write(3, 2, &[5, 6, MARK], &PLAN, &mut room),
    )?;
    show_written(rt, "10", bundle::write(3, 2, &TRACE, &short, &mut small))?;
    show_written(rt, "6", bundle::write(3, 2, &TRACE, &PLAN, &mut small))?;
    show_written(rt, "no-plan", bundle::write(3, 2, &TRACE, &[], &mut room))?;
    front(rt, "no-plan", &room, 52)?;
    show_written(rt, "nothing", bundle::write(1, 1, &[], &[], &mut room))?;
    front(rt, "nothing", &room, 20)
}

// Reads into two lists of 8,000 words, and shows the last of each.
fn read_largest(rt: &impl Print, file: &[u8]) -> io::Result<()> {
    let mut requests = [0u32; REQUESTS];
    let mut plan = [0u32; REQUESTS];
    read_into(rt, "largest", file, &mut requests, &mut plan)?;
    show_words(rt, &[requests[REQUESTS - 1], plan[REQUESTS - 1]])?;
    println!(rt)
}

// T 8,000 with a plan: 64,020 bytes; one more is refused, and so are lists that are too short.
fn largest(rt: &impl Print) -> io::Result<()> {
    let mut room = [0u8; 64020];
    let mut more = [0u8; 64021];
    let trace = [7u32; REQUESTS];
    let plan = [MARK; REQUESTS];
    show_written(
        rt,
        "largest",
        bundle::write(256, 256, &trace, &plan, &mut room),
    )?;
    read_largest(rt, &room)?;
    read(rt, "6", &room)?;
    show_written(
        rt,
        "more",
        bundle::write(256, 256, &trace, &plan, &mut more),
    )?;
    read(rt, "11", &more)
}

fn main(rt: HostRuntime) -> io::Result<()> {
    readings(&rt)?;
    writings(&rt)?;
    largest(&rt)
}
