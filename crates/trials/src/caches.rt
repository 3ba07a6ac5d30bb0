// Fresh and Feed. A record is 1,035 words: rule, frames, clock, the map of occupied frames in eight words, low bits first, then page, loaded, last, earlier of each entry; an entry that isn't given is all marks.
// It goes from line to line as words, so that `records` takes part in each.
// Each request is fed to the record in place and by value, side by side: a line has what came out in place, whether the record stayed as it was, and whether both ways agree.
ghost use Rattle.std.specs.Prelude.{◌≡◌};
ghost use Rattle.cache.specs.Feed.{fed};

use crate::script::Line;
use cache::{Cache, Fed, Fresh};
use paging::{Outcome, Page, Refusal};
use records::WORDS;
use std::io;

// What stands before the entries: rule, frames, clock, and the map.
const FRONT: usize = WORDS - 4 * Cache::FRAMES as usize;

fn show_reply(rt: &impl Print, reply: Result<Outcome, Refusal>) -> io::Result<()> {
    match reply {
        Ok(Outcome::Hit) => print!(rt; " hit"),
        Ok(Outcome::Loaded) => print!(rt; " loaded"),
        Ok(Outcome::Dropped(Page(page))) => print!(rt; " dropped {page}"),
        Err(refusal) => print!(rt; " {refusal}"),
    }
}

// Whether a request in place and the same by value came to the same.
fn show_agreed(rt: &impl Print, agreed: bool) -> io::Result<()> {
    if agreed {
        print!(rt; ", both agree")
    } else {
        print!(rt; ", NOT AGREED")
    }
}

// record, for the requests of the lines after
pub(crate) fn take(words: &[u32], record: &mut [u32; WORDS]) {
    records::record_into(records::record_of(words), record);
}

// page, for the record of the line before, or page; record
pub(crate) fn feed(rt: &impl Print, line: &Line, record: &mut [u32; WORDS]) -> io::Result<()> {
    if line.first.is_some() {
        take(line.list(line.first, Some(1 + WORDS)), record);
    }
    let page = Page(line.words[0]);
    let was = records::record_of(record);
    let fed = front::feed_through(was, page);
    records::record_into(fed.next, record);
    show_reply(rt, fed.outcome)?;
    if fed.next == was {
        print!(rt; ", record as it was")?;
    }
    show_agreed(rt, fed == was.feed(page))
}

// What two requests of a record came to.
#[derive(Clone, Copy, Debug, PartialEq, Eq)]
struct Two {
    first: Result<Outcome, Refusal>,
    second: Result<Outcome, Refusal>,
    next: Cache,
}

// The record is kept in a local, which is lent twice.
fn kept(cache: Cache, first: Page, second: Page) -> Two
    ensures { (result.first ≡ (fed cache first.0).outcome)
        × (result.second ≡ (fed (fed cache first.0).next second.0).outcome)
        × (result.next ≡ (fed (fed cache first.0).next second.0).next) }
{
    let mut next = cache;
    let first = front::feed_own(&mut next, first);
    let second = front::feed_own(&mut next, second);
    Two {
        first,
        second,
        next,
    }
}

// The other way, by its own steps: `twice` compares both.
fn by_value(cache: Cache, first: Page, second: Page) -> Two {
    let Fed {
        outcome: first,
        next,
    } = cache.feed(first);
    let Fed {
        outcome: second,
        next,
    } = next.feed(second);
    Two {
        first,
        second,
        next,
    }
}

// page page: two requests of a kept record, and both by value
pub(crate) fn twice(rt: &impl Print, line: &Line, record: &mut [u32; WORDS]) -> io::Result<()> {
    let (first, second) = (Page(line.words[0]), Page(line.words[1]));
    let was = records::record_of(record);
    let two = kept(was, first, second);
    records::record_into(two.next, record);
    show_reply(rt, two.first)?;
    print!(rt; ", {}", second.0)?;
    show_reply(rt, two.second)?;
    show_agreed(rt, two == by_value(was, first, second))
}

// rule frames
pub(crate) fn new(rt: &impl Print, line: &Line, record: &mut [u32; WORDS]) -> io::Result<()> {
    let Fresh { gate, cache } = Cache::fresh(line.words[0], line.words[1]);
    records::record_into(cache, record);
    match gate {
        Ok(()) => print!(rt; " taken")?,
        Err(refusal) => print!(rt; " {refusal}")?,
    }
    if cache == Cache::blank() {
        print!(rt; ", the blank record")?;
    }
    Ok(())
}

// page page: feeds each page from the first up to the second, which isn't fed itself, and shows what then stands before the entries
pub(crate) fn map(rt: &impl Print, line: &Line, record: &mut [u32; WORDS]) -> io::Result<()> {
    let mut cache = records::record_of(record);
    for page in line.words[0]..line.words[1] {
        cache = front::feed_through(cache, Page(page)).next;
    }
    records::record_into(cache, record);
    print!(rt; " :")?;
    for word in &record[..FRONT] {
        print!(rt; " {word}")?;
    }
    Ok(())
}
