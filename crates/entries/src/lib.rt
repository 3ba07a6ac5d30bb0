// Entries of a cache record: the ways to write one, which frame in use holds a page, and which one the rule empties.
// The record's 256 entries come as an array, beside how many are in use; a number above 256 counts as 256. So a record has them, in fixed memory: its type stands above, in crate `cache`.
#![tactic(auto)]

ghost use Rattle.std.specs.Prelude.{◌≡◌, take};
ghost use Rattle.paging.specs.Held.{found};
ghost use Rattle.paging.specs.Walk.{pages, loaded_at, renewed};
ghost use Rattle.entries.specs.Blank.{blank_entry};
ghost use Rattle.entries.specs.Devices.Search.{in_use, key_of, least_frame};

use paging::{Entry, Frame, Moment, Page};

// How many entries a record has: one for each frame.
pub const LENGTH: usize = calls::FRAMES as usize;

// All marks.
pub fn blank_entry() -> Entry
    ensures { result ≡ blank_entry }
{
    let unset = Moment(paging::MARK);
    Entry {
        page: Page(paging::MARK),
        loaded: unset,
        last: unset,
        earlier: unset,
    }
}

// A page loaded at this moment: this request is its first.
pub fn loaded_at(now: Moment, page: Page) -> Entry
    ensures { result ≡ loaded_at now.0 page.0 }
{
    Entry {
        page,
        loaded: now,
        last: now,
        earlier: Moment(paging::MARK),
    }
}

// A held page requested again at this moment.
pub fn renewed(e: Entry, now: Moment) -> Entry
    ensures { result ≡ renewed now.0 e }
{
    Entry {
        last: now,
        earlier: e.last,
        ..e
    }
}

fn in_use(held: u32) -> usize
    ensures { result ≡ in_use held }
{
    held.min(calls::FRAMES) as usize
}

// The frame that holds a page. By a call of its own, as its loop is: laid into Feed, it keeps the compiler from seeing which arrays need no filling.
#[inline(never)]
pub fn find(entries: [Entry; LENGTH], held: u32, page: Page) -> Option<Frame>
    ensures { result ≡ found page.0 (pages (take held entries)) }
{
    let at = entries[..in_use(held)].iter().position(|e| e.page == page)?;
    Some(Frame(at as u32))
}

// A number for an entry: the one with the least is dropped. Under LRU-2 pages requested once come first, as moments of a sound record are below the limit of requests.
// The rule is a number, as in a record: any may stand there, and each has a key (`key_of`).
fn key(e: Entry, rule: u32) -> u64
    ensures { result ≡ key_of rule e }
{
    match rule {
        1 => e.last.0 as u64,
        2 => e.loaded.0 as u64,
        _ if e.earlier == Moment(paging::MARK) => e.last.0 as u64,
        _ => calls::REQUESTS as u64 + e.earlier.0 as u64,
    }
}

// The first frame in use whose entry has the least key; frame 0 and no Option, if none is in use, as the clause says (`least_frame`). By a call of its own, as `find`.
#[inline(never)]
pub fn least(entries: [Entry; LENGTH], held: u32, rule: u32) -> Frame
    ensures { result.0 ≡ least_frame rule (take held entries) }
{
    let chosen = entries[..in_use(held)]
        .iter()
        .enumerate()
        .min_by_key(|(_, e)| key(**e, rule));
    match chosen {
        Some((at, _)) => Frame(at as u32),
        None => Frame(0),
    }
}
