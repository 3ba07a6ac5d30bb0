// When a record is sound, over its parts: rule, frames, clock, held, and the 256 entries.
// Moments are tested against a set of those seen, pages against the pages after them, so that a full record takes microseconds.
// Everything here that asks something of its caller is private.
#![tactic(auto)]

ghost use Rattle.std.specs.Prelude.{◌≡◌, ◌≤◌, take};
ghost use Rattle.paging.specs.Lists.{mem};
ghost use Rattle.paging.specs.Walk.{pages};
ghost use Rattle.paging.specs.Calls.{frame_limit, request_limit};
ghost use Rattle.soundness.specs.Sound.{met, feedable, size_conditions, distinct_pages, entry_conditions, all_marks, blank_from, sound_parts};
ghost use Rattle.soundness.specs.Devices.Scan.{entry_ok, Below, unseen, noted};

use paging::{Entry, Moment, Page};

// As `calls` has it, in the type of a clock.
const REQUESTS: u32 = calls::REQUESTS as u32;

// Whether a record may have the rule. It is a number, since any may stand in a record's words, and the record is then told as unsound.
pub fn feedable(rule: u32) -> bool
    ensures { result ≡ feedable rule }
{
    matches!(rule, 1 | 2 | 4)
}

// Rule, frames, clock and held.
#[tactic(auto, unfolding(paging::specs::Lists::all))]
fn sizes_ok(rule: u32, frames: u32, clock: u32, held: u32) -> bool
    ensures { result ≡ met (size_conditions rule frames clock held) }
{
    feedable(rule)
        && !calls::outside(frames)
        && clock <= REQUESTS
        && held <= frames
        && held <= clock
}

// The pages side by side, to be lent. By a loop, since `map` of an array makes the whole test of a full record take a quarter longer.
fn pages(entries: &[Entry; entries::LENGTH]) -> [u32; entries::LENGTH]
    ensures { result ≡ pages entries.now }
{
    let mut words = [0; entries::LENGTH];
    for (i, e) in entries.iter().enumerate() {
        words[i] = e.page.0;
    }
    words
}

// Whether p is among the words. No early return, so that several words can be tested at once.
fn among(words: &[u32], p: u32) -> bool
    ensures { result ≡ mem p words.now }
{
    words.iter().fold(false, |found, word| found | (*word == p))
}

// Whether the pages in use are distinct.
fn pages_apart(entries: &[Entry; entries::LENGTH], held: u32) -> bool
    requires { held ≤ frame_limit }
    ensures { result ≡ distinct_pages (take held entries.now) }
{
    let words = pages(entries);
    let mut rest = &words[..held as usize];
    while let Some((p, after)) = rest.split_first() {
        if among(after, *p) {
            return false;
        }
        rest = after;
    }
    true
}

// What one entry in use must be by itself.
fn entry_ok(e: Entry, clock: u32) -> bool
    ensures { result ≡ entry_ok clock e }
{
    let earlier_fits = if e.loaded == e.last {
        e.earlier == Moment(paging::MARK)
    } else {
        e.loaded <= e.earlier && e.earlier < e.last
    };
    e.page != Page(paging::MARK) && e.loaded <= e.last && e.last < Moment(clock) && earlier_fits
}

// Whether none of the entry's moments was seen.
#[tactic(auto, unfolding(paging::specs::Lists::all, crate::specs::Devices::Scan::unseen))]
fn unseen(seen: &[bool; calls::REQUESTS], e: Entry) -> bool
    requires { Below request_limit e }
    ensures { result ≡ unseen seen.now e }
{
    !seen[e.loaded.0 as usize]
        && !seen[e.last.0 as usize]
        && (e.earlier == Moment(paging::MARK) || !seen[e.earlier.0 as usize])
}

// The entry's moments are seen from now on.
#[tactic(auto, unfolding(crate::specs::Devices::Scan::noted))]
fn note(seen: &mut [bool; calls::REQUESTS], e: Entry)
    requires { Below request_limit e }
    ensures { seen.new ≡ noted seen.old e }
{
    seen[e.loaded.0 as usize] = true;
    seen[e.last.0 as usize] = true;
    if e.earlier != Moment(paging::MARK) {
        seen[e.earlier.0 as usize] = true;
    }
}

// Each entry in use by itself, and no moment in two: an entry that passed the first test has its moments below the limit of requests. The moments seen are marked in an array, in fixed memory.
fn entries_ok(in_use: &[Entry], clock: u32) -> bool
    requires { clock ≤ request_limit }
    ensures { result ≡ met (entry_conditions clock in_use.now) }
{
    let mut seen = [false; calls::REQUESTS];
    for e in in_use {
        if !entry_ok(*e, clock) || !unseen(&seen, *e) {
            return false;
        }
        note(&mut seen, *e);
    }
    true
}

fn all_marks(e: Entry) -> bool
    ensures { result ≡ all_marks e }
{
    e == entries::blank_entry()
}

// Whether every entry past those in use is all marks.
fn rest_blank(rest: &[Entry]) -> bool
    ensures { result ≡ blank_from rest.now }
{
    rest.iter().all(|e| all_marks(*e))
}

// Whether a record of these parts is sound. The parts come one by one, as the record's type stands above, in crate `cache`.
#[tactic(auto, using(crate::proofs::Parts::sound_by_parts, crate::proofs::Parts::sizes))]
pub fn sound_parts(
    rule: u32,
    frames: u32,
    clock: u32,
    held: u32,
    entries: [Entry; entries::LENGTH],
) -> bool
    ensures { result ≡ sound_parts rule frames clock held entries }
{
    if !sizes_ok(rule, frames, clock, held) {
        return false;
    }
    let (in_use, rest) = entries.split_at(held as usize);
    pages_apart(&entries, held) && entries_ok(in_use, clock) && rest_blank(rest)
}
