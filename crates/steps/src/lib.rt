// One request over a record's parts: rule, frames, the map of occupied frames, and the 256 entries.
// It asks nothing of them; that it is document 01's step wherever they are sound is proved in crate `cache` (`served_steps`).
// The parts come one by one, and the rule as a number, as they stand in a record, whose type is above, in crate `cache`.
#![tactic(auto)]

ghost use Rattle.std.specs.Prelude.{◌≡◌, ◌<◌, set};
ghost use Rattle.paging.specs.Calls.{frame_limit};
ghost use Rattle.occupancy.specs.Map.{with_frame};
ghost use Rattle.steps.specs.Devices.Step.{hit_step, full_step, load_step, stepped};

use paging::{Entry, Frame, Moment, Outcome, Page};

// What a request came to, and the map and the entries after it: arrays, as a record has them, in fixed memory.
#[derive(Clone, Copy, Debug, PartialEq, Eq)]
pub struct After {
    pub outcome: Outcome,
    pub map: [u64; occupancy::WORDS],
    pub entries: [Entry; entries::LENGTH],
}

// The entries with one written into a frame; a frame past the last is none. Tested by hand, since what `get_mut` leaves of an array that came by value isn't known to a proof.
fn put(
    mut entries: [Entry; entries::LENGTH],
    frame: Frame,
    entry: Entry,
) -> [Entry; entries::LENGTH]
    ensures { result ≡ set entries frame.0 entry }
{
    let at = frame.0 as usize;
    if at < entries.len() {
        entries[at] = entry;
    }
    entries
}

// The map with a frame's bit set; a frame past the last has none. Tested by hand, as in `put`.
fn with_frame(mut map: [u64; occupancy::WORDS], frame: Frame) -> [u64; occupancy::WORDS]
    ensures { result ≡ with_frame map frame.0 }
{
    let at = (frame.0 / occupancy::BITS) as usize;
    if at < map.len() {
        map[at] |= 1 << (frame.0 % occupancy::BITS);
    }
    map
}

// The page is held in a frame: its entry is renewed.
fn hit(
    map: [u64; occupancy::WORDS],
    entries: [Entry; entries::LENGTH],
    frame: Frame,
    now: Moment,
) -> After
    requires { frame.0 < frame_limit }
    ensures { result ≡ hit_step map entries frame.0 now.0 }
{
    let entry = entries::renewed(entries[frame.0 as usize], now);
    After {
        outcome: Outcome::Hit,
        map,
        entries: put(entries, frame, entry),
    }
}

// All frames are in use: the entry comes in place of the one with the least key.
fn replace(
    rule: u32,
    held: u32,
    map: [u64; occupancy::WORDS],
    entries: [Entry; entries::LENGTH],
    entry: Entry,
) -> After
    ensures { result ≡ full_step rule held map entries entry }
{
    let frame = entries::least(entries, held, rule);
    let dropped = entries[frame.0 as usize].page;
    After {
        outcome: Outcome::Dropped(dropped),
        map,
        entries: put(entries, frame, entry),
    }
}

// An entry comes in: into the next free frame, or in place of another.
fn load(
    rule: u32,
    frames: u32,
    held: u32,
    map: [u64; occupancy::WORDS],
    entries: [Entry; entries::LENGTH],
    entry: Entry,
) -> After
    ensures { result ≡ load_step rule frames held map entries entry }
{
    if held < frames {
        let free = occupancy::next_free(map);
        return After {
            outcome: Outcome::Loaded,
            map: with_frame(map, free),
            entries: put(entries, free, entry),
        };
    }
    replace(rule, held, map, entries, entry)
}

// The request of a page at this moment.
pub fn step(
    rule: u32,
    frames: u32,
    now: Moment,
    map: [u64; occupancy::WORDS],
    entries: [Entry; entries::LENGTH],
    page: Page,
) -> After
    ensures { result ≡ stepped rule frames now.0 page.0 map entries }
{
    let held = occupancy::held(map);
    match entries::find(entries, held, page) {
        Some(frame) => hit(map, entries, frame, now),
        None => load(
            rule,
            frames,
            held,
            map,
            entries,
            entries::loaded_at(now, page),
        ),
    }
}
