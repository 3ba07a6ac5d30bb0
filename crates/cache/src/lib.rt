// The cache record of document 01: its limits, the blank record, the empty cache of a given size, soundness, and the request of a sound record.
// Feed is in feed.rt, which frame holds a page in frame.rt. What asks something of its caller is private.
// A promise says the numbers beside the answer (gate_numbers, reply_numbers, lookup_numbers): no less may be promised.
#![tactic(auto)]

mod feed;
mod frame;

ghost use Rattle.std.specs.Prelude.{◌≡◌, true, ◌<◌};
ghost use Rattle.paging.specs.Refusals.{gate_numbers};
ghost use Rattle.paging.specs.Calls.{request_limit, gate};
ghost use Rattle.cache.specs.Record.{blank_cache, empty_cache, fresh_tests, fresh_of};
ghost use Rattle.cache.specs.Sound.{sound};
ghost use Rattle.cache.specs.Feed.{served};
ghost use Rattle.cache.specs.Lookup.{lookup_tests};

use paging::{Entry, Moment, Outcome, Page, Refusal};
use steps::After;

// The map has a bit for each frame, low bits first: how many are set is how many pages the cache holds.
// Fixed arrays and no collection, as the library is linked into C with fixed memory; a number for the rule, as a record comes in words and any number may stand there.
#[derive(Clone, Copy, Debug, PartialEq, Eq)]
pub struct Cache {
    pub rule: u32,
    pub frames: u32,
    pub clock: u32,
    pub map: [u64; occupancy::WORDS],
    pub entries: [Entry; Cache::FRAMES as usize],
}

// What Fresh hands back: the empty cache, or a refusal beside the blank record.
// No Result: the record beside a refusal is part of the promise (fresh_of).
#[derive(Clone, Copy, Debug, PartialEq, Eq)]
pub struct Fresh {
    pub gate: Result<(), Refusal>,
    pub cache: Cache,
}

// What serving a request came to, and the record after it. No Fed: its clause (served) has no refusal. Copied alone: nobody compares or prints it.
#[derive(Clone, Copy)]
struct Served {
    pub outcome: Outcome,
    pub next: Cache,
}

// Feed's reply in numbers: a refusal's number and place, the kind (0 hit or refused, 1 loaded, 2 dropped), and the page dropped, else the mark.
// A number for the kind and the mark for none, since they leave by C (reply_numbers).
#[derive(Clone, Copy, Debug, PartialEq, Eq)]
pub struct ReplyNumbers {
    pub number: u32,
    pub place: u32,
    pub kind: u32,
    pub page: u32,
}

// What Feed hands back: what the request came to or a refusal, and the next record; a refused Feed hands back the record it got.
// No Result: the record beside a refusal is part of the promise (fed).
#[derive(Clone, Copy, Debug, PartialEq, Eq)]
pub struct Fed {
    pub outcome: Result<Outcome, Refusal>,
    pub next: Cache,
}

// The answer of Frame in numbers: a refusal's number and place, whether a frame holds the page (1 or 0), and that frame; what an answer lacks is 0.
// Numbers and no bool or Option, since they leave by C (lookup_numbers).
#[derive(Clone, Copy, Debug, PartialEq, Eq)]
pub struct LookupNumbers {
    pub number: u32,
    pub place: u32,
    pub held: u32,
    pub frame: u32,
}

impl Cache {
    // The limits of every call, in the types of a record's frames and clock: a record has so many entries, and its clock ends at so many requests.
    pub const FRAMES: u32 = calls::FRAMES;

    pub const REQUESTS: u32 = calls::REQUESTS as u32;

    // Rule, frames, clock and the map zero, every entry all marks.
    pub fn blank() -> Cache
        ensures { result ≡ blank_cache }
    {
        Cache::empty(0, 0)
    }

    // The empty cache of a given rule and size.
    fn empty(rule: u32, frames: u32) -> Cache
        ensures { result ≡ empty_cache rule frames }
    {
        let blank = entries::blank_entry();
        Cache {
            rule,
            frames,
            clock: 0,
            map: [0; occupancy::WORDS],
            entries: [blank; Cache::FRAMES as usize],
        }
    }

    // Refusal 1 or 2, in that order.
    #[tactic(auto, unfolding(paging::specs::Calls::gate, crate::specs::Record::fresh_tests))]
    fn fresh_gate(rule: u32, frames: u32) -> Result<(), Refusal>
        ensures { result ≡ gate (fresh_tests rule frames) }
    {
        if !soundness::feedable(rule) {
            return Err(Refusal::UnknownRule);
        }
        if calls::outside(frames) {
            return Err(Refusal::FramesOutside(0));
        }
        Ok(())
    }

    // Rule 1, 2 or 4 and 1 to 256 frames: the empty cache. Else a refusal, and the blank record.
    // A number for the rule: refusal 1 is for any other (fresh_of).
    #[tactic(auto, unfolding(crate::specs::Record::fresh_of))]
    pub fn fresh(rule: u32, frames: u32) -> Fresh
        ensures { (result ≡ fresh_of rule frames) × (gate_numbers result.gate ≡ gate_numbers (fresh_of rule frames).gate) }
    {
        match Cache::fresh_gate(rule, frames) {
            Ok(()) => Fresh {
                gate: Ok(()),
                cache: Cache::empty(rule, frames),
            },
            Err(refusal) => Fresh {
                gate: Err(refusal),
                cache: Cache::blank(),
            },
        }
    }

    // Whether the record is sound.
    #[tactic(auto, unfolding(crate::specs::Sound::sound))]
    pub fn sound(self) -> bool
        ensures { result ≡ sound self }
    {
        let held = occupancy::held(self.map);
        occupancy::lowest_only(self.map)
            && soundness::sound_parts(self.rule, self.frames, self.clock, held, self.entries)
    }

    // Refusal 5 or 4, in that order: whatever is asked about a page of the record.
    #[tactic(auto, unfolding(paging::specs::Calls::gate, crate::specs::Lookup::lookup_tests))]
    fn page_gate(&self, page: Page) -> Result<(), Refusal>
        ensures { result ≡ gate (lookup_tests self.now page.0) }
    {
        if !self.sound() {
            return Err(Refusal::UnsoundRecord);
        }
        if page == Page(paging::MARK) {
            return Err(Refusal::MarkRequested(0));
        }
        Ok(())
    }

    // One request of a sound record. By a call of its own, so that the stack that it takes is free again while soundness is tested.
    #[inline(never)]
    fn serve(self, page: Page) -> Served
        requires { (sound self ≡ true) × (self.clock < request_limit) }
        ensures { result ≡ served self page.0 }
    {
        let After {
            outcome,
            map,
            entries,
        } = steps::step(
            self.rule,
            self.frames,
            Moment(self.clock),
            self.map,
            self.entries,
            page,
        );
        Served {
            outcome,
            next: Cache {
                clock: self.clock + 1,
                map,
                entries,
                ..self
            },
        }
    }
}
