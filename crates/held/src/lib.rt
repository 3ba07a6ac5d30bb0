// The pages held, in frame order, with an index, for a walk over a whole trace: a `Held` is seen as the list of its pages.
// Which frame holds a page, a page loaded into the next free frame, a page in place of another, and a page put into a frame in whichever of these ways.
#![tactic(auto)]

ghost use Rattle.std.specs.Prelude.{◌≡◌, ◌⊎◌, ◌∷◌, [], ◌++◌, ◌≤◌, ◌<◌, ℕ, List, length, take, set, None, Some};
ghost use Rattle.paging.specs.Calls.{frame_limit};
ghost use Rattle.paging.specs.Held.{found};
ghost use Rattle.held.specs.Index.{hashes, hash_of, Indexed};
ghost use Rattle.held.specs.Placing.{put_outcome, put_pages};

use paging::{Frame, Outcome, Page};
use std::marker::Model;

// How many pages there is room for, in the type of an array's length, and how many hashes there are.
pub const FRAMES: usize = calls::FRAMES as usize;

pub const HASHES: usize = 2048;

// `pages` has the page of each frame, of which the first `count` are in use; `counts` has for each hash how many held pages have it, `hints` a frame where a page of it was put last, which is only a guess.
// Two arrays, as one of both would take four bytes of the stack for each hash in place of three. Arrays, since the walks have no heap.
// Public, so that whoever has such arrays in order can make one of them: the literal asks for the invariant.
#[derive(Drop)]
pub struct Held {
    pub pages: [u32; FRAMES],
    pub count: usize,
    pub counts: [u16; HASHES],
    pub hints: [u8; HASHES],
}

impl Model for Held {
    ghost Value = { List ℕ };

    ghost view = { λ h. take h.count h.pages };

    ghost invariant = { λ h. Indexed h.count h.pages h.counts };
}

// The top eleven bits of a product of 32 bits: pages that stand close together get hashes far apart.
#[tactic(auto, unfolding(crate::specs::Index::hash_of), using(crate::proofs::Counting::hash_below))]
fn hash(page: u32) -> usize
    ensures { (result ≡ hash_of page) × (result < hashes) }
{
    (page as u64 * 2654435761 % 4294967296 / 2097152) as usize
}

impl Held {
    // Nothing held.
    #[tactic(auto, using(crate::proofs::Keeping::index_starts))]
    pub fn new() -> Held
        ensures { result ≡ [] }
    {
        Held {
            pages: [0; FRAMES],
            count: 0,
            counts: [0; HASHES],
            hints: [0; HASHES],
        }
    }

    // How many pages are held.
    pub fn len(&self) -> usize
        ensures pages { result ≡ length self.now }
        ensures few { result ≤ frame_limit }
    {
        self.count
    }

    // The pages held, in frame order; numbers and no `Page`, as they are lent to MIN and to `place_of` as words.
    pub fn pages(&self) -> &[u32]
        ensures { result.now ≡ self.now }
    {
        &self.pages[..self.count]
    }

    // The frame that holds the page, or none. Pages are looked through one by one only where the count and the hint don't settle it.
    #[tactic(auto, using(crate::proofs::Keeping::absent_zero, crate::proofs::Keeping::absent_one, crate::proofs::Keeping::found_hinted, crate::proofs::Keeping::found_searched, crate::proofs::Keeping::absent_searched))]
    pub fn find(&self, page: Page) -> Option<Frame>
        ensures { result ≡ found page.0 self.now }
    {
        let h = hash(page.0);
        let count = self.counts[h];
        if count == 0 {
            return None;
        }
        let hint = self.hints[h] as usize;
        if hint < self.count {
            let there = self.pages[hint];
            if there == page.0 {
                return Some(Frame(hint as u32));
            }
            if count == 1 && hash(there) == h {
                return None;
            }
        }
        // By place_of, the one search: its laws are proved once.
        let at = calls::place_of(page.0, &self.pages[..self.count]);
        if at < self.count {
            return Some(Frame(at as u32));
        }
        None
    }

    // A page into the next free frame.
    pub fn load(&mut self, page: Page)
        requires { (length self.old < frame_limit) × (found page.0 self.old ≡ None) }
        ensures { self.new ≡ self.old ++ (page.0 ∷ []) }
    {
        let held = self.count;
        let h = hash(page.0);
        self.counts[h] += 1;
        self.hints[h] = held as u8;
        self.pages[held] = page.0;
        self.count += 1;
    }

    // A page in place of the one in a frame.
    pub fn replace(&mut self, page: Page, frame: Frame)
        requires { (frame.0 < length self.old) × (found page.0 self.old ≡ None) }
        ensures { self.new ≡ set self.old frame.0 page.0 }
    {
        let at = frame.0 as usize;
        let goes = hash(self.pages[at]);
        self.counts[goes] -= 1;
        let comes = hash(page.0);
        self.counts[comes] += 1;
        self.hints[comes] = frame.0 as u8;
        self.pages[at] = page.0;
    }

    // A page put into the frame that is chosen for it: a hit, if it stands there already; loaded, if the frame is the next free one; else in place of the page there.
    pub fn put(&mut self, page: Page, frame: Frame) -> Outcome
        requires { (frame.0 ≤ length self.old) × (frame.0 < frame_limit) × ((found page.0 self.old ≡ Some frame) ⊎ (found page.0 self.old ≡ None)) }
        ensures told { result ≡ put_outcome page.0 frame.0 self.old }
        ensures pages { self.new ≡ put_pages page.0 frame.0 self.old }
    {
        let at = frame.0 as usize;
        if self.count <= at {
            self.load(page);
            return Outcome::Loaded;
        }
        let old = self.pages[at];
        if old == page.0 {
            return Outcome::Hit;
        }
        self.replace(page, frame);
        Outcome::Dropped(Page(old))
    }
}
