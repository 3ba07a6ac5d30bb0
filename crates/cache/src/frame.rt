// The service Frame: which frame of a record holds a page.
ghost use Rattle.std.specs.Prelude.{◌≡◌};
ghost use Rattle.cache.specs.Lookup.{looked_up, lookup_numbers};

use crate::{Cache, LookupNumbers};
use paging::{Frame, Page, Refusal};

impl Cache {
    // The frame in use that holds the page, or none; or a refusal.
    #[tactic(auto, unfolding(crate::specs::Lookup::looked_up))]
    pub fn frame_of(self, page: Page) -> Result<Option<Frame>, Refusal>
        ensures { (result ≡ looked_up self page.0) × (lookup_numbers result ≡ lookup_numbers (looked_up self page.0)) }
    {
        self.page_gate(page)?;
        let held = occupancy::held(self.map);
        Ok(entries::find(self.entries, held, page))
    }
}

// The numbers of an answer.
impl From<Result<Option<Frame>, Refusal>> for LookupNumbers {
    ghost from_gives = { λ lookup numbers. numbers ≡ lookup_numbers lookup };

    fn from(lookup: Result<Option<Frame>, Refusal>) -> LookupNumbers {
        match lookup {
            Ok(Some(frame)) => LookupNumbers {
                number: 0,
                place: 0,
                held: 1,
                frame: frame.0,
            },
            Ok(None) => LookupNumbers {
                number: 0,
                place: 0,
                held: 0,
                frame: 0,
            },
            Err(refusal) => LookupNumbers {
                number: refusal.number(),
                place: refusal.place(),
                held: 0,
                frame: 0,
            },
        }
    }
}
