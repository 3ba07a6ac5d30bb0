// The service Feed: one request takes a record and hands back the next one.
ghost use Rattle.std.specs.Prelude.{◌≡◌};
ghost use Rattle.paging.specs.Calls.{gate};
ghost use Rattle.cache.specs.Feed.{feed_tests, fed, reply_numbers};

use crate::{Cache, Fed, ReplyNumbers};
use paging::{Outcome, Page, Refusal};

impl Cache {
    // Refusal 5, 4 or 8, in that order.
    #[tactic(auto, using(crate::proofs::Feeding::gate_on))]
    fn feed_gate(&self, page: Page) -> Result<(), Refusal>
        ensures { result ≡ gate (feed_tests self.now page.0) }
    {
        self.page_gate(page)?;
        if self.clock == Cache::REQUESTS {
            return Err(Refusal::ClockFull);
        }
        Ok(())
    }

    // Hit, loaded, or loaded with the page dropped, and the next record; or a refusal, and the record as it came.
    #[tactic(auto, unfolding(crate::specs::Feed::fed))]
    pub fn feed(self, page: Page) -> Fed
        ensures { (result ≡ fed self page.0) × (reply_numbers result.outcome ≡ reply_numbers (fed self page.0).outcome) }
    {
        // Not by a match over both, which would copy a record more.
        if let Err(refusal) = self.feed_gate(page) {
            return Fed {
                outcome: Err(refusal),
                next: self,
            };
        }
        let served = self.serve(page);
        Fed {
            outcome: Ok(served.outcome),
            next: served.next,
        }
    }
}

// Document 01's numbers of a reply.
impl From<Result<Outcome, Refusal>> for ReplyNumbers {
    ghost from_gives = { λ reply numbers. numbers ≡ reply_numbers reply };

    fn from(reply: Result<Outcome, Refusal>) -> ReplyNumbers {
        match reply {
            Ok(Outcome::Hit) => ReplyNumbers {
                number: 0,
                place: 0,
                kind: 0,
                page: paging::MARK,
            },
            Ok(Outcome::Loaded) => ReplyNumbers {
                number: 0,
                place: 0,
                kind: 1,
                page: paging::MARK,
            },
            Ok(Outcome::Dropped(page)) => ReplyNumbers {
                number: 0,
                place: 0,
                kind: 2,
                page: page.0,
            },
            Err(refusal) => ReplyNumbers {
                number: refusal.number(),
                place: refusal.place(),
                kind: 0,
                page: paging::MARK,
            },
        }
    }
}
