// The front end's own record: Feed's thin form, which updates a record that is lent to it, and a form with plain parameters that lends one.
// A promise says the numbers beside the answer (reply_numbers): no less may be promised.
#![tactic(auto)]

ghost use Rattle.std.specs.Prelude.{◌≡◌};
ghost use Rattle.cache.specs.Feed.{fed, reply_numbers};

use cache::{Cache, Fed};
use paging::{Outcome, Page, Refusal};

// One request of a record that is kept in place: Feed's reply, and the record becomes Feed's next one; after a refusal it is as it was.
// No twin of the form below: each has been asked for by name.
pub fn feed_own(cache: &mut Cache, page: Page) -> Result<Outcome, Refusal>
    ensures { (result ≡ (fed cache.old page.0).outcome) × (cache.new ≡ (fed cache.old page.0).next) × (reply_numbers result ≡ reply_numbers (fed cache.old page.0).outcome) }
{
    let Fed { outcome, next } = cache.feed(page);
    *cache = next;
    outcome
}

// The same, of a record that is handed over: it is lent to the thin form and handed back.
pub fn feed_through(cache: Cache, page: Page) -> Fed
    ensures { (result ≡ fed cache page.0) × (reply_numbers result.outcome ≡ reply_numbers (fed cache page.0).outcome) }
{
    let mut next = cache;
    let outcome = feed_own(&mut next, page);
    Fed { outcome, next }
}
