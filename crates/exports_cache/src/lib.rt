// Fresh, soundness, Frame and Feed for callers outside, who keep a record in words. How an answer is told, and what is asked of a caller, stands in `laying`.
// Words too few for a record are refusal 5 where one is read; where one is written they are 6, after every other refusal, and stay as they were.
// Numbers for rules, refusals and kinds, and lent words for a record: so is the interface of C (the functions that begin with `hedravos_`).
#![tactic(auto)]

ghost use Rattle.std.specs.Prelude.{◌≡◌, length};
ghost use Rattle.paging.specs.Calls.{gate};
ghost use Rattle.paging.specs.Services.{laid};
ghost use Rattle.cache.specs.Record.{fresh_of};
ghost use Rattle.cache.specs.Feed.{fed};
ghost use Rattle.cache.specs.Lookup.{looked_up};
ghost use Rattle.records.specs.Records.{record_of, record_into};
ghost use Rattle.exports_cache.specs.Lent.{fresh_lent, fed_lent, next_left};
ghost use Rattle.exports_cache.specs.Devices.{behind_room};
ghost use Rattle.exports_cache.specs.Words.{gate_words, sound_words, lookup_words, reply_words};

use cache::{Cache, Fresh, LookupNumbers, ReplyNumbers};
use laying::lay;
use paging::{GateNumbers, Outcome, Page, Refusal};
use records::{record_into, record_of};

// Feed's reply where the next record goes into so many lent words: 6 behind every other refusal.
fn behind_room(reply: Result<Outcome, Refusal>, lent: usize) -> Result<Outcome, Refusal>
    ensures { result ≡ behind_room reply lent }
{
    let outcome = reply?;
    if lent < records::WORDS {
        return Err(Refusal::LentTooShort);
    }
    Ok(outcome)
}

// As put_count has it for counts, in crate `exports_counts`: other numbers.
fn put_reply(reply: Result<Outcome, Refusal>, answer: &mut [u32])
    ensures { answer.new ≡ laid (reply_words reply) answer.old }
{
    let told = ReplyNumbers::from(reply);
    lay(&[told.number, told.place, told.kind, told.page], answer);
}

#[unsafe(no_mangle)]
#[tactic(auto, using(crate::proofs::Lent::fresh_chain))]
pub extern "C" fn hedravos_fresh(rule: u32, n: u32, cache: &mut [u32], answer: &mut [u32])
    ensures cache { cache.new ≡ record_into (fresh_of rule n).cache cache.old }
    ensures answer { answer.new ≡ laid (gate_words (gate (fresh_lent rule n (length cache.old)))) answer.old }
{
    let Fresh { gate, cache: empty } = Cache::fresh(rule, n);
    let told = GateNumbers::from(calls::lent_gate(gate, records::WORDS, cache.len()));
    record_into(empty, cache);
    lay(&[told.number, told.place], answer);
}

#[unsafe(no_mangle)]
pub extern "C" fn hedravos_sound(cache: &[u32], answer: &mut [u32])
    ensures { answer.new ≡ laid (sound_words (record_of cache.now)) answer.old }
{
    lay(&[u32::from(record_of(cache).sound())], answer);
}

#[unsafe(no_mangle)]
pub extern "C" fn hedravos_frame(cache: &[u32], page: u32, answer: &mut [u32])
    ensures { answer.new ≡ laid (lookup_words (looked_up (record_of cache.now) page)) answer.old }
{
    let told = LookupNumbers::from(record_of(cache).frame_of(Page(page)));
    lay(&[told.number, told.place, told.held, told.frame], answer);
}

// The next record goes into other words, and so does a record that is handed back.
#[unsafe(no_mangle)]
#[tactic(auto, using(crate::proofs::Lent::feed_chain), unfolding(crate::specs::Lent::next_left))]
pub extern "C" fn hedravos_feed(cache: &[u32], page: u32, next: &mut [u32], answer: &mut [u32])
    ensures next { next.new ≡ next_left cache.now page next.old }
    ensures answer { answer.new ≡ laid (reply_words (fed_lent cache.now page (length next.old))) answer.old }
{
    let fed = record_of(cache).feed(Page(page));
    put_reply(behind_room(fed.outcome, next.len()), answer);
    if records::WORDS <= cache.len() {
        record_into(fed.next, next);
    }
}

// The thin form: the record is updated where it stands.
#[unsafe(no_mangle)]
pub extern "C" fn hedravos_feed_own(cache: &mut [u32], page: u32, answer: &mut [u32])
    ensures cache { cache.new ≡ record_into (fed (record_of cache.old) page).next cache.old }
    ensures answer { answer.new ≡ laid (reply_words (fed (record_of cache.old) page).outcome) answer.old }
{
    let fed = front::feed_through(record_of(cache), Page(page));
    put_reply(fed.outcome, answer);
    record_into(fed.next, cache);
}
