// A cache record in words, for callers outside: rule, frames, clock, then the map, each of its words as two, low half first, then page, loaded, last, earlier of each entry.
// Fewer words than that hold no record: they are read as the blank one, and nothing is put into them. No Option: so the clauses say (record_of, record_into).
// A place in words comes beside the words, as in the clauses (word_from, put_entry ..), which also say how many words there must be; so what asks it is private.
#![tactic(auto)]

ghost use Rattle.std.specs.Prelude.{◌≡◌, ◌+◌, ◌≤◌, ◌<◌, length};
ghost use Rattle.records.specs.Records.{record_length, word_from, map_from, entry_from, entries_from, record_of, put_head, put_word, put_map, put_entry, put_entries, record_into};

use cache::Cache;
use paging::{Entry, Moment, Page};
use std::array;

// As the record's type has it, in the type of a length.
const ENTRIES: usize = Cache::FRAMES as usize;

// Where the map begins, and where the entries.
const MAP_AT: usize = 3;

const ENTRIES_AT: usize = MAP_AT + 2 * occupancy::WORDS;

// How many words a record takes: 1,035.
pub const WORDS: usize = ENTRIES_AT + 4 * ENTRIES;

// A word of the map, low half first.
fn word_from(words: &[u32], at: usize) -> u64
    requires { at + 2 ≤ length words.now }
    ensures { result ≡ word_from words.now at }
{
    u64::from(words[at]) | u64::from(words[at + 1]) << 32
}

#[tactic(auto, unfolding(crate::specs::Records::list_from))]
fn map_from(words: &[u32]) -> [u64; occupancy::WORDS]
    requires { record_length ≤ length words.now }
    ensures { result ≡ map_from words.now }
{
    array::from_fn(|i| word_from(words, MAP_AT + 2 * i))
}

fn entry_from(words: &[u32], at: usize) -> Entry
    requires { at + 4 ≤ length words.now }
    ensures { result ≡ entry_from words.now at }
{
    Entry {
        page: Page(words[at]),
        loaded: Moment(words[at + 1]),
        last: Moment(words[at + 2]),
        earlier: Moment(words[at + 3]),
    }
}

fn entries_from(words: &[u32]) -> [Entry; ENTRIES]
    requires { record_length ≤ length words.now }
    ensures { result ≡ entries_from words.now }
{
    array::from_fn(|i| entry_from(words, ENTRIES_AT + 4 * i))
}

#[tactic(auto, unfolding(crate::specs::Records::record_of, crate::specs::Records::record_in))]
pub fn record_of(words: &[u32]) -> Cache
    ensures { result ≡ record_of words.now }
{
    if words.len() < WORDS {
        return Cache::blank();
    }
    Cache {
        rule: words[0],
        frames: words[1],
        clock: words[2],
        map: map_from(words),
        entries: entries_from(words),
    }
}

fn put_head(words: &mut [u32], rule: u32, frames: u32, clock: u32)
    requires { 3 ≤ length words.old }
    ensures { words.new ≡ put_head rule frames clock words.old }
{
    words[0] = rule;
    words[1] = frames;
    words[2] = clock;
}

// A word of the map, low half first. With a mask, as a cast may lose nothing.
fn put_word(words: &mut [u32], at: usize, word: u64)
    requires { at + 2 ≤ length words.old }
    ensures { words.new ≡ put_word at word words.old }
{
    words[at] = (word & 0xffff_ffff) as u32;
    words[at + 1] = (word >> 32) as u32;
}

// One loop for this and put_entries would take the size and the function that puts: no plainer.
fn put_map(map: &[u64; occupancy::WORDS], words: &mut [u32])
    requires { record_length ≤ length words.old }
    ensures { words.new ≡ put_map map.now words.old }
{
    for (i, word) in map.iter().enumerate() {
        put_word(words, MAP_AT + 2 * i, *word);
    }
}

fn put_entry(words: &mut [u32], at: usize, entry: Entry)
    requires { at + 4 ≤ length words.old }
    ensures { words.new ≡ put_entry at entry words.old }
{
    words[at] = entry.page.0;
    words[at + 1] = entry.loaded.0;
    words[at + 2] = entry.last.0;
    words[at + 3] = entry.earlier.0;
}

fn put_entries(entries: &[Entry; ENTRIES], words: &mut [u32])
    requires { record_length ≤ length words.old }
    ensures { words.new ≡ put_entries entries.now words.old }
{
    for (i, entry) in entries.iter().enumerate() {
        put_entry(words, ENTRIES_AT + 4 * i, *entry);
    }
}

#[tactic(auto, unfolding(crate::specs::Records::record_into, crate::specs::Records::record_over))]
pub fn record_into(cache: Cache, words: &mut [u32])
    ensures { words.new ≡ record_into cache words.old }
{
    if words.len() < WORDS {
        return;
    }
    put_head(words, cache.rule, cache.frames, cache.clock);
    put_map(&cache.map, words);
    put_entries(&cache.entries, words);
}
