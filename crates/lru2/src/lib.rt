// LRU-2 over a whole trace: its count and its plan. Two hands go over the moments and only go on. The first stops at the first moment that is still the only
// request, since it was loaded, of the page in the frame served then; the second at the first that is still a page's second to last request, or its only one.
// While some page has been requested only once, the first hand's page goes; else the second's.
#![tactic(auto)]

ghost use Rattle.std.specs.Prelude.{◌≡◌};
ghost use Rattle.paging.specs.Calls.{trace_tests};
ghost use Rattle.paging.specs.Services.{answered, written};
ghost use Rattle.paging.specs.Walk.{fault_of, entries_at};
ghost use Rattle.paging.specs.declared.Rule.TheVariants.{Lru2};
ghost use Rattle.lru2.specs.Devices.{hand_of, earlier_for};
ghost use Rattle.lru2.specs.Twice.{Twice};

use held::Held;
use paging::{Frame, Outcome, Refusal};
use walks::Policy;

// The hand whose page goes: the first, where it stopped before `end`; else the second.
fn hand_of(first: usize, second: usize, end: usize) -> usize
    ensures { result ≡ hand_of first second end }
{
    if first < end {
        return first;
    }
    second
}

// The moment before a page's last, which is now: on a hit what was its last; where it is loaded there is none, and it is now again.
fn earlier_for(outcome: Outcome, last: u16, now: u16) -> u16
    ensures { result ≡ earlier_for (fault_of outcome) last now }
{
    if outcome == Outcome::Hit {
        return last;
    }
    now
}

// The two hands; of each frame the last moment and the one before it, which is the last again where there is only one, so that no mark is needed among 16 bits: two lists, as a hand goes by either or by both;
// and the frame served at each moment.
#[derive(Drop)]
pub struct Lru2Policy {
    first: usize,
    second: usize,
    last: [u16; held::FRAMES],
    earlier: [u16; held::FRAMES],
    served: [u8; calls::REQUESTS],
}

impl Policy for Lru2Policy {
    ghost rule = { Lru2 };

    ghost Keeps = { λ policy n trace t. Twice t policy.first policy.second (entries_at Lru2 n trace t) policy.last policy.earlier policy.served };

    fn start() -> Lru2Policy {
        Lru2Policy {
            first: 0,
            second: 0,
            last: [0; held::FRAMES],
            earlier: [0; held::FRAMES],
            served: [0; calls::REQUESTS],
        }
    }

    fn goes(&mut self, _n: usize, _trace: &[u32], t: usize, _held: &Held) -> Frame {
        self.first = walks::onward(self.first, t, &self.served, &self.last, &self.earlier);
        self.second = walks::onward(self.second, t, &self.served, &self.earlier, &self.earlier);
        Frame(self.served[hand_of(self.first, self.second, t)] as u32)
    }

    fn served(&mut self, _n: usize, _trace: &[u32], t: usize, frame: Frame, outcome: Outcome) {
        let at = frame.0 as usize;
        self.earlier[at] = earlier_for(outcome, self.last[at], t as u16);
        self.last[at] = t as u16;
        self.served[t] = frame.0 as u8;
    }
}

// LRU-2's faults of a trace, or refusal 2, 3 or 4; as much of its plan as there are lent words for goes into them. A refusal keeps all words.
// A line for each rule: its promise names the rule.
pub fn run(n: u32, trace: &[u32], words: &mut [u32]) -> Result<u32, Refusal>
    ensures { (result ≡ answered (trace_tests n trace.now) Lru2 n trace.now) × (words.new ≡ written (trace_tests n trace.now) Lru2 n trace.now words.old) }
{
    walks::run::<Lru2Policy>(n, trace, words)
}
