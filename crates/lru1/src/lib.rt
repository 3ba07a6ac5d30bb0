// LRU over a whole trace: its count and its plan. A hand goes over the moments and stops at the first that is still the last request of the page
// in the frame served then: that page's last request is earliest. The hand only goes on: over a whole trace it looks at no more than two moments for each request.
#![tactic(auto)]

ghost use Rattle.std.specs.Prelude.{◌≡◌};
ghost use Rattle.paging.specs.Calls.{trace_tests};
ghost use Rattle.paging.specs.Services.{answered, written};
ghost use Rattle.paging.specs.Walk.{entries_at};
ghost use Rattle.paging.specs.declared.Rule.TheVariants.{Lru};
ghost use Rattle.lru1.specs.Lasts.{Lasts};

use held::Held;
use paging::{Frame, Outcome, Refusal};
use walks::Policy;

// The hand, the last moment of each frame, and the frame served at each moment.
#[derive(Drop)]
pub struct LruPolicy {
    hand: usize,
    last: [u16; held::FRAMES],
    served: [u8; calls::REQUESTS],
}

impl Policy for LruPolicy {
    ghost rule = { Lru };

    ghost Keeps = { λ policy n trace t. Lasts t policy.hand (entries_at Lru n trace t) policy.last policy.served };

    fn start() -> LruPolicy {
        LruPolicy {
            hand: 0,
            last: [0; held::FRAMES],
            served: [0; calls::REQUESTS],
        }
    }

    fn goes(&mut self, _n: usize, _trace: &[u32], t: usize, _held: &Held) -> Frame {
        self.hand = walks::onward(self.hand, t, &self.served, &self.last, &self.last);
        Frame(self.served[self.hand] as u32)
    }

    fn served(&mut self, _n: usize, _trace: &[u32], t: usize, frame: Frame, _outcome: Outcome) {
        self.last[frame.0 as usize] = t as u16;
        self.served[t] = frame.0 as u8;
    }
}

// LRU's faults of a trace, or refusal 2, 3 or 4; as much of its plan as there are lent words for goes into them. A refusal keeps all words.
// A line for each rule: its promise names the rule.
pub fn run(n: u32, trace: &[u32], words: &mut [u32]) -> Result<u32, Refusal>
    ensures { (result ≡ answered (trace_tests n trace.now) Lru n trace.now) × (words.new ≡ written (trace_tests n trace.now) Lru n trace.now words.old) }
{
    walks::run::<LruPolicy>(n, trace, words)
}
