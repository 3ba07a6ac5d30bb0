// The map of occupied frames: four words of 64 bits, one bit for each frame, low bits first.
// How many frames are occupied, the next free one, and whether exactly the lowest are.
#![tactic(auto)]

ghost use Rattle.std.specs.Prelude.{◌≡◌};
ghost use Rattle.occupancy.specs.Map.{ones_of, lowest_zero, lowest_only};

use paging::Frame;

// How many bits a word has, and how many words a map.
pub const BITS: u32 = 64;

pub const WORDS: usize = (calls::FRAMES / BITS) as usize;

// How many frames are occupied: the number of ones.
pub fn held(map: [u64; WORDS]) -> u32
    ensures { result ≡ ones_of map }
{
    map.iter().map(|word| word.count_ones()).sum()
}

// The next free frame while fewer than all are occupied: the lowest zero bit, which is the first that the complement has set; 256 and no Option where there is none, as the clause says (`lowest_zero`): `lowest_only` compares it with a number.
pub fn next_free(map: [u64; WORDS]) -> Frame
    ensures { result.0 ≡ lowest_zero map }
{
    for (i, word) in map.iter().enumerate() {
        let bit = (!*word).trailing_zeros();
        if bit < BITS {
            return Frame(BITS * i as u32 + bit);
        }
    }
    Frame(calls::FRAMES)
}

// Whether exactly the lowest bits are set: the ones below the lowest zero are then all that there are.
pub fn lowest_only(map: [u64; WORDS]) -> bool
    ensures { result ≡ lowest_only map }
{
    next_free(map).0 == held(map)
}
