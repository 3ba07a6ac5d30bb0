// How an answer leaves the project: its numbers over the front of lent words, one after the other; where the words end, the rest is left out.
// The crates whose names begin with `exports_` offer the services so, over numbers, and lists as a pointer and a length.
// Of a caller is asked only what makes a slice: so many words or bytes behind each pointer, words at multiples of 4; no list that is written overlapping another;
// and nobody else writing to a list, or reading one that is written, before the call returns.
#![tactic(auto)]

ghost use Rattle.std.specs.Prelude.{◌≡◌};
ghost use Rattle.paging.specs.Services.{laid};

// Lays numbers over the front of words, as many as there is room for.
pub fn lay(numbers: &[u32], words: &mut [u32])
    ensures { words.new ≡ laid numbers.now words.old }
{
    // By an element, and no copy_from_slice: a list that may be any caller's own would then ask the archive for C for `memmove`.
    for (i, number) in numbers.iter().enumerate() {
        if words.len() <= i {
            return;
        }
        words[i] = *number;
    }
}
