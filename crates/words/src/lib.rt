// Little-endian 32-bit words in a bundle file's bytes: the word at a byte that the file has, several from there on, and the reader over both.
// The first two take a file and a byte, and no reader: they ask that the words are there, which of a reader is not known.
#![tactic(auto)]

ghost use Rattle.std.specs.Prelude.{◌≡◌, ◌+◌, ◌*◌, ◌≤◌, length};
ghost use Rattle.words.specs.Bytes.{word_at, words_at};

pub mod reader; // reader.rt: a file and a place in it

// The word at a byte of a file that has it.
#[tactic(auto, unfolding(crate::specs::Bytes::word_at))]
fn whole_at(file: &[u8], at: usize) -> u32
    requires { at + 4 ≤ length file.now }
    ensures { result ≡ word_at file.now at }
{
    u32::from_le_bytes([file[at], file[at + 1], file[at + 2], file[at + 3]])
}

// Copies words of the file into the whole of the lent list.
#[tactic(auto, using(crate::proofs::Bytes::words_none, crate::proofs::Bytes::words_next))]
fn words_at(file: &[u8], at: usize, out: &mut [u32])
    requires { at + 4 * length out.old ≤ length file.now }
    ensures { out.new ≡ words_at file.now at (length out.old) }
{
    for (i, word) in out.iter_mut().enumerate() {
        *word = whole_at(file, at + 4 * i);
    }
}
