// The reader of document 01: a bundle file's bytes, and a place in them.
// In order: a reader, and its steps: new, the word at its place, a section from there on, its place moved on;
// for a caller without a reader, by a file and a byte: how much is left, the place moved on, a word, a section. They are promised by file and byte (`word_in`, `section_over`).
ghost use Rattle.std.specs.Prelude.{◌≡◌, length};
ghost use Rattle.words.specs.Bytes.{word_in};
ghost use Rattle.words.specs.Places.{bytes_from, place_after, words_held, section_over};

#[derive(Clone, Copy, Debug)]
pub struct Reader<'a> {
    pub file: &'a [u8],
    pub at: usize,
}

impl<'a> Reader<'a> {
    // At the file's first byte.
    pub fn new(file: &'a [u8]) -> Reader<'a>
        ensures { (result.file ≡ file.entry) × (result.at ≡ 0) }
    {
        Reader { file, at: 0 }
    }

    // The word at its place, or none where the file ends before the word does.
    #[tactic(auto, unfolding(crate::specs::Bytes::word_in))]
    pub fn word(self) -> Option<u32>
        ensures { result ≡ word_in self.entry.file.now self.entry.at }
    {
        if left_at(self.file, self.at) < 4 {
            return None;
        }
        Some(super::whole_at(self.file, self.at))
    }

    // How many words a copy has: no more than asked, lent, or left whole in the file.
    fn held(self, count: usize, room: usize) -> usize
        ensures { result ≡ words_held self.entry.file.now self.entry.at count room }
    {
        count.min(room).min(left_at(self.file, self.at) / 4)
    }

    // Copies so many words from its place on, or as many as both sides have, to the front of the lent list; answers how many.
    #[tactic(auto, using(crate::proofs::Places::over_none))]
    pub fn section(self, count: usize, out: &mut [u32]) -> usize
        ensures { (result ≡ words_held self.entry.file.now self.entry.at count (length out.old)) × (out.new ≡ section_over self.entry.file.now self.entry.at count out.old) }
    {
        let held = self.held(count, out.len());
        // Where nothing is held, the place may be past the end.
        if held != 0 {
            super::words_at(self.file, self.at, &mut out[..held]);
        }
        held
    }

    // The reader so many bytes on.
    pub fn skip(self, bytes: usize) -> Reader<'a>
        ensures { (result.file ≡ self.entry.file) × (result.at ≡ place_after self.entry.file.now self.entry.at bytes) }
    {
        Reader {
            at: place_after(self.file, self.at, bytes),
            ..self
        }
    }
}

// How many bytes a file has from a byte on.
pub fn left_at(file: &[u8], at: usize) -> usize
    ensures { result ≡ bytes_from file.now at }
{
    file.len().saturating_sub(at)
}

// No `min`: at + bytes may be too large, and a place past the end stays as the definition has it.
// The place so many bytes on, or the file's end where it has fewer.
pub fn place_after(file: &[u8], at: usize, bytes: usize) -> usize
    ensures { result ≡ place_after file.now at bytes }
{
    if left_at(file, at) < bytes {
        return file.len();
    }
    at + bytes
}

// The word at a byte of a file, by a reader.
#[tactic(auto, using(crate::proofs::Places::word_after))]
pub fn word_from(file: &[u8], at: usize) -> Option<u32>
    ensures { result ≡ word_in file.now at }
{
    Reader::new(file).skip(at).word()
}

// The words from a byte of a file on, by a reader.
#[tactic(auto, using(crate::proofs::Places::held_after, crate::proofs::Places::over_after))]
pub fn section_from(file: &[u8], at: usize, count: usize, out: &mut [u32]) -> usize
    ensures held { result ≡ words_held file.now at count (length out.old) }
    ensures words { out.new ≡ section_over file.now at count out.old }
{
    Reader::new(file).skip(at).section(count, out)
}
