// Bytes, words, decimal numbers and lines put into a lent room.
// In order: the writer; a byte, some bytes, a number; the lines of document 01's report that have two numbers.
// Each is put right behind what was put before. Where the room ends, nothing more is put.
#![tactic(auto)]

ghost use Rattle.std.specs.Prelude.{◌≡◌, [], ◌∷◌};
ghost use Rattle.text.specs.Decimal.{decimal};
ghost use Rattle.text.specs.Lines.{pair, refused_line, line};
ghost use Rattle.text.specs.Writing.{Wrote};

use paging::Refusal;

// A lent room, and the place behind what was put into it.
// No fmt::Write: write! may answer an error, after which nothing is known of the room.
#[derive(Drop)]
pub struct Writer<'a> {
    room: &'a mut [u8],
    at: usize,
}

impl<'a> Writer<'a> {
    // From this place of a room on.
    pub fn new(room: &'a mut [u8], at: usize) -> Writer<'a>
        ensures same_reference { result.room.ghost_name ≡ room.entry.ghost_name }
        ensures place { result.at ≡ at }
        ensures room { result.room.now ≡ room.old }
    {
        Writer { room, at }
    }

    // The place behind what was put.
    pub fn position(&self) -> usize
        ensures { result ≡ self.now.at }
    {
        self.at
    }

    // One byte.
    pub fn put(&mut self, byte: u8)
        ensures { Wrote self.old (byte ∷ []) self.new }
    {
        if self.at < self.room.len() {
            self.room[self.at] = byte;
            self.at += 1;
        }
    }

    // Some bytes.
    pub fn word(&mut self, bytes: &[u8])
        ensures { Wrote self.old bytes.now self.new }
    {
        for byte in bytes {
            self.put(*byte);
        }
    }

    // A number in decimal, without leading zeros: the digits of its tenth, where it has one, and the last.
    // No itoa: a library more, and a law that ties what it prints to `decimal`, are no plainer than these lines.
    pub fn number(&mut self, x: u32)
        ensures { Wrote self.old (decimal x) self.new }
    {
        let tens = 9 < x;
        if tens {
            self.number(x / 10);
        }
        self.put(b'0' + (x % 10) as u8);
    }

    // Two numbers with something between, and a line feed.
    pub fn two_numbers(&mut self, x: u32, between: &[u8], y: u32)
        ensures { Wrote self.old (pair x between.now y) self.new }
    {
        self.number(x);
        self.word(between);
        self.number(y);
        self.put(b'\n');
    }

    // A refusal's number and place.
    pub fn refused_line(&mut self, refusal: Refusal)
        ensures { Wrote self.old (refused_line refusal) self.new }
    {
        self.word(b"refused ");
        self.two_numbers(refusal.number(), b" at ", refusal.place());
    }

    // A name, a number of frames and the faults.
    pub fn line(&mut self, name: &[u8], frames: u32, faults: u32)
        ensures { Wrote self.old (line name.now frames faults) self.new }
    {
        self.word(name);
        self.two_numbers(frames, b" ", faults);
    }
}
