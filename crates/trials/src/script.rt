// Reads what a line asks, byte by byte: the first letter says what is asked; numbers go one behind the other into words, - is the mark, 7*9 is nine sevens, and each of the first three ; is a cut.
use paging::MARK;

// So many words have room in a line; what stands behind them is left out.
const ROOM: usize = 16500;

// Digits behind a number that has come so far are left out.
const GROWN: u64 = 1000000000;

// What a line asks.
#[derive(Clone, Copy, Debug, PartialEq, Eq)]
pub(crate) enum Verb {
    Count,
    Write,
    Judge,
    Better,
    Turns,
    New,
    Record,
    Feed,
    Kept,
    Map,
    // A letter that asks nothing still is the first.
    Nothing,
}

// The first letter alone says it.
impl From<u8> for Verb {
    fn from(letter: u8) -> Verb {
        match letter {
            b'c' => Verb::Count,
            b'w' => Verb::Write,
            b'j' => Verb::Judge,
            b'b' => Verb::Better,
            b't' => Verb::Turns,
            b'n' => Verb::New,
            b'r' => Verb::Record,
            b'f' => Verb::Feed,
            b'k' => Verb::Kept,
            b'm' => Verb::Map,
            _ => Verb::Nothing,
        }
    }
}

// Where the next byte stands: between numbers, in a number, or in how many times a word is to be put.
#[derive(Clone, Copy, Debug, PartialEq, Eq)]
enum Stage {
    Between,
    Number(u64),
    Times(u32, u64),
}

impl Stage {
    // What has been read of a number.
    fn number(self) -> u64 {
        match self {
            Stage::Between => 0,
            Stage::Number(number) => number,
            Stage::Times(_, number) => number,
        }
    }

    fn with(self, digit: u8) -> Stage {
        let number = match self.number() {
            number if number < GROWN => number * 10 + u64::from(digit),
            number => number,
        };
        match self {
            Stage::Times(word, _) => Stage::Times(word, number),
            _ => Stage::Number(number),
        }
    }
}

// What has been read of a line: the words, the place of the next one, and the first three cuts.
// No Vec for the words: those that aren't given are marks, and a record is 1,035 of them however few are given.
#[derive(Drop)]
pub(crate) struct Line {
    pub verb: Option<Verb>,
    stage: Stage,
    pub words: [u32; ROOM],
    place: usize,
    pub first: Option<usize>,
    pub second: Option<usize>,
    pub third: Option<usize>,
}

impl Line {
    // Made once, as its words are many, and lent to each line.
    pub(crate) fn new() -> Line {
        Line {
            verb: None,
            stage: Stage::Between,
            words: [MARK; ROOM],
            place: 0,
            first: None,
            second: None,
            third: None,
        }
    }

    // What stands behind a line's colon, in place of the line before.
    pub(crate) fn read(&mut self, asked: &[u8]) {
        self.begin();
        for byte in asked {
            self.step(*byte);
        }
    }

    // Nothing read: the words that were put are marks again, as those behind them still are.
    fn begin(&mut self) {
        if let Some(put) = self.words.get_mut(..self.place) {
            put.fill(MARK);
        }
        self.place = 0;
        self.verb = None;
        self.stage = Stage::Between;
        self.first = None;
        self.second = None;
        self.third = None;
    }

    fn step(&mut self, byte: u8) {
        match byte {
            b';' => {
                self.end();
                self.cut();
            }
            0..=b')' => self.end(),
            b'0'..=b'9' => self.stage = self.stage.with(byte - b'0'),
            _ => self.sign(byte),
        }
    }

    // The mark, what comes before the times of a number, or a letter; the first of them says what is asked.
    fn sign(&mut self, byte: u8) {
        match byte {
            b'-' => self.stage = Stage::Number(u64::from(MARK)),
            b'*' => self.stage = Stage::Times(word(self.stage.number()), 0),
            _ => {}
        }
        self.verb = self.verb.or(Some(Verb::from(byte)));
    }

    // What follows a number ends it.
    fn end(&mut self) {
        match self.stage {
            Stage::Between => {}
            Stage::Number(number) => self.put(word(number), 1),
            Stage::Times(value, times) => self.put(value, word(times)),
        }
        self.stage = Stage::Between;
    }

    // Puts a word so many times.
    fn put(&mut self, word: u32, times: u32) {
        let from = self.place;
        self.place = from.saturating_add(times as usize).min(ROOM);
        if let Some(room) = self.words.get_mut(from..self.place) {
            room.fill(word);
        }
    }

    // A cut before every number is none, and each one after the third moves it.
    fn cut(&mut self) {
        let cut = (0 < self.place).then_some(self.place);
        if self.first.is_none() {
            self.first = cut;
        } else if self.second.is_none() {
            self.second = cut;
        } else {
            self.third = cut;
        }
    }

    // The words from one cut to another; a cut that isn't there stands before all words.
    pub(crate) fn list(&self, from: Option<usize>, to: Option<usize>) -> &[u32] {
        let (from, to) = (from.unwrap_or(0), to.unwrap_or(0));
        self.words.get(from..to).unwrap_or(&[])
    }

    // The same up to the last word.
    pub(crate) fn rest(&self, from: Option<usize>) -> &[u32] {
        self.list(from, Some(self.place))
    }
}

// The mark for what is above 32 bits. No str::parse: a name may be no text, and digits behind a number that has grown are left out.
fn word(number: u64) -> u32 {
    u32::try_from(number).unwrap_or(MARK)
}
