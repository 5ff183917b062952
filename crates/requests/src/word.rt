// The words of the calls.
ghost use Rattle.std.specs.Prelude.{◌≡◌, slice_index_or};
ghost use Rattle.requests.specs.Layout.{word_text};
ghost use Rattle.requests.specs.Steps.{guessed};

use crate::lines::byte_at;

// Of a call only its name, without what it asks: the answers to all requests of a name begin with it.
#[derive(Clone, Copy, PartialEq, Eq, Debug)]
pub enum Word {
    Begin,
    Reserve,
    Look,
    Survey,
    Write,
    Strike,
    Commit,
    Abandon,
    Tally,
}

impl Word {
    // The word in its eight columns.
    pub fn bytes(self) -> [u8; 8]
        ensures { result ≡ word_text self }
    {
        match self {
            Word::Begin => *b"begin   ",
            Word::Reserve => *b"reserve ",
            Word::Look => *b"look    ",
            Word::Survey => *b"survey  ",
            Word::Write => *b"write   ",
            Word::Strike => *b"strike  ",
            Word::Commit => *b"commit  ",
            Word::Abandon => *b"abandon ",
            Word::Tally => *b"tally   ",
        }
    }

    // The word that a line begins with, if it begins with one: its first two letters tell.
    pub fn guess(line: &[u8]) -> Word
        ensures { result ≡ guessed (slice_index_or line.now 0 32) (slice_index_or line.now 1 32) }
    {
        match byte_at(line, 0) {
            b'b' => Word::Begin,
            b'r' => Word::Reserve,
            b'l' => Word::Look,
            b'w' => Word::Write,
            b'c' => Word::Commit,
            b'a' => Word::Abandon,
            b's' => {
                if byte_at(line, 1) == b'u' {
                    Word::Survey
                } else {
                    Word::Strike
                }
            }
            _ => Word::Tally,
        }
    }
}
