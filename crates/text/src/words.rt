ghost use Rattle.std.specs.Prelude.{◌≡◌};
ghost use Rattle.std.specs.Iterator.{YieldsFirstBy, item_count};
ghost use Rattle.text.specs.Parts.{join};
ghost use Rattle.text.specs.Words.{words, words_left, meanings_left, meant, named, word_of, spelled};

use crate::parts::{Parts, split_once};
use crate::word::Word;

// The word of a name and a value.
fn name_word<'a>(word: &'a [u8], name: &[u8], value: &'a [u8]) -> Word<'a>
    ensures { meant result ≡ named word.now name.now value.now }
{
    match name {
        b"call" => Word::Call(value),
        b"s" => Word::Session(value),
        b"mode" => Word::Mode(value),
        b"k" => Word::Key(value),
        b"v" => Word::Row(value),
        _ => Word::Other(word),
    }
}

// Reads one word. No byte of it is lost.
pub fn read_word(word: &[u8]) -> Word<'_>
    ensures value { meant result ≡ word_of word.now }
    ensures back { spelled (meant result) ≡ word.now }
{
    match split_once(word, b'=') {
        Some((name, value)) => name_word(word, name, value),
        None => Word::Other(word),
    }
}

// Gives the words of a line, one after another.
#[derive(Clone, Copy, Debug)]
pub struct Words<'a> {
    parts: Parts<'a>,
}

impl<'a> Words<'a> {
    // The reader of all words: joined by single spaces they are the line.
    pub fn of(line: &'a [u8]) -> Words<'a>
        ensures all { words_left result ≡ words line.now }
        ensures joined { join 32 (words_left result) ≡ line.now }
    {
        Words {
            parts: Parts::of(line, b' '),
        }
    }
}

impl<'a> Iterator for Words<'a> {
    type Item = Word<'a>;

    ghost next_gives = { YieldsFirstBy meant meanings_left };

    ghost remaining = { item_count words_left };

    fn next(&mut self) -> Option<Word<'a>> {
        self.parts.next().map(read_word)
    }
}
