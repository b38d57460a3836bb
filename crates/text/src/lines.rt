ghost use Rattle.std.specs.Prelude.{◌≡◌, ◌⊎◌, [], ◌∷◌, ◌++◌};
ghost use Rattle.std.specs.Iterator.{YieldsFirstRef, item_count};
ghost use Rattle.text.specs.Parts.{lines, lines_left, join};

use crate::parts::split_once;

// Gives the lines of an input, one after another, each without its newline. Each is a part of the input, not a copy.
#[derive(Clone, Copy, Debug)]
pub struct Lines<'a> {
    rest: &'a [u8],
}

impl<'a> Lines<'a> {
    // The reader of all lines: joined by newlines they are the input, or lack only its final newline.
    pub fn of(input: &'a [u8]) -> Lines<'a>
        ensures all { lines_left result ≡ lines input.now }
        ensures joined { (join 10 (lines_left result) ≡ input.now) ⊎ (join 10 (lines_left result) ++ (10 ∷ []) ≡ input.now) }
    {
        Lines { rest: input }
    }
}

// A newline at the very end begins no further line.
impl<'a> Iterator for Lines<'a> {
    type Item = &'a [u8];

    ghost next_gives = { YieldsFirstRef lines_left };

    ghost remaining = { item_count lines_left };

    fn next(&mut self) -> Option<&'a [u8]> {
        let text = self.rest;
        if text.is_empty() {
            return None;
        }
        if let Some((line, rest)) = split_once(text, b'\n') {
            self.rest = rest;
            return Some(line);
        }
        self.rest = &[];
        Some(text)
    }
}
