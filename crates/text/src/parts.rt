ghost use Rattle.std.specs.Prelude.{◌≡◌, ◌+◌, ◌≤◌, length, take, drop, MatchOption};
ghost use Rattle.std.specs.Iterator.{YieldsFirstRef, item_count};
ghost use Rattle.text.specs.Parts.{count_to, split, join, left};

// How many bytes come before the first byte `at`.
pub fn count_to(text: &[u8], at: u8) -> usize
    ensures bound { result ≤ length text.now }
    ensures value { result ≡ count_to at text.now }
{
    text.iter().position(|b| *b == at).unwrap_or(text.len())
}

// What stands before the first byte `at` and what follows it, if there is one.
pub(crate) fn split_once(text: &[u8], at: u8) -> Option<(&[u8], &[u8])>
    ensures { MatchOption result (count_to at text.now ≡ length text.now) (λ p.
        (p.0.now ≡ take (count_to at text.now) text.now)
        × (p.1.now ≡ drop (count_to at text.now + 1) text.now)
        × (count_to at text.now + 1 ≤ length text.now)) }
{
    let end = count_to(text, at);
    if end == text.len() {
        return None;
    }
    Some((&text[..end], &text[end + 1..]))
}

// Gives the parts of a text between its bytes `at`, one after another. Each is a part of the text, not a copy.
// Not std's `split`: its type holds the type of a closure, so that `Words` could not name it.
#[derive(Clone, Copy, Debug)]
pub struct Parts<'a> {
    rest: Option<&'a [u8]>,
    at: u8,
}

impl<'a> Parts<'a> {
    // The reader of all parts: joined by the byte `at` they are the text.
    pub fn of(text: &'a [u8], at: u8) -> Parts<'a>
        ensures all { left result ≡ split at text.now }
        ensures joined { join at (left result) ≡ text.now }
    {
        Parts {
            rest: Some(text),
            at,
        }
    }
}

impl<'a> Iterator for Parts<'a> {
    type Item = &'a [u8];

    ghost next_gives = { YieldsFirstRef left };

    ghost remaining = { item_count left };

    fn next(&mut self) -> Option<&'a [u8]> {
        let text = self.rest?;
        if let Some((part, rest)) = split_once(text, self.at) {
            self.rest = Some(rest);
            return Some(part);
        }
        self.rest = None;
        Some(text)
    }
}
