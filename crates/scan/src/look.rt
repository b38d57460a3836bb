ghost use Rattle.std.specs.Prelude.{◌≡◌};
ghost use Rattle.rules.specs.Looking.{hot_sees, hot_foreign, notice_foreign, hot_above, notice_above};
ghost use Rattle.rules.specs.Selling.{hot_own, line_for};

use keys::key::Key;
use rules::tables::{HotRow, Line, Notice};
use rules::times::Reader;

// A look at a key: who reads, and the number of the key.
#[derive(Clone, Copy, Debug, PartialEq, Eq)]
pub struct Look {
    pub reader: Reader,
    pub number: u64,
}

impl Look {
    // A hot row of the key that the reader sees.
    pub fn sees<K: Key, R>(self, row: &HotRow<K, R>) -> bool
        ensures { result ≡ hot_sees K.Key.number self.reader.session self.reader.time self.number row.now }
    {
        row.key.number() == self.number && self.reader.sees(row.begin, row.end)
    }

    // The reader's own unfinished version of the key.
    pub fn is_own<K: Key, R>(self, row: &HotRow<K, R>) -> bool
        ensures { result ≡ hot_own K.Key.number self.reader.session self.number row.now }
    {
        row.key.number() == self.number && row.begin.is_mark_of(self.reader.session)
    }

    // Of the key, with another session's mark or a stamp above the read time.
    pub fn is_foreign<K: Key, R>(self, row: &HotRow<K, R>) -> bool
        ensures { result ≡ hot_foreign K.Key.number self.reader.session self.reader.time self.number row.now }
    {
        row.key.number() == self.number
            && (row.begin.is_foreign(self.reader)
                || row.end.is_some_and(|end| end.is_foreign(self.reader)))
    }

    // The same of a notice, whose begin is a plain stamp. One body for both would take key, begin and end apart at each call.
    pub fn is_foreign_notice<K: Key>(self, notice: &Notice<K>) -> bool
        ensures { result ≡ notice_foreign K.Key.number self.reader.session self.reader.time self.number notice.now }
    {
        notice.key.number() == self.number
            && (notice.begin > self.reader.time
                || notice.end.is_some_and(|end| end.is_foreign(self.reader)))
    }

    // Of the key, with a stamp above the read time.
    pub fn is_above<K: Key, R>(self, row: &HotRow<K, R>) -> bool
        ensures { result ≡ hot_above K.Key.number self.reader.time self.number row.now }
    {
        row.key.number() == self.number
            && (row.begin.is_above(self.reader.time)
                || row.end.is_some_and(|end| end.is_above(self.reader.time)))
    }

    // The same of a notice.
    pub fn is_above_notice<K: Key>(self, notice: &Notice<K>) -> bool
        ensures { result ≡ notice_above K.Key.number self.reader.time self.number notice.now }
    {
        notice.key.number() == self.number
            && (notice.begin > self.reader.time
                || notice.end.is_some_and(|end| end.is_above(self.reader.time)))
    }

    // The reader's line for the key.
    pub fn is_line<K: Key>(self, line: &Line<K>) -> bool
        ensures { result ≡ line_for K.Key.number self.reader.session self.number line.now }
    {
        line.session == self.reader.session && line.key.number() == self.number
    }
}
