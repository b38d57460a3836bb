ghost use Rattle.std.specs.Prelude.{◌≡◌};
ghost use Rattle.rules.specs.Times.{begun, sees, begin_marked, begin_above, foreign_begin, past, stamp_begin, stamp_in};

// A moment at which a version begins or ends: a stamp, or the mark of a session that has not finished.
#[derive(Clone, Copy, Debug, PartialEq, Eq)]
pub enum Moment {
    Stamp(u32),
    Mark(u32),
}

// A session that reads, and its read time.
#[derive(Clone, Copy, Debug, PartialEq, Eq)]
pub struct Reader {
    pub session: u32,
    pub time: u32,
}

impl Moment {
    // Whether it has come for the reader: a stamp up to the read time, or the session's own mark.
    pub fn has_come(self, reader: Reader) -> bool
        ensures { result ≡ begun self reader.session reader.time }
    {
        match self {
            Moment::Stamp(stamp) => stamp <= reader.time,
            Moment::Mark(session) => session == reader.session,
        }
    }

    // Whether it is another session's mark, or a stamp above the read time.
    pub fn is_foreign(self, reader: Reader) -> bool
        ensures { result ≡ foreign_begin self reader.session reader.time }
    {
        !self.has_come(reader)
    }

    // Whether it is the session's mark.
    pub fn is_mark_of(self, session: u32) -> bool
        ensures { result ≡ begin_marked self session }
    {
        self == Moment::Mark(session)
    }

    // Its stamp; none where it is a mark.
    pub fn stamp(self) -> Option<u32>
        ensures { result ≡ stamp_in self }
    {
        match self {
            Moment::Stamp(stamp) => Some(stamp),
            Moment::Mark(_) => None,
        }
    }

    // Whether it is a stamp above the time.
    pub fn is_above(self, time: u32) -> bool
        ensures { result ≡ begin_above self time }
    {
        self.stamp().is_some_and(|stamp| stamp > time)
    }

    // Whether it is a stamp at or below the horizon.
    pub fn is_past(self, horizon: u32) -> bool
        ensures { result ≡ past self horizon }
    {
        self.stamp().is_some_and(|stamp| stamp <= horizon)
    }

    // The moment once the session's mark is the stamp.
    pub fn stamped(self, session: u32, stamp: u32) -> Moment
        ensures { result ≡ stamp_begin session stamp self }
    {
        if self.is_mark_of(session) {
            Moment::Stamp(stamp)
        } else {
            self
        }
    }
}

impl Reader {
    // Whether the reader sees a version: it has begun, and has not ended.
    pub fn sees(self, begin: Moment, end: Option<Moment>) -> bool
        ensures { result ≡ sees begin end self.session self.time }
    {
        begin.has_come(self) && !end.is_some_and(|end| end.has_come(self))
    }
}
