ghost use Rattle.std.specs.Prelude.{◌≡◌, ℕ, [], take, position};
ghost use Rattle.std.specs.List.{position_or_len};
ghost use Rattle.cold.specs.Cold.{own};
ghost use Rattle.rules.specs.Stores.{store};
ghost use Rattle.rules.specs.Looking.{noted_sees, notice_for, hot_sees, cold_sees, is_for, conflict, above, walk, looked};
ghost use Rattle.rules.specs.Selling.{hot_own, has_marks, new_line, stale};
ghost use Rattle.scan.specs.Bare.{bare_of};
ghost use Rattle.scan.specs.Told.{looked_at};

use crate::look::Look;
use crate::looked::{Looked, Place, Seen};
use cold::store::ColdStore;
use filter::Filter;
use keys::key::Key;
use rules::sheet::{Mode, Reading, Sheet};
use rules::tables::{HotRow, Line, Notice};
use rules::times::{Moment, Reader};
use slots::search::{any_of, find_first, listed};

// The sheet and the tables of a store, lent to be read.
#[derive(Drop)]
pub struct Tables<'a, K, R> {
    pub sheet: &'a Sheet,
    pub hot: &'a [HotRow<K, R>],
    pub memo: &'a [Notice<K>],
    pub ledger: &'a [Line<K>],
}

impl<K: Key, R: Copy> Tables<'_, K, R> {
    // The place of the reader's own unfinished version of the key.
    pub fn own_place(&self, look: Look) -> Option<usize>
        ensures { result ≡ position (hot_own K.Key.number look.reader.session look.number)
            (take self.now.sheet.now.hot.used self.now.hot.now) }
    {
        listed(self.hot, self.sheet.hot.used)
            .iter()
            .position(|row| look.is_own(row))
    }

    // The place of a cold entry's notice.
    pub fn notice_place(&self, number: u64, tag: u32) -> Option<usize>
        ensures { result ≡ position (is_for K.Key.number number tag)
            (take self.now.sheet.now.memo.used self.now.memo.now) }
    {
        listed(self.memo, self.sheet.memo.used)
            .iter()
            .position(|notice| notice.is_for(number, tag))
    }

    // Whether the key is in conflict for the reader.
    pub fn is_conflict(&self, look: Look) -> bool
        ensures { result ≡ conflict K.Key.number (bare_of self.now) look.reader.session look.reader.time look.number }
    {
        any_of(self.hot, self.sheet.hot.used, |row| look.is_foreign(row))
            || any_of(
                self.memo,
                self.sheet.memo.used,
                |notice| look.is_foreign_notice(notice),
            )
    }

    // Whether a hot row or a notice bears the session's mark.
    pub fn is_marked(&self, session: u32) -> bool
        ensures { result ≡ has_marks (bare_of self.now) session }
    {
        any_of(self.hot, self.sheet.hot.used, |row| {
            row.begin.is_mark_of(session) || row.end.is_some_and(|end| end.is_mark_of(session))
        }) || any_of(self.memo, self.sheet.memo.used, |notice| {
            notice.end.is_some_and(|end| end.is_mark_of(session))
        })
    }

    // Whether the key has a stamp above the read time. Another two tests than `is_conflict` has: passed in, they would be named at each call.
    fn is_above(&self, look: Look) -> bool
        ensures { result ≡ above K.Key.number (bare_of self.now) look.reader.time look.number }
    {
        any_of(self.hot, self.sheet.hot.used, |row| look.is_above(row))
            || any_of(
                self.memo,
                self.sheet.memo.used,
                |notice| look.is_above_notice(notice),
            )
    }

    // Whether a key that a checked session looked at has a stamp above its read time.
    pub fn is_stale(&self, session: u32, reading: Reading) -> bool
        ensures { result ≡ stale K.Key.number (bare_of self.now) reading.mode session reading.time }
    {
        let reader = Reader {
            session,
            time: reading.time,
        };
        reading.mode == Mode::Checked
            && any_of(self.ledger, self.sheet.ledger.used, |line| {
                line.session == session
                    && self.is_above(Look {
                        reader,
                        number: line.key.number(),
                    })
            })
    }

    // Whether a line is to be entered: a checked session's for a key, and only once.
    pub fn is_line_new(&self, mode: Mode, look: Look) -> bool
        ensures { result ≡ new_line K.Key.number (bare_of self.now) mode look.reader.session look.number }
    {
        mode == Mode::Checked
            && !any_of(
                self.ledger,
                self.sheet.ledger.used,
                |line| look.is_line(line),
            )
    }

    // A cold entry's notice.
    fn notice_for(&self, number: u64, tag: u32) -> Option<Notice<K>>
        ensures { result ≡ notice_for K.Key.number (take self.now.sheet.now.memo.used self.now.memo.now) number tag }
    {
        find_first(self.memo, self.sheet.memo.used, |notice| {
            notice.is_for(number, tag)
        })
        .map(|hit| hit.it)
    }

    // Whether the reader sees the cold entry of its key with a tag.
    fn is_entry_seen(&self, look: Look, tag: u32) -> bool
        ensures { result ≡ noted_sees (notice_for K.Key.number (take self.now.sheet.now.memo.used self.now.memo.now) look.number tag)
            look.reader.session look.reader.time }
    {
        self.notice_for(look.number, tag).map_or(
            look.reader.sees(Moment::Stamp(1), None),
            |notice| notice.is_seen(look.reader),
        )
    }

    // Finds from tag 0 upward, until an entry is seen or none is left.
    fn walk_cold<C: ColdStore<K, R>>(&self, cold: &C, reader: Reader, key: &K) -> Looked<R>
        ensures { (i : ℕ) → result ≡ looked_at {K = K} i
            (walk (cold_sees K.Key.number (take self.now.sheet.now.memo.used self.now.memo.now) reader.session reader.time)
            (own (K.Key.number key.now) 0 (C.ColdStore.entries cold.now)) 0) }
    {
        let look = Look {
            reader,
            number: key.number(),
        };
        let mut tag = 0;
        let mut finds = 0;
        // a find starts at the tag after the one found, and the finds are told: no iterator of the library goes on so
        while let Some(found) = cold.find(key, tag) {
            finds += 1;
            if self.is_entry_seen(look, found.tag) {
                return Looked {
                    seen: Some(Seen {
                        row: found.row,
                        place: Place::Cold(found.tag),
                    }),
                    finds,
                };
            }
            let Some(next) = found.tag.checked_add(1) else {
                return Looked { seen: None, finds };
            };
            tag = next;
        }
        Looked {
            seen: None,
            finds: finds + 1,
        }
    }

    // What a session sees of a key: the hot table first, then, where the filter admits the key, the cold store.
    pub fn lookup<C: ColdStore<K, R>, F: Filter>(
        &self,
        cold: &C,
        filter: &F,
        reader: Reader,
        key: &K,
    ) -> Looked<R>
        ensures { result ≡ looked_at
            (position_or_len (hot_sees K.Key.number reader.session reader.time (K.Key.number key.now))
            (take self.now.sheet.now.hot.used self.now.hot.now))
            (looked K.Key.number
            (store self.now.sheet.now self.now.hot.now self.now.memo.now [] (C.ColdStore.entries cold.now)
            (C.ColdStore.limit cold.now) (F.Filter.admitted filter.now))
            reader.session reader.time (K.Key.number key.now)) }
    {
        let look = Look {
            reader,
            number: key.number(),
        };
        if let Some(hit) = find_first(self.hot, self.sheet.hot.used, |row| look.sees(row)) {
            return Looked {
                seen: Some(Seen {
                    row: hit.it.row,
                    place: Place::Hot(hit.at),
                }),
                finds: 0,
            };
        }
        if !filter.admits(look.number) {
            return Looked {
                seen: None,
                finds: 0,
            };
        }
        self.walk_cold(cold, reader, key)
    }
}
