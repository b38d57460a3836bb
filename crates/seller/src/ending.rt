ghost use Rattle.std.specs.Prelude.{◌≡◌, length, take, nat_le};
ghost use Rattle.seller.specs.Ending.{ending_of, ending_count, ended_hot, ended_memo};

use keys::key::Key;
use rules::answers::{Refusal, Side};
use rules::tables::{HotRow, Kind, Notice};
use rules::times::Moment;
use scan::edits::{end_notice, end_row};
use scan::looked::{Place, Seen};
use scan::tables::Tables;
use slots::change::edit_at;
use slots::count::append;

// How a version is ended.
#[derive(Clone, Copy, Debug, PartialEq, Eq)]
pub(crate) enum Ending {
    // the hot row at a place
    Row(usize),
    // a cold entry, by its notice at a place
    Turn(usize),
    // a cold entry with this tag, by a new notice
    Add(u32),
}

// How the version that was seen is ended, if there is one, or the refusal where a notice is needed and none is free.
pub(crate) fn ending_of<K: Key, R: Copy>(
    tables: &Tables<'_, K, R>,
    number: u64,
    seen: Option<Seen<R>>,
) -> Result<Option<Ending>, Refusal>
    ensures { result ≡ ending_of K.Key.number (nat_le tables.now.sheet.now.memo.length tables.now.sheet.now.memo.used)
        (take tables.now.sheet.now.memo.used tables.now.memo.now) number seen }
{
    let Some(version) = seen else {
        return Ok(None);
    };
    let ending = match version.place {
        Place::Hot(at) => Ending::Row(at),
        Place::Cold(tag) => match tables.notice_place(number, tag) {
            Some(at) => Ending::Turn(at),
            None if tables.sheet.memo.is_full() => {
                return Err(Refusal::MemoFull(Side::Seller));
            }
            None => Ending::Add(tag),
        },
    };
    Ok(Some(ending))
}

// Ends the version with the session's mark, and answers how many notices there are then.
pub(crate) fn end_version<K: Key, R: Copy>(
    hot: &mut [HotRow<K, R>],
    memo: &mut [Notice<K>],
    used: usize,
    ending: Option<Ending>,
    session: u32,
    key: K,
) -> usize
    ensures count { result ≡ ending_count (length memo.old) used ending }
    ensures hot { hot.new ≡ ended_hot ending session hot.old }
    ensures memo { take result memo.new
        ≡ ended_memo (length memo.old) used ending session key (take used memo.old) }
{
    match ending {
        None => used,
        Some(Ending::Row(at)) => {
            edit_at(hot, at, |row| end_row(row, session));
            used
        }
        Some(Ending::Turn(at)) => {
            edit_at(memo, at, |notice| end_notice(notice, session));
            used
        }
        Some(Ending::Add(tag)) => append(
            memo,
            used,
            Notice {
                key,
                tag,
                kind: Kind::E,
                begin: 1,
                end: Some(Moment::Mark(session)),
            },
        ),
    }
}
