ghost use Rattle.std.specs.Prelude.{◌≡◌};
ghost use Rattle.rules.specs.Selling.{end_row, end_notice, stamp_row, stamp_notice};
ghost use Rattle.scan.specs.Undoing.{row_stays, notice_stays, reopen_row, reopen_notice};

use rules::notices::NoticeEvent;
use rules::tables::{HotRow, MoveMark, Notice};
use rules::times::Moment;

// The rules change a row and a notice in different ways (a row's begin and move mark, a notice's kind), so each has functions of its own.

// Ends a version with the session's mark.
pub fn end_row<K, R>(row: &mut HotRow<K, R>, session: u32)
    ensures { row.new ≡ end_row session row.old }
{
    row.end = Some(Moment::Mark(session));
    row.mark = MoveMark::Unmoved;
}

// Ends a cold entry by its notice, with the session's mark.
pub fn end_notice<K>(notice: &mut Notice<K>, session: u32)
    ensures { notice.new ≡ end_notice session notice.old }
{
    notice.kind = notice
        .kind
        .after(NoticeEvent::Ending)
        .unwrap_or(notice.kind);
    notice.end = Some(Moment::Mark(session));
}

// Turns the session's marks into a stamp.
pub fn stamp_row<K, R>(row: &mut HotRow<K, R>, session: u32, stamp: u32)
    ensures { row.new ≡ stamp_row session stamp row.old }
{
    row.begin = row.begin.stamped(session, stamp);
    row.end = row.end.map(|end| end.stamped(session, stamp));
}

// Turns the session's mark into a stamp.
pub fn stamp_notice<K>(notice: &mut Notice<K>, session: u32, stamp: u32)
    ensures { notice.new ≡ stamp_notice session stamp notice.old }
{
    notice.end = notice.end.map(|end| end.stamped(session, stamp));
}

// Whether a row stays when the session is undone: one that it did not begin.
pub fn row_stays<K, R>(row: &HotRow<K, R>, session: u32) -> bool
    ensures { result ≡ row_stays session row.now }
{
    !row.begin.is_mark_of(session)
}

// Whether a notice stays then: one that the session did not add.
pub fn notice_stays<K>(notice: &Notice<K>, session: u32) -> bool
    ensures { result ≡ notice_stays session notice.now }
{
    !notice.end.is_some_and(|end| end.is_mark_of(session))
        || notice.kind.after(NoticeEvent::Abandon).is_some()
}

// Opens a row that stays, where the session ended it.
pub fn reopen_row<K, R>(row: &mut HotRow<K, R>, session: u32)
    ensures { row.new ≡ reopen_row session row.old }
{
    row.end = row.end.filter(|end| !end.is_mark_of(session));
}

// Opens the entry of a notice that stays, where the session ended it.
pub fn reopen_notice<K>(notice: &mut Notice<K>, session: u32)
    ensures { notice.new ≡ reopen_notice session notice.old }
{
    if notice.end.is_some_and(|end| end.is_mark_of(session)) {
        notice.kind = notice
            .kind
            .after(NoticeEvent::Abandon)
            .unwrap_or(notice.kind);
        notice.end = None;
    }
}
