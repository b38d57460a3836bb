ghost use Rattle.std.specs.Prelude.{◌≡◌};
ghost use Rattle.rules.specs.Moving.{settle_notice};

use rules::notices::NoticeEvent;
use rules::tables::{Kind, Notice};

// Settles a notice. Only N takes the row's begin.
pub fn settle_notice<K>(notice: &mut Notice<K>, begin: u32)
    ensures { notice.new ≡ settle_notice begin notice.old }
{
    if notice.kind == Kind::N {
        notice.begin = begin;
    }
    notice.kind = notice
        .kind
        .after(NoticeEvent::Settle)
        .unwrap_or(notice.kind);
}
