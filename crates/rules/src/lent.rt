ghost use Rattle.std.specs.Prelude.{◌≡◌};
ghost use Rattle.rules.specs.Stores.{same_lengths, lengths_of, lent};

use crate::sheet::Sheet;
use crate::tables::{HotRow, Line, Notice};

impl Sheet {
    // Whether the lent tables have the opening's lengths. They come one by one: a call borrows only some of them to change.
    pub fn is_lent<K, R>(
        &self,
        hot: &[HotRow<K, R>],
        memo: &[Notice<K>],
        ledger: &[Line<K>],
    ) -> bool
        ensures { result ≡ same_lengths (lent hot.now memo.now ledger.now) (lengths_of self.now) }
    {
        hot.len() == self.hot.length
            && memo.len() == self.memo.length
            && ledger.len() == self.ledger.length
    }
}
