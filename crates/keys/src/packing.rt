ghost use Rattle.std.specs.Prelude.{◌≡◌, ℕ, List, ◌++◌, length, drop, ◌==◌};
ghost use Rattle.std.proofs.Common.{◌∙◌};
ghost use Rattle.std.proofs.Math.Path.{ap, refl};
ghost use Rattle.keys.specs.Packing.{packed_listing, unpacked_listing, packed_case, unpacked_case, word, case_parts, laid};
ghost use Rattle.keys.specs.Bytes.{low_bytes, low};
ghost use Rattle.keys.specs.Low.{low_front};
ghost use Rattle.keys.specs.Ext.{listing_ext, word_ext};
ghost use Rattle.keys.specs.ListingPackedLemmas.{past, past_two};
ghost use Rattle.keys.specs.declared.rows.CaseRow.TheVariants.{Opened, Waiting, Closed};

use crate::bytes::{low_at, write_low};
use crate::rows::{CaseRow, ListingRow, Word32};

// A row that packs into 16 bytes, and comes back from them.
pub trait Packed: Copy {
    ghost packed: { Self → List ℕ };

    ghost unpacked: { List ℕ → Self };

    // Writes the row into 16 lent bytes. Another number of bytes is left as it was, and the answer is false.
    // Not a `Result`: there is one way to fail, so an error would say no more.
    fn pack(&self, out: &mut [u8]) -> bool
        ensures answer { result ≡ (length out.old == 16) }
        ensures after { out.new ≡ laid (packed self.now) out.old };

    // The row that bytes hold; bytes that are missing count as zero.
    fn unpack(bytes: &[u8]) -> Self
        ensures { result ≡ unpacked bytes.now };

    ghost long: { (r : Self) → length (packed r) ≡ 16 };

    ghost back: { (r : Self) → unpacked (packed r) ≡ r };
}

impl Packed for ListingRow {
    ghost packed = { packed_listing };

    ghost unpacked = { unpacked_listing };

    ghost long = { unfold low_bytes in λ r. refl };

    ghost back = { λ r.
        listing_ext _ r (low_front 4 r.price (low_bytes 4 r.seller ++ (low_bytes 2 r.seats ++ low_bytes 6 0)) r.fits.0)
        (ap (low 4) (past 4 r.price (low_bytes 4 r.seller ++ (low_bytes 2 r.seats ++ low_bytes 6 0))) ∙ low_front 4 r.seller (low_bytes 2 r.seats ++ low_bytes 6 0) r.fits.1)
        (ap (low 2) (past_two 4 4 r.price r.seller (low_bytes 2 r.seats ++ low_bytes 6 0)) ∙ low_front 2 r.seats (low_bytes 6 0) r.fits.2) };

    fn pack(&self, out: &mut [u8]) -> bool {
        if out.len() != 16 {
            return false;
        }
        write_low(&mut out[0..4], u64::from(self.price));
        write_low(&mut out[4..8], u64::from(self.seller));
        write_low(&mut out[8..10], u64::from(self.seats));
        write_low(&mut out[10..16], 0);
        true
    }

    fn unpack(bytes: &[u8]) -> Self {
        let price = low_at(bytes, 0, 4) as u32;
        let seller = low_at(bytes, 4, 4) as u32;
        let seats = low_at(bytes, 8, 2) as u16;
        ListingRow {
            price,
            seller,
            seats,
        }
    }
}

// The kind byte of a case row and the number beside it.
// Not by discriminants: they would give the kind alone, and the number would need a match of its own.
fn case_parts(row: &CaseRow) -> (u8, u32)
    ensures { result ≡ case_parts row.now }
{
    match row {
        CaseRow::Opened => (0, 0),
        CaseRow::Waiting(day) => (1, day.value),
        CaseRow::Closed(outcome) => (2, outcome.value),
    }
}

// The number after the kind byte.
fn read_word(bytes: &[u8]) -> Word32
    ensures { result ≡ word (drop 1 bytes.now) }
{
    let value = low_at(bytes, 1, 4) as u32;
    Word32 { value }
}

impl Packed for CaseRow {
    ghost packed = { packed_case };

    ghost unpacked = { unpacked_case };

    ghost long = { unfold low_bytes in elim [ Opened ↦ refl | Waiting d ↦ refl | Closed d ↦ refl ] };

    ghost back = { unfold low_bytes in
        elim [
          | Opened ↦ refl
          | Waiting d ↦ ap Waiting (word_ext _ d (low_front 4 d.value (low_bytes 11 0) d.fits))
          | Closed d ↦ ap Closed (word_ext _ d (low_front 4 d.value (low_bytes 11 0) d.fits))
        ] };

    fn pack(&self, out: &mut [u8]) -> bool {
        if out.len() != 16 {
            return false;
        }
        let (kind, number) = case_parts(self);
        out[0] = kind;
        write_low(&mut out[1..5], u64::from(number));
        write_low(&mut out[5..16], 0);
        true
    }

    fn unpack(bytes: &[u8]) -> Self {
        // Not by `TryFrom`: other kind bytes read as opened, so its error could not come about.
        match bytes.first() {
            Some(1) => CaseRow::Waiting(read_word(bytes)),
            Some(2) => CaseRow::Closed(read_word(bytes)),
            _ => CaseRow::Opened,
        }
    }
}
