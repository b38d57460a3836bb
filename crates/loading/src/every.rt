ghost use Rattle.std.specs.Prelude.{◌≡◌, ℕ, ◌-◌, ◌^◌, ◌<◌, true, ◌++◌, length, OnOk};
ghost use Rattle.cold.specs.Lists.{all};
ghost use Rattle.loading.specs.Loading.{loaded, served};
ghost use Rattle.loading.specs.Report.{finds_text};

use crate::finding::{Behind, load};
use crate::writing::push_find;
use cold::store::ColdStore;
use filter::Filter;
use keys::key::Key;
use keys::listing::Listing;
use keys::rows::ListingRow;
use records::record::Record;
use std::alloc::AllocError;

// Adds the number of each record to a filter, which then admits them all, and still what it admitted before.
pub fn add_all<F: Filter>(filter: &mut F, records: &[Record])
    ensures has { all (λ r. F.Filter.admitted filter.new r.key.id) records.now ≡ true }
    ensures keeps { (h : ℕ) → F.Filter.admitted filter.old h ≡ true → F.Filter.admitted filter.new h ≡ true }
{
    for read in records {
        filter.add(read.key.number());
    }
}

// Puts the records into a store, with tags from 1 on, and tells how many puts were served.
pub(crate) fn load_all<C: ColdStore<Listing, ListingRow>>(store: &mut C, records: &[Record]) -> u64
    requires few { length records.now < 2 ^ 32 - 1 }
    ensures count { result
        ≡ served (C.ColdStore.limit store.old) (C.ColdStore.entries store.old) 1 records.now }
    ensures after { C.ColdStore.entries store.new
        ≡ loaded (C.ColdStore.limit store.old) (C.ColdStore.entries store.old) 1 records.now }
    ensures limit { C.ColdStore.limit store.new ≡ C.ColdStore.limit store.old }
{
    let mut count = 0;
    for (i, read) in records.iter().enumerate() {
        let tag = i as u32 + 1;
        count += u64::from(load(store, tag, read));
    }
    count
}

// Finds each record's key again in two stores behind their filters, and appends a line for each.
pub fn push_finds<
    A: ColdStore<Listing, ListingRow>,
    F: Filter,
    B: ColdStore<Listing, ListingRow>,
    G: Filter,
>(
    out: &mut Vec<u8>,
    records: &[Record],
    sorted: &Behind<'_, A, F>,
    blocks: &Behind<'_, B, G>,
) -> Result<(), AllocError>
    ensures { OnOk result (out.new.items
        ≡ out.old.items
        ++ finds_text (F.Filter.admitted sorted.now.filter.now) (A.ColdStore.entries sorted.now.store.now)
        (G.Filter.admitted blocks.now.filter.now) (B.ColdStore.entries blocks.now.store.now) records.now) }
{
    for read in records {
        let in_sorted = sorted.find_row(&read.key);
        let in_blocks = blocks.find_row(&read.key);
        push_find(out, read.key.id, in_sorted, in_blocks)?;
    }
    Ok(())
}
