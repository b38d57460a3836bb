ghost use Rattle.std.specs.Prelude.{◌≡◌, ℕ, true, [], is_ok, Some, Ok};
ghost use Rattle.cold.specs.Cold.{put_answer, put_after, own};
ghost use Rattle.loading.specs.Loading.{row_behind};

use cold::store::ColdStore;
use filter::Filter;
use keys::key::Key;
use keys::listing::Listing;
use keys::rows::ListingRow;
use records::record::Record;

// Puts a record into a store with a tag, and tells whether the put was served.
pub fn load<C: ColdStore<Listing, ListingRow>>(store: &mut C, tag: u32, read: &Record) -> bool
    ensures answer { result
        ≡ is_ok (put_answer (C.ColdStore.limit store.old) (C.ColdStore.entries store.old) read.now.key.id tag) }
    ensures after { C.ColdStore.entries store.new
        ≡ put_after (C.ColdStore.limit store.old) (C.ColdStore.entries store.old) read.now.key.id tag
        read.now.row }
    ensures limit { C.ColdStore.limit store.new ≡ C.ColdStore.limit store.old }
{
    store.put(read.key, tag, read.row).is_ok()
}

// A cold store, which is asked only where its filter admits the key.
#[derive(Drop)]
pub struct Behind<'a, C, F> {
    pub store: &'a C,
    pub filter: &'a F,
}

impl<C: ColdStore<Listing, ListingRow>, F: Filter> Behind<'_, C, F> {
    // The row of a key's first entry.
    pub fn find_row(&self, key: &Listing) -> Option<ListingRow>
        ensures { result
            ≡ row_behind (F.Filter.admitted self.now.filter.now key.now.id) (C.ColdStore.entries self.now.store.now)
            key.now.id }
    {
        if !self.filter.admits(key.number()) {
            return None;
        }
        self.store.find(key, 0).map(|found| found.row)
    }
}

// Loads a record, adds its number to the filter, and finds it again. Whatever the filter is, a key that had no entry is found
// again as the very row of the record, if the put was served.
pub fn load_and_find<C: ColdStore<Listing, ListingRow>, F: Filter>(
    store: &mut C,
    filter: &mut F,
    tag: u32,
    read: &Record,
) -> Option<ListingRow>
    ensures value { result ≡ row_behind true (C.ColdStore.entries store.new) read.now.key.id }
    ensures after { C.ColdStore.entries store.new
        ≡ put_after (C.ColdStore.limit store.old) (C.ColdStore.entries store.old) read.now.key.id tag
        read.now.row }
    ensures limit { C.ColdStore.limit store.new ≡ C.ColdStore.limit store.old }
    ensures has { F.Filter.admitted filter.new read.now.key.id ≡ true }
    ensures keeps { (h : ℕ) → F.Filter.admitted filter.old h ≡ true → F.Filter.admitted filter.new h ≡ true }
    ensures again { own read.now.key.id 0 (C.ColdStore.entries store.old) ≡ []
        → put_answer (C.ColdStore.limit store.old) (C.ColdStore.entries store.old) read.now.key.id tag ≡ Ok tt
        → result ≡ Some read.now.row }
{
    let _ = load(store, tag, read);
    filter.add(read.key.number());
    Behind { store, filter }.find_row(&read.key)
}
