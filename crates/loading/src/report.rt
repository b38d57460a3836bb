ghost use Rattle.std.specs.Prelude.{◌≡◌, ℕ, ◌-◌, ◌^◌, ◌<◌, ◌≤◌, Bool, true, ◌++◌, length, IfOk, None, OnOk};
ghost use Rattle.text.specs.Numbers.{Written};
ghost use Rattle.text.specs.Parts.{lines};
ghost use Rattle.cold.specs.Lists.{all};
ghost use Rattle.records.specs.Entries.{entries};
ghost use Rattle.records.specs.Writing.{entries_text};
ghost use Rattle.loading.specs.Loading.{loaded};
ghost use Rattle.loading.specs.Report.{good, goods, next_number, next_text, loads_text, report_of, answer_of};

use crate::every::{add_all, load_all, push_finds};
use crate::finding::Behind;
use crate::writing::{push_absent, push_loaded};
use blocks::store::BlockStore;
use cold::sorted::SortedStore;
use cold::store::ColdStore;
use filter::Filter;
use filter::band::Band;
use filter::bloom::Bloom;
use keys::listing::Listing;
use keys::rows::ListingRow;
use records::entries::Entries;
use records::record::{Entry, Record};
use records::report::LIMIT;
use records::writing::{push_entry, push_summary};
use std::alloc::{AllocError, Global};

// Keeps the record of an entry, if it is one.
fn keep(records: &mut Vec<Record>, entry: Entry) -> Result<(), AllocError>
    ensures { OnOk result (records.new.items ≡ records.old.items ++ good entry) }
{
    if let Ok(read) = entry {
        records.push(read)?;
    }
    Ok(())
}

// Appends a line for each line of an archive's text, and gives the records in order.
fn read_all(heap: Global, out: &mut Vec<u8>, input: &[u8]) -> Result<Vec<Record>, AllocError>
    ensures { IfOk result (λ v. (v.items ≡ goods (entries None (lines input.now)))
        × (out.new.items ≡ out.old.items ++ entries_text (entries None (lines input.now)))) }
{
    let mut records = Vec::new(heap);
    for entry in Entries::of(input) {
        push_entry(out, &entry)?;
        keep(&mut records, entry)?;
    }
    Ok(records)
}

// The number after that of the last record: 0 where there is no record, and none after 2^64 - 1. By `map_or` it was tried, and its proof was
// left open.
fn next_number(records: &[Record]) -> Option<u64>
    ensures { result ≡ next_number records.now }
{
    match records.last() {
        Some(read) => read.key.id.checked_add(1),
        None => Some(0),
    }
}

// Out, records and the two stores go together in the steps of `load_both` alone.

// Looks for a key that was not loaded, if there is a number after the last one, and appends a line.
fn push_next<
    A: ColdStore<Listing, ListingRow>,
    F: Filter,
    B: ColdStore<Listing, ListingRow>,
    G: Filter,
>(
    out: &mut Vec<u8>,
    records: &[Record],
    sorted: &Behind<'_, A, F>,
    blocks: &Behind<'_, B, G>,
) -> Result<(), AllocError>
    ensures { OnOk result (out.new.items
        ≡ out.old.items
        ++ next_text (F.Filter.admitted sorted.now.filter.now) (A.ColdStore.entries sorted.now.store.now)
        (G.Filter.admitted blocks.now.filter.now) (B.ColdStore.entries blocks.now.store.now) (next_number records.now)) }
{
    let Some(number) = next_number(records) else {
        return Ok(());
    };
    let key = Listing { id: number };
    let in_sorted = sorted.find_row(&key);
    let in_blocks = blocks.find_row(&key);
    push_absent(
        out,
        number,
        sorted.filter.admits(number),
        blocks.filter.admits(number),
        in_sorted,
        in_blocks,
    )?;
    Ok(())
}

// Loads the records into two stores behind two filters, finds them again, and appends what came of it.
fn load_both<
    A: ColdStore<Listing, ListingRow>,
    F: Filter,
    B: ColdStore<Listing, ListingRow>,
    G: Filter,
>(
    out: &mut Vec<u8>,
    records: &[Record],
    sorted: &mut A,
    bloom: &mut F,
    blocks: &mut B,
    band: &mut G,
) -> Result<(), AllocError>
    requires few { length records.now < 2 ^ 32 - 1 }
    ensures { OnOk result (
        (out.new.items
        ≡ out.old.items
        ++ loads_text (F.Filter.admitted bloom.new) (G.Filter.admitted band.new)
        (A.ColdStore.limit sorted.old) (A.ColdStore.entries sorted.old)
        (B.ColdStore.limit blocks.old) (B.ColdStore.entries blocks.old) records.now)
        × (all (λ r. F.Filter.admitted bloom.new r.key.id) records.now ≡ true)
        × (all (λ r. G.Filter.admitted band.new r.key.id) records.now ≡ true)
        × (A.ColdStore.entries sorted.new
        ≡ loaded (A.ColdStore.limit sorted.old) (A.ColdStore.entries sorted.old) 1 records.now)
        × (B.ColdStore.entries blocks.new
        ≡ loaded (B.ColdStore.limit blocks.old) (B.ColdStore.entries blocks.old) 1 records.now)) }
{
    add_all(bloom, records);
    add_all(band, records);
    let in_sorted = load_all(sorted, records);
    let in_blocks = load_all(blocks, records);
    let sorted = Behind {
        store: sorted,
        filter: bloom,
    };
    let blocks = Behind {
        store: blocks,
        filter: band,
    };
    push_finds(out, records, &sorted, &blocks)?;
    push_loaded(out, in_sorted, in_blocks)?;
    push_next(out, records, &sorted, &blocks)?;
    Ok(())
}

// How many entries each store may have. A record's line has at least 11 bytes, so fewer records than that are in an archive's text.
const PLACES: usize = 8192;

// All that is written for an archive's text of at most 65,536 bytes.
fn report(heap: Global, input: &[u8]) -> Result<Vec<u8>, AllocError>
    requires { length input.now ≤ 65536 }
    ensures { IfOk result (λ v. ((bloom : ℕ → Bool)
        × ((band : ℕ → Bool) × (v.items ≡ report_of bloom band (entries None (lines input.now)))))) }
{
    // only memory can be wanting: no store refuses that limit
    let Ok(mut sorted) = SortedStore::<Listing, ListingRow>::new(heap, PLACES) else {
        return Err(AllocError);
    };
    let Ok(mut blocks) = BlockStore::<Listing, ListingRow>::new(heap, PLACES) else {
        return Err(AllocError);
    };
    let mut bloom = Bloom::new();
    let mut band = Band::new();
    let mut out = Vec::new(heap);
    let records = read_all(heap, &mut out, input)?;
    load_both(
        &mut out,
        &records,
        &mut sorted,
        &mut bloom,
        &mut blocks,
        &mut band,
    )?;
    push_summary(&mut out, records.len() as u64)?;
    Ok(out)
}

// All that is written for an archive's text, which may be too long to be served. It is fixed but for two sets of numbers, `bloom` and
// `band`, that the filters admit; and these tell only in the line of the key that was not loaded. Each number in it is written so that
// it is read back as that number.
#[tactic(auto, using(text::proofs::Values::written))]
pub fn answer(heap: Global, input: &[u8]) -> Result<Vec<u8>, AllocError>
    ensures text { IfOk result (λ v. ((bloom : ℕ → Bool)
        × ((band : ℕ → Bool) × (v.items ≡ answer_of bloom band input.now)))) }
    ensures numbers { Written }
{
    if input.len() > LIMIT {
        return Vec::from_slice(heap, b"bad=size\n");
    }
    report(heap, input)
}
