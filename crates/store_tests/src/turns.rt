ghost use Rattle.std.specs.Prelude.{◌≡◌, true};
ghost use Rattle.cold.specs.Cold.{in_order};

use cold::store::{ColdRefusal, ColdStore, Found};
use keys::listing::Listing;
use keys::rows::ListingRow;

// What one turn of a script asks of a store.
#[derive(Clone, Copy, Debug, PartialEq, Eq)]
pub enum Ask {
    Put,
    Find,
    Remove,
}

pub fn row_of(tag: u32) -> ListingRow {
    ListingRow {
        price: tag,
        seller: 7,
        seats: 2,
    }
}

// Asks both stores the same, and tells whether they answer alike.
pub fn alike<A: ColdStore<Listing, ListingRow>, B: ColdStore<Listing, ListingRow>>(
    a: &mut A,
    b: &mut B,
    ask: Ask,
    id: u64,
    tag: u32,
) -> bool
    ensures first { in_order (A.ColdStore.entries a.new) ≡ true }
    ensures second { in_order (B.ColdStore.entries b.new) ≡ true }
{
    let key = Listing { id };
    match ask {
        Ask::Put => a.put(key, tag, row_of(tag)) == b.put(key, tag, row_of(tag)),
        Ask::Find => a.find(&key, tag) == b.find(&key, tag),
        Ask::Remove => a.remove(&key, tag) == b.remove(&key, tag),
    }
}

fn ask_of(n: u64) -> Ask {
    match n % 4 {
        0 => Ask::Find,
        1 => Ask::Remove,
        _ => Ask::Put,
    }
}

// A script of five keys with four tags each, from a generator of numbers.
pub fn scripted<A: ColdStore<Listing, ListingRow>, B: ColdStore<Listing, ListingRow>>(
    a: &mut A,
    b: &mut B,
    turns: u32,
) -> bool
    ensures first { in_order (A.ColdStore.entries a.new) ≡ true }
    ensures second { in_order (B.ColdStore.entries b.new) ≡ true }
{
    let mut seed = 1u64;
    for _ in 0..turns {
        seed = seed
            .wrapping_mul(6364136223846793005)
            .wrapping_add(1442695040888963407);
        if !alike(
            a,
            b,
            ask_of(seed / 4294967296),
            seed / 68719476736 % 5,
            (seed / 1099511627776 % 4) as u32,
        ) {
            return false;
        }
    }
    true
}

// The same ask of each of the five keys with each of the four tags.
pub fn swept<A: ColdStore<Listing, ListingRow>, B: ColdStore<Listing, ListingRow>>(
    a: &mut A,
    b: &mut B,
    ask: Ask,
) -> bool
    ensures first { in_order (A.ColdStore.entries a.new) ≡ true }
    ensures second { in_order (B.ColdStore.entries b.new) ≡ true }
{
    (0..5).all(|id| (0..4).all(|tag| alike(a, b, ask, id, tag)))
}

// Puts the tags from 0 on until a put is refused, and tells how many went in.
pub fn filled<C: ColdStore<Listing, ListingRow>>(c: &mut C, most: u32) -> u32
    ensures { in_order (C.ColdStore.entries c.new) ≡ true }
{
    (0..most)
        .find(|tag| c.put(Listing { id: 3 }, *tag, row_of(*tag)).is_err())
        .unwrap_or(most)
}

// Removes the tags from 0 on until one is not there, and tells how many went out.
pub fn emptied<C: ColdStore<Listing, ListingRow>>(c: &mut C, most: u32) -> u32
    ensures { in_order (C.ColdStore.entries c.new) ≡ true }
{
    (0..most)
        .find(|tag| !c.remove(&Listing { id: 3 }, *tag))
        .unwrap_or(most)
}

// Whether no key below 5 has an entry.
pub fn is_empty<C: ColdStore<Listing, ListingRow>>(c: &C) -> bool {
    (0..5).all(|id| c.find(&Listing { id }, 0).is_none())
}

// Fills a store of eight places, asks at its limit, and empties it again.
pub fn full_and_empty<C: ColdStore<Listing, ListingRow>>(c: &mut C) -> bool
    ensures { in_order (C.ColdStore.entries c.new) ≡ true }
{
    is_empty(c)
        && filled(c, 20) == 8
        && c.put(Listing { id: 4 }, 0, row_of(0)) == Err(ColdRefusal::Full(8))
        && c.put(Listing { id: 3 }, 7, row_of(7)) == Err(ColdRefusal::There)
        && emptied(c, 20) == 8
        && is_empty(c)
}

// With the tags 2 and 5 of a key in it, a find from 0 and from 2 answers 2, from 3 and from 5 answers 5, and from 6 nothing.
pub fn finds_next<C: ColdStore<Listing, ListingRow>>(c: &mut C) -> bool {
    let key = Listing { id: 9 };
    let _ = c.put(key, 5, row_of(5));
    let _ = c.put(key, 2, row_of(2));
    let _ = c.put(Listing { id: 10 }, 7, row_of(7));
    [(0, 2), (2, 2), (3, 5), (5, 5)].iter().all(|(from, tag)| {
        c.find(&key, *from)
            == Some(Found {
                tag: *tag,
                row: row_of(*tag),
            })
    }) && c.find(&key, 6).is_none()
}
