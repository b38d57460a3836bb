use crate::turns::{Ask, finds_next, full_and_empty, is_empty, scripted, swept};
use blocks::store::BlockStore;
use cold::sorted::SortedStore;
use cold::store::NewStoreError;
use keys::listing::Listing;
use keys::rows::ListingRow;
use std::test::Fail;

type Sorted = SortedStore<Listing, ListingRow>;

type Blocks = BlockStore<Listing, ListingRow>;

#[test]
fn makes_agree(rt: HostRuntime) -> Result<(), Fail> {
    let mut sorted = Sorted::new(rt.alloc(), 8)?;
    let mut blocks = Blocks::new(rt.alloc(), 8)?;
    assert!(rt; scripted(&mut sorted, &mut blocks, 400));
    for ask in [Ask::Put, Ask::Find, Ask::Remove] {
        assert!(rt; swept(&mut sorted, &mut blocks, ask));
    }
    assert!(rt; is_empty(&sorted));
    assert!(rt; is_empty(&blocks));
    Ok(())
}

#[test]
fn sorted_full_and_empty(rt: HostRuntime) -> Result<(), Fail> {
    let mut sorted = Sorted::new(rt.alloc(), 8)?;
    assert!(rt; full_and_empty(&mut sorted));
    assert!(rt; finds_next(&mut sorted));
    Ok(())
}

#[test]
fn blocks_full_and_empty(rt: HostRuntime) -> Result<(), Fail> {
    let mut blocks = Blocks::new(rt.alloc(), 8)?;
    assert!(rt; full_and_empty(&mut blocks));
    assert!(rt; finds_next(&mut blocks));
    Ok(())
}

#[test]
fn limit_refused(rt: HostRuntime) {
    assert!(rt; matches!(Sorted::new(rt.alloc(), 1048577), Err(NewStoreError::Limit)));
    assert!(rt; matches!(Blocks::new(rt.alloc(), 1048577), Err(NewStoreError::Limit)));
}

#[test]
fn limit_taken(rt: HostRuntime) {
    assert!(rt; Sorted::new(rt.alloc(), 1048576).is_ok());
    assert!(rt; Blocks::new(rt.alloc(), 1048576).is_ok());
}
