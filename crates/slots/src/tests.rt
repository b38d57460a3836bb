use crate::change::{edit_all, edit_at, edit_first};
use crate::count::{append, retain, take_out};
use crate::search::{any_of, find_first};
use std::test::Fail;

#[test]
fn finds_within_the_count(rt: HostRuntime) -> Result<(), Fail> {
    let xs = [8u32, 5, 3, 1];
    let h = find_first(&xs, 3, |x| *x < 5).ok_or("none is below 5")?;
    assert_eq!(rt; h.at, 2);
    assert_eq!(rt; h.it, 3);
    assert!(rt; !any_of(&xs, 3, |x| *x < 3));
    assert!(rt; any_of(&xs, 4, |x| *x < 3));
    Ok(())
}

#[test]
fn empty_holds_nothing(rt: HostRuntime) {
    let mut xs = [8u32, 5];
    assert!(rt; find_first(&xs, 0, |x| *x < 9).is_none());
    assert_eq!(rt; retain(&mut xs, 0, |x| *x < 9), 0);
    assert_eq!(rt; take_out(&mut xs, 0, 0), 0);
    edit_all(&mut xs, 0, |x| *x /= 2);
    assert_eq!(rt; xs, [8, 5]);
    assert_eq!(rt; append(&mut xs, 0, 7), 1);
    assert_eq!(rt; xs, [7, 5]);
}

#[test]
fn full_takes_no_more(rt: HostRuntime) {
    let mut xs = [8u32, 5];
    assert_eq!(rt; append(&mut xs, 2, 7), 2);
    assert_eq!(rt; xs, [8, 5]);
}

#[test]
fn count_beyond_the_slice_means_all(rt: HostRuntime) {
    let mut xs = [8u32, 5, 3, 6];
    assert!(rt; any_of(&xs, 9, |x| *x < 4));
    assert_eq!(rt; append(&mut xs, 9, 7), 9);
    edit_all(&mut xs, 9, |x| *x /= 2);
    assert_eq!(rt; xs, [4, 2, 1, 3]);
    assert_eq!(rt; take_out(&mut xs, 9, 4), 4);
    assert_eq!(rt; take_out(&mut xs, 9, 1), 3);
    assert_eq!(rt; xs[0], 4);
    assert_eq!(rt; xs[1], 1);
    assert_eq!(rt; xs[2], 3);
}

#[test]
fn keeps_the_order(rt: HostRuntime) {
    let mut xs = [8u32, 2, 9, 1, 3];
    assert_eq!(rt; retain(&mut xs, 4, |x| *x < 4), 2);
    assert_eq!(rt; xs[0], 2);
    assert_eq!(rt; xs[1], 1);
}

#[test]
fn edits_one_place(rt: HostRuntime) {
    let mut xs = [8u32, 2];
    edit_at(&mut xs, 1, |x| *x /= 2);
    edit_at(&mut xs, 2, |x| *x /= 2);
    assert_eq!(rt; xs, [8, 1]);
}

#[test]
fn edits_the_first(rt: HostRuntime) {
    let mut xs = [8u32, 2, 3];
    assert!(rt; edit_first(&mut xs, 3, |x| *x < 4, |x| *x /= 2));
    assert_eq!(rt; xs, [8, 1, 3]);
    assert!(rt; !edit_first(&mut xs, 1, |x| *x < 4, |x| *x /= 2));
    assert_eq!(rt; xs, [8, 1, 3]);
}
