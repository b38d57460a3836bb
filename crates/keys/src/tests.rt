use crate::case_key::CaseKey;
use crate::key::{Key, OrderedKey};
use crate::listing::Listing;
use crate::packing::Packed;
use crate::rows::{CaseRow, ListingRow, Word32};

#[test]
fn listing_bytes(rt: HostRuntime) {
    let mut out = [9u8; 16];
    let row = ListingRow {
        price: 0x01020304,
        seller: 0xa0b0c0d0,
        seats: 0x1122,
    };
    assert!(rt; row.pack(&mut out));
    assert_eq!(rt;
        out,
        [
            4, 3, 2, 1, 0xd0, 0xc0, 0xb0, 0xa0, 0x22, 0x11, 0, 0, 0, 0, 0, 0,
        ]
    );
    assert_eq!(rt; ListingRow::unpack(&out), row);
}

#[test]
fn listing_largest(rt: HostRuntime) {
    let mut out = [9u8; 16];
    let row = ListingRow {
        price: 4294967295,
        seller: 4294967295,
        seats: 65535,
    };
    assert!(rt; row.pack(&mut out));
    assert_eq!(rt;
        out,
        [
            255, 255, 255, 255, 255, 255, 255, 255, 255, 255, 0, 0, 0, 0, 0, 0,
        ]
    );
}

#[test]
fn other_lengths_are_left(rt: HostRuntime) {
    let mut short = [7u8; 15];
    let mut long = [7u8; 17];
    let row = ListingRow {
        price: 1,
        seller: 2,
        seats: 3,
    };
    assert!(rt; !row.pack(&mut short));
    assert!(rt; !CaseRow::Opened.pack(&mut long));
    assert_eq!(rt; short, [7; 15]);
    assert_eq!(rt; long, [7; 17]);
}

#[test]
fn case_bytes(rt: HostRuntime) {
    let mut out = [9u8; 16];
    assert!(rt; CaseRow::Opened.pack(&mut out));
    assert_eq!(rt; out, [0; 16]);
    assert!(rt; CaseRow::Waiting(Word32 { value: 0x01020304 }).pack(&mut out));
    assert_eq!(rt; out, [1, 4, 3, 2, 1, 0, 0, 0, 0, 0, 0, 0, 0, 0, 0, 0]);
    assert!(rt; CaseRow::Closed(Word32 { value: 4294967295 }).pack(&mut out));
    assert_eq!(rt;
        out,
        [2, 255, 255, 255, 255, 0, 0, 0, 0, 0, 0, 0, 0, 0, 0, 0]
    );
}

#[test]
fn case_kinds(rt: HostRuntime) {
    assert_eq!(rt;
        CaseRow::unpack(&[0, 5, 0, 0, 0, 0, 0, 0, 0, 0, 0, 0, 0, 0, 0, 0]),
        CaseRow::Opened
    );
    assert_eq!(rt;
        CaseRow::unpack(&[1, 5, 1, 0, 0, 0, 0, 0, 0, 0, 0, 0, 0, 0, 0, 0]),
        CaseRow::Waiting(Word32 { value: 261 })
    );
    assert_eq!(rt;
        CaseRow::unpack(&[2, 255, 255, 255, 255, 9, 9, 9, 9, 9, 9, 9, 9, 9, 9, 9]),
        CaseRow::Closed(Word32 { value: 4294967295 })
    );
    assert_eq!(rt;
        CaseRow::unpack(&[3, 5, 0, 0, 0, 0, 0, 0, 0, 0, 0, 0, 0, 0, 0, 0]),
        CaseRow::Opened
    );
    assert_eq!(rt;
        CaseRow::unpack(&[255, 5, 0, 0, 0, 0, 0, 0, 0, 0, 0, 0, 0, 0, 0, 0]),
        CaseRow::Opened
    );
}

#[test]
fn case_numbers(rt: HostRuntime) {
    assert_eq!(rt;
        CaseKey {
            seller: 0,
            serial: 0,
        }
        .number(),
        0
    );
    assert_eq!(rt;
        CaseKey {
            seller: 0,
            serial: 65535,
        }
        .number(),
        65535
    );
    assert_eq!(rt;
        CaseKey {
            seller: 1,
            serial: 0,
        }
        .number(),
        65536
    );
    assert_eq!(rt;
        CaseKey {
            seller: 4294967295,
            serial: 65535,
        }
        .number(),
        281474976710655
    );
}

#[test]
fn order(rt: HostRuntime) {
    let low = CaseKey {
        seller: 1,
        serial: 65535,
    };
    let high = CaseKey {
        seller: 2,
        serial: 0,
    };
    assert!(rt; low.is_below(&high));
    assert!(rt; !high.is_below(&low));
    assert!(rt; !low.is_below(&low));
    assert!(rt; Listing { id: 4 }.is_below(&Listing { id: 5 }));
    assert!(rt; !Listing { id: 5 }.is_below(&Listing { id: 5 }));
}
