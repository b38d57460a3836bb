use filter::Filter;
use filter::band::Band;
use filter::bloom::{Bloom, ThreePlaces, places};

#[test]
fn bloom_places(rt: HostRuntime) {
    assert_eq!(rt;
        places(4097),
        ThreePlaces {
            first: 1,
            second: 1,
            third: 2,
        }
    );
    assert_eq!(rt;
        places(5),
        ThreePlaces {
            first: 5,
            second: 0,
            third: 5,
        }
    );
    assert_eq!(rt;
        places(u64::MAX),
        ThreePlaces {
            first: 4095,
            second: 4095,
            third: 4094,
        }
    );
}

#[test]
fn bloom_admits(rt: HostRuntime) {
    let mut f = Bloom::new();
    assert!(rt; !f.admits(0));
    assert!(rt; !f.admits(4097));
    f.add(4097);
    assert!(rt; f.admits(4097));
    assert!(rt; !f.admits(5));
    f.add(5);
    assert!(rt; f.admits(5) && f.admits(4097));
    assert!(rt; !f.admits(6));
}

// The places of 8,193 are 1, 2 and 3: adding 4,097 (1, 1, 2) and 3 (3, 0, 3) admits it too.
#[test]
fn bloom_extra(rt: HostRuntime) {
    let mut f = Bloom::new();
    f.add(4097);
    assert!(rt; !f.admits(8193));
    f.add(3);
    assert!(rt; f.admits(8193));
}

#[test]
fn band_ends(rt: HostRuntime) {
    let mut f = Band::new();
    assert!(rt; !f.admits(70) && !f.admits(0) && !f.admits(u64::MAX));
    f.add(198);
    assert!(rt; f.admits(198) && !f.admits(134));
    f.add(70);
    assert!(rt; f.admits(70) && f.admits(134) && f.admits(198));
    assert!(rt; !f.admits(6) && !f.admits(262) && !f.admits(71));
}
