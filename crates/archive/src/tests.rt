use loading::report::answer;
use records::report::LIMIT;
use records::writing::push_hex;
use std::test::Fail;

// With nothing loaded the key that is looked for is 0.
#[test]
fn nothing(rt: HostRuntime) -> Result<(), Fail> {
    let out = answer(rt.alloc(), b"")?;
    assert!(rt;
        out.as_slice()
            == b"loaded sorted=0 blocks=0\n\
absent k=0 bloom=0 band=0 sorted=none blocks=none\n\
records=0\n"
                .as_slice()
    );
    Ok(())
}

// The three places of 8,193 in the bits are taken by the others, so that one filter admits a key that no store has.
#[test]
fn admitted_but_absent(rt: HostRuntime) -> Result<(), Fail> {
    let out = answer(rt.alloc(), b"k=3 v=1,2,3\nk=4097 v=4,5,6\nk=8192 v=7,8,9\n")?;
    assert!(rt;
        out.as_slice()
            == b"k=3 packed=01000000030000000200000000000000 v=1,2,3\n\
k=4097 packed=04000000060000000500000000000000 v=4,5,6\n\
k=8192 packed=07000000090000000800000000000000 v=7,8,9\n\
found k=3 sorted=1,2,3 blocks=1,2,3\n\
found k=4097 sorted=4,5,6 blocks=4,5,6\n\
found k=8192 sorted=7,8,9 blocks=7,8,9\n\
loaded sorted=3 blocks=3\n\
absent k=8193 bloom=1 band=0 sorted=none blocks=none\n\
records=3\n"
                .as_slice()
    );
    Ok(())
}

// A byte more than is served.
#[test]
fn too_long(rt: HostRuntime) -> Result<(), Fail> {
    let input = vec![in rt.alloc(); b'\n'; LIMIT + 1]?;
    let out = answer(rt.alloc(), &input)?;
    assert!(rt; out.as_slice() == b"bad=size\n".as_slice());
    Ok(())
}

// Two digits for each byte, the high one first.
#[test]
fn hexadecimal(rt: HostRuntime) -> Result<(), Fail> {
    let mut out = Vec::new(rt.alloc());
    push_hex(&mut out, &[0, 9, 10, 171, 255])?;
    assert!(rt; out.as_slice() == b"00090aabff".as_slice());
    Ok(())
}
