use crate::lines::Lines;
use crate::numbers::{decimal, push_decimal};
use crate::parts::Parts;
use crate::word::Word;
use crate::words::Words;
use std::alloc::{AllocError, Global};
use std::test::Fail;

// Reads each part of a line as a number of at most `limit`, and writes it again; a dash where it is none.
fn reread(heap: Global, line: &[u8], limit: u64) -> Result<Vec<u8>, AllocError> {
    let mut out = Vec::new(heap);
    for part in Parts::of(line, b' ') {
        match decimal(part, limit) {
            Some(n) => push_decimal(&mut out, n)?,
            None => out.push(b'-')?,
        }
        out.push(b' ')?;
    }
    Ok(out)
}

// The largest number of each width is read, and the next one is not; no digit, a sign and a letter are refused.
#[test]
fn limits(rt: HostRuntime) -> Result<(), Fail> {
    let short = reread(
        rt.alloc(),
        b"65535 65536 0 000000000000000000000007  +1 -1 1a",
        65535,
    )?;
    assert!(rt; short.as_slice() == b"65535 - 0 7 - - - - ".as_slice());
    let word = reread(rt.alloc(), b"4294967295 4294967296", 4294967295)?;
    assert!(rt; word.as_slice() == b"4294967295 - ".as_slice());
    let long = reread(
        rt.alloc(),
        b"18446744073709551615 18446744073709551616",
        u64::MAX,
    )?;
    assert!(rt; long.as_slice() == b"18446744073709551615 - ".as_slice());
    Ok(())
}

// A letter for the kind of a word, and its bytes.
fn kind<'a>(word: Word<'a>) -> (u8, &'a [u8]) {
    match word {
        Word::Call(v) => (b'c', v),
        Word::Session(v) => (b's', v),
        Word::Mode(v) => (b'm', v),
        Word::Key(v) => (b'k', v),
        Word::Row(v) => (b'v', v),
        Word::Other(w) => (b'o', w),
    }
}

// Writes each word of a line as its letter, its bytes and a bar.
fn kinds(heap: Global, line: &[u8]) -> Result<Vec<u8>, AllocError> {
    let mut out = Vec::new(heap);
    for word in Words::of(line) {
        let (letter, bytes) = kind(word);
        out.push(letter)?;
        out.extend_from_slice(bytes)?;
        out.push(b'|')?;
    }
    Ok(out)
}

// Two spaces have an empty word between them, and a carriage return and a tab are bytes of a word.
#[test]
fn spaces(rt: HostRuntime) -> Result<(), Fail> {
    let told = kinds(rt.alloc(), b"call=put  s=5 mode= k=1\tx v=\r =3 K=4 mod=a ")?;
    assert!(rt; told.as_slice() == b"cput|o|s5|m|k1\tx|v\r|o=3|oK=4|omod=a|o|".as_slice());
    Ok(())
}

// Writes each line of an input, and a bar.
fn barred(heap: Global, input: &[u8]) -> Result<Vec<u8>, AllocError> {
    let mut out = Vec::new(heap);
    for line in Lines::of(input) {
        out.extend_from_slice(line)?;
        out.push(b'|')?;
    }
    Ok(out)
}

// An empty line counts, and a newline at the very end begins no further one.
#[test]
fn newlines(rt: HostRuntime) -> Result<(), Fail> {
    let ended = barred(rt.alloc(), b"\na\n\nb\n")?;
    assert!(rt; ended.as_slice() == b"|a||b|".as_slice());
    let open = barred(rt.alloc(), b"a\r\nb")?;
    assert!(rt; open.as_slice() == b"a\r|b|".as_slice());
    let none = barred(rt.alloc(), b"")?;
    assert!(rt; none.is_empty());
    Ok(())
}
