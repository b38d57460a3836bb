use crate::hand::{InHand, allows};
use crate::reading::request;
use crate::reply::{Answered, BadRequest, Reply};
use crate::request::{Kind, Request};
use crate::writing::push_reply;
use cold::store::ColdRefusal;
use keys::listing::Listing;
use keys::rows::ListingRow;
use rules::answers::{Answer, Refusal, Swept};
use rules::sheet::Mode;
use std::alloc::{AllocError, Global};
use std::io::Write;
use std::test::Fail;
use text::lines::Lines;
use text::numbers::push_decimal;

fn mode_name(mode: Mode) -> &'static [u8] {
    match mode {
        Mode::Plain => b" plain",
        Mode::Checked => b" checked",
    }
}

fn push_number(out: &mut Vec<u8>, n: u64) -> Result<(), AllocError> {
    out.push(b' ')?;
    push_decimal(out, n)
}

// Writes what a request holds.
fn push_parts(out: &mut Vec<u8>, request: Request) -> Result<(), AllocError> {
    match request {
        Request::Begin(session, mode) => {
            push_number(out, u64::from(session))?;
            out.extend_from_slice(mode_name(mode))
        }
        Request::Read(session, key) | Request::Drop(session, key) => {
            push_number(out, u64::from(session))?;
            push_number(out, key.id)
        }
        Request::Put(session, key, row) => {
            push_number(out, u64::from(session))?;
            push_number(out, key.id)?;
            out.push(b' ')?;
            write!(out, "{row}").map_err(|_| AllocError)
        }
        Request::Commit(session) | Request::Abandon(session) => push_number(
            out,
            u64::from(session),
        ),
        Request::Choose(key) => push_number(out, key.id),
        _ => Ok(()),
    }
}

// Writes the request that a line makes and a bar, with a dash where it makes none.
fn push_line(out: &mut Vec<u8>, line: &[u8]) -> Result<(), AllocError> {
    match request(line) {
        Some(read) => {
            out.extend_from_slice(read.kind().name().as_bytes())?;
            push_parts(out, read)?;
        }
        None => out.push(b'-')?,
    }
    out.push(b'|')?;
    Ok(())
}

fn reread(heap: Global, input: &[u8]) -> Result<Vec<u8>, AllocError> {
    let mut out = Vec::new(heap);
    for line in Lines::of(input) {
        push_line(&mut out, line)?;
    }
    Ok(out)
}

#[test]
fn every_call(rt: HostRuntime) -> Result<(), Fail> {
    let example = reread(
        rt.alloc(),
        b"call=begin s=0 mode=plain
call=put s=0 k=7 v=4500,2,17
call=commit s=0
call=choose k=7
call=copy
call=settle
call=sweep",
    )?;
    assert!(rt;
        example.as_slice()
            == b"begin 0 plain|put 0 7 4500,2,17|commit 0|choose 7|copy|settle|sweep|".as_slice()
    );
    let others = reread(
        rt.alloc(),
        b"call=begin s=63 mode=checked
call=read s=1 k=8
call=drop s=2 k=9
call=abandon s=3
call=give-up
call=collect",
    )?;
    assert!(rt;
        others.as_slice()
            == b"begin 63 checked|read 1 8|drop 2 9|abandon 3|give-up|collect|".as_slice()
    );
    Ok(())
}

// The largest number of each width is read, and the next one is not; leading zeros count for nothing.
#[test]
fn widths(rt: HostRuntime) -> Result<(), Fail> {
    let sessions = reread(
        rt.alloc(),
        b"call=commit s=4294967295
call=commit s=4294967296
call=commit s=00000000000000000000007
call=commit s=
call=commit s=-1",
    )?;
    assert!(rt; sessions.as_slice() == b"commit 4294967295|-|commit 7|-|-|".as_slice());
    let keys = reread(
        rt.alloc(),
        b"call=choose k=18446744073709551615
call=choose k=18446744073709551616",
    )?;
    assert!(rt; keys.as_slice() == b"choose 18446744073709551615|-|".as_slice());
    let rows = reread(
        rt.alloc(),
        b"call=put s=0 k=0 v=4294967295,65535,4294967295
call=put s=0 k=0 v=4294967296,65535,4294967295
call=put s=0 k=0 v=4294967295,65536,4294967295
call=put s=0 k=0 v=4294967295,65535,4294967296
call=put s=0 k=0 v=1,2
call=put s=0 k=0 v=1,2,3,4",
    )?;
    assert!(rt; rows.as_slice() == b"put 0 0 4294967295,65535,4294967295|-|-|-|-|-|".as_slice());
    Ok(())
}

// No line here is a request.
#[test]
fn bad_lines(rt: HostRuntime) -> Result<(), Fail> {
    let spaces = reread(
        rt.alloc(),
        b"
call=read  s=1 k=8
call=read\ts=1 k=8
call=sweep\r
call=sweep 
 call=sweep",
    )?;
    assert!(rt; spaces.as_slice() == b"-|-|-|-|-|-|".as_slice());
    let words = reread(
        rt.alloc(),
        b"CALL=sweep
call=Sweep
call=read k=8 s=1
s=1 call=commit
call=read s=1
call=read s=1 k=8 k=8
call=read s=1 s=1 k=8
call=read s=1 k=8 v=1,2,3
call=sweep s=1
call=begin s=1
call=begin s=1 mode=quick
call=begin s=1 mode=plain mode=plain
call=begin mode=plain s=1
call=giveup
call=
call
sweep",
    )?;
    assert!(rt; words.as_slice() == b"-|-|-|-|-|-|-|-|-|-|-|-|-|-|-|-|-|".as_slice());
    Ok(())
}

// What the store tells of a call.
fn answered(kind: Kind, told: Result<Answer<ListingRow>, Refusal>) -> Reply {
    Ok(Answered { kind, told })
}

// The line that a reply is.
fn written(heap: Global, reply: Reply) -> Result<Vec<u8>, AllocError> {
    let mut out = Vec::new(heap);
    push_reply(&mut out, reply)?;
    Ok(out)
}

#[test]
fn replies(rt: HostRuntime) -> Result<(), Fail> {
    let row = ListingRow {
        price: 4500,
        seller: 17,
        seats: 2,
    };
    assert!(rt; written(rt.alloc(), Err(BadRequest::Line))?.as_slice() == b"bad=line\n".as_slice());
    assert!(rt; written(rt.alloc(), Err(BadRequest::Move))?.as_slice() == b"bad=move\n".as_slice());
    assert!(rt;
        written(rt.alloc(), answered(Kind::Begin, Ok(Answer::Done)))?.as_slice()
            == b"ok=begin\n".as_slice()
    );
    assert!(rt;
        written(rt.alloc(), answered(Kind::Commit, Ok(Answer::At(2))))?.as_slice()
            == b"ok=commit at=2\n".as_slice()
    );
    assert!(rt;
        written(rt.alloc(), answered(Kind::Choose, Ok(Answer::Tag(1))))?.as_slice()
            == b"ok=choose tag=1\n".as_slice()
    );
    assert!(rt;
        written(
            rt.alloc(),
            answered(Kind::Read, Ok(Answer::Row(Some(row)))),
        )?
        .as_slice()
            == b"ok=read v=4500,2,17\n".as_slice()
    );
    assert!(rt;
        written(rt.alloc(), answered(Kind::Read, Ok(Answer::Row(None))))?.as_slice()
            == b"ok=read v=none\n".as_slice()
    );
    assert!(rt;
        written(rt.alloc(), answered(Kind::Drop, Ok(Answer::Was(false))))?.as_slice()
            == b"ok=drop was=0\n".as_slice()
    );
    assert!(rt;
        written(rt.alloc(), answered(Kind::Drop, Ok(Answer::Was(true))))?.as_slice()
            == b"ok=drop was=1\n".as_slice()
    );
    Ok(())
}

#[test]
fn more_replies(rt: HostRuntime) -> Result<(), Fail> {
    let full = Refusal::Cold(ColdRefusal::Full(64));
    assert!(rt;
        written(
            rt.alloc(),
            answered(Kind::Sweep, Ok(Answer::Swept(Swept::Gone))),
        )?
        .as_slice()
            == b"ok=sweep did=gone\n".as_slice()
    );
    assert!(rt;
        written(
            rt.alloc(),
            answered(Kind::Sweep, Ok(Answer::Swept(Swept::Emptied))),
        )?
        .as_slice()
            == b"ok=sweep did=emptied\n".as_slice()
    );
    assert!(rt;
        written(
            rt.alloc(),
            answered(Kind::Sweep, Ok(Answer::Swept(Swept::NoneDue))),
        )?
        .as_slice()
            == b"ok=sweep did=none\n".as_slice()
    );
    assert!(rt;
        written(rt.alloc(), answered(Kind::GiveUp, Ok(Answer::Done)))?.as_slice()
            == b"ok=give-up\n".as_slice()
    );
    assert!(rt;
        written(
            rt.alloc(),
            answered(Kind::Commit, Ok(Answer::At(4294967295))),
        )?
        .as_slice()
            == b"ok=commit at=4294967295\n".as_slice()
    );
    assert!(rt;
        written(rt.alloc(), answered(Kind::Begin, Err(Refusal::NoSession)),)?.as_slice()
            == b"no=2\n".as_slice()
    );
    assert!(rt;
        written(rt.alloc(), answered(Kind::Copy, Err(full)),)?.as_slice() == b"no=15\n".as_slice()
    );
    Ok(())
}

// Whether a request goes with an empty hand, a chosen move and a copied one.
fn with_each(request: Request) -> (bool, bool, bool) {
    (
        allows(&request, InHand::Nothing),
        allows(&request, InHand::Chosen),
        allows(&request, InHand::Copied),
    )
}

#[test]
fn hands(rt: HostRuntime) {
    assert_eq!(rt;
        with_each(Request::Choose(Listing { id: 7 })),
        (true, false, false)
    );
    assert_eq!(rt; with_each(Request::Copy), (false, true, false));
    assert_eq!(rt; with_each(Request::Settle), (false, false, true));
    assert_eq!(rt; with_each(Request::GiveUp), (false, true, true));
    assert_eq!(rt; with_each(Request::Commit(0)), (true, true, true));
    assert_eq!(rt; with_each(Request::Sweep), (true, true, true));
}
