ghost use Rattle.std.specs.Prelude.{◌≡◌};
ghost use Rattle.text.specs.Words.{words_left};
ghost use Rattle.script.specs.Requests.{done, operands, request_of};

use crate::operand::next_in;
use crate::request::{Kind, Request};
use text::words::Words;

// A request, if no word is left.
fn finish(request: Request, mut words: Words<'_>) -> Option<Request>
    ensures { result ≡ done request (words_left words.entry) }
{
    if words.next().is_some() {
        return None;
    }
    Some(request)
}

// The request of a call and the words after its name.
fn complete(kind: Kind, mut words: Words<'_>) -> Option<Request>
    ensures { result ≡ operands kind (words_left words.entry) }
{
    match kind {
        Kind::Begin => {
            let session = next_in(&mut words)?;
            let mode = next_in(&mut words)?;
            finish(Request::Begin(session, mode), words)
        }
        Kind::Read => {
            let session = next_in(&mut words)?;
            let listing = next_in(&mut words)?;
            finish(Request::Read(session, listing), words)
        }
        Kind::Put => {
            let session = next_in(&mut words)?;
            let listing = next_in(&mut words)?;
            let row = next_in(&mut words)?;
            finish(Request::Put(session, listing, row), words)
        }
        Kind::Drop => {
            let session = next_in(&mut words)?;
            let listing = next_in(&mut words)?;
            finish(Request::Drop(session, listing), words)
        }
        Kind::Commit => finish(Request::Commit(next_in(&mut words)?), words),
        Kind::Abandon => finish(Request::Abandon(next_in(&mut words)?), words),
        Kind::Choose => finish(Request::Choose(next_in(&mut words)?), words),
        Kind::Copy => finish(Request::Copy, words),
        Kind::Settle => finish(Request::Settle, words),
        Kind::GiveUp => finish(Request::GiveUp, words),
        Kind::Sweep => finish(Request::Sweep, words),
        Kind::Collect => finish(Request::Collect, words),
    }
}

// Reads a line: the name of a call, its words in their order, and no more. A line that is no request has nothing more to tell.
pub fn request(line: &[u8]) -> Option<Request>
    ensures { result ≡ request_of line.now }
{
    let mut words = Words::of(line);
    let kind = next_in(&mut words)?;
    complete(kind, words)
}
