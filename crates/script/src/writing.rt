ghost use Rattle.std.specs.Prelude.{◌≡◌, ◌++◌, codes, Some, OnOk};
ghost use Rattle.text.specs.Numbers.{Written};
ghost use Rattle.script.specs.Replies.{did_text, bad_text, answer_text, reply_text};

use crate::reply::{Answered, BadRequest, Reply};
use records::writing::{Bit, RowOrNone};
use rules::answers::{Answer, Swept};
use std::alloc::AllocError;
use std::fmt;
use std::io::Write;

// What a sweep did, in a word of this format. No `Display`: the type is another crate's.
fn did(swept: Swept) -> &'static str
    ensures { result.now ≡ did_text swept }
{
    match swept {
        Swept::Gone => "gone",
        Swept::Emptied => "emptied",
        Swept::NoneDue => "none",
    }
}

// ok=CALL and then what the call gave, or the number of its refusal.
impl fmt::Display for Answered {
    ghost output = { λ a. Some (answer_text a.kind a.told) };

    fn fmt<W: fmt::Write>(&self, f: &mut fmt::Formatter<W>) -> fmt::Result {
        let kind = self.kind;
        match self.told {
            Ok(Answer::Done) => write!(f, "ok={kind}"),
            Ok(Answer::Row(row)) => {
                let found = RowOrNone(row);
                write!(f, "ok={kind} v={found}")
            }
            Ok(Answer::Was(there)) => {
                let was = Bit(there);
                write!(f, "ok={kind} was={was}")
            }
            Ok(Answer::At(stamp)) => write!(f, "ok={kind} at={stamp}"),
            Ok(Answer::Tag(tag)) => write!(f, "ok={kind} tag={tag}"),
            Ok(Answer::Swept(swept)) => {
                let did = did(swept);
                write!(f, "ok={kind} did={did}")
            }
            Err(refusal) => {
                let number = refusal.number();
                write!(f, "no={number}")
            }
        }
    }
}

impl fmt::Display for BadRequest {
    ghost output = { λ b. Some (bad_text b) };

    fn fmt<W: fmt::Write>(&self, f: &mut fmt::Formatter<W>) -> fmt::Result {
        match self {
            BadRequest::Line => write!(f, "bad=line"),
            BadRequest::Move => write!(f, "bad=move"),
        }
    }
}

// Appends the line that a reply is. Each number in it is written so that it is read back as that number.
#[tactic(auto, using(text::proofs::Values::written))]
pub fn push_reply(out: &mut Vec<u8>, reply: Reply) -> Result<(), AllocError>
    ensures appended { OnOk result (out.new.items ≡ out.old.items ++ (reply_text reply ++ codes "\n")) }
    ensures numbers { Written }
{
    match reply {
        Ok(answered) => writeln!(out, "{answered}"),
        Err(bad) => writeln!(out, "{bad}"),
    }
    .map_err(|_| AllocError)
}
