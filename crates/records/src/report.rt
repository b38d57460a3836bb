ghost use Rattle.std.specs.Prelude.{◌≡◌, IfOk};
ghost use Rattle.text.specs.Numbers.{Written};
ghost use Rattle.records.specs.Writing.{report_of, answer_of};

use crate::entries::Entries;
use crate::writing::{push_entry, push_summary};
use std::alloc::{AllocError, Global};

// All that is written for an archive's text: a line for each of its lines, and how many of them are records. Each number in it is
// written so that it is read back as that number.
// Not one function with that of `loading`, which loads the records and finds them again in between.
#[tactic(auto, using(text::proofs::Values::written))]
pub fn report(heap: Global, input: &[u8]) -> Result<Vec<u8>, AllocError>
    ensures text { IfOk result (λ v. v.items ≡ report_of input.now) }
    ensures numbers { Written }
{
    let mut out = Vec::new(heap);
    let mut count = 0;
    for entry in Entries::of(input) {
        push_entry(&mut out, &entry)?;
        count += u64::from(entry.is_ok());
    }
    push_summary(&mut out, count)?;
    Ok(out)
}

// The most bytes that an archive's text may have.
pub const LIMIT: usize = 65536;

// All that is written for an archive's text, which may be too long to be served. Loading has one of its own, over its own report: one for
// both, with the report passed in, would need a clause for each.
#[tactic(auto, using(text::proofs::Values::written))]
pub fn answer(heap: Global, input: &[u8]) -> Result<Vec<u8>, AllocError>
    ensures text { IfOk result (λ v. v.items ≡ answer_of input.now) }
    ensures numbers { Written }
{
    if input.len() > LIMIT {
        return Vec::from_slice(heap, b"bad=size\n");
    }
    report(heap, input)
}
