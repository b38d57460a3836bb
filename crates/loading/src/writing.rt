ghost use Rattle.std.specs.Prelude.{◌≡◌, ◌++◌, OnOk};
ghost use Rattle.loading.specs.Text.{differ_text, find_text, absent_text, loaded_text};

use keys::rows::ListingRow;
use records::writing::{Bit, RowOrNone};
use std::alloc::AllocError;
use std::io::Write;

// Each line has a number and what two finds gave, with other things beside them: a struct of the three would be made at each call.

// Appends the line differ k=NUMBER where two finds answer differently.
fn push_differ(
    out: &mut Vec<u8>,
    number: u64,
    sorted: Option<ListingRow>,
    blocks: Option<ListingRow>,
) -> Result<(), AllocError>
    ensures { OnOk result (out.new.items ≡ out.old.items ++ differ_text number sorted blocks) }
{
    if sorted == blocks {
        return Ok(());
    }
    writeln!(out, "differ k={number}").map_err(|_| AllocError)
}

// Appends found k=NUMBER sorted=ROW blocks=ROW.
pub fn push_find(
    out: &mut Vec<u8>,
    number: u64,
    sorted: Option<ListingRow>,
    blocks: Option<ListingRow>,
) -> Result<(), AllocError>
    ensures { OnOk result (out.new.items ≡ out.old.items ++ find_text number sorted blocks) }
{
    let in_sorted = RowOrNone(sorted);
    let in_blocks = RowOrNone(blocks);
    writeln!(
        out,
        "found k={number} sorted={in_sorted} blocks={in_blocks}"
    )
    .map_err(|_| AllocError)?;
    push_differ(out, number, sorted, blocks)
}

// Appends absent k=NUMBER bloom=BIT band=BIT sorted=ROW blocks=ROW.
pub fn push_absent(
    out: &mut Vec<u8>,
    number: u64,
    bloom: bool,
    band: bool,
    sorted: Option<ListingRow>,
    blocks: Option<ListingRow>,
) -> Result<(), AllocError>
    ensures { OnOk result (out.new.items ≡ out.old.items ++ absent_text number bloom band sorted blocks) }
{
    let bloom = Bit(bloom);
    let band = Bit(band);
    let in_sorted = RowOrNone(sorted);
    let in_blocks = RowOrNone(blocks);
    writeln!(
        out,
        "absent k={number} bloom={bloom} band={band} sorted={in_sorted} blocks={in_blocks}"
    )
    .map_err(|_| AllocError)?;
    push_differ(out, number, sorted, blocks)
}

// Appends loaded sorted=COUNT blocks=COUNT.
pub fn push_loaded(out: &mut Vec<u8>, sorted: u64, blocks: u64) -> Result<(), AllocError>
    ensures { OnOk result (out.new.items ≡ out.old.items ++ loaded_text sorted blocks) }
{
    writeln!(out, "loaded sorted={sorted} blocks={blocks}").map_err(|_| AllocError)
}
