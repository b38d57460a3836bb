ghost use Rattle.std.specs.Prelude.{◌≡◌, ◌<◌, ◌++◌, Some, Ok, OnOk};
ghost use Rattle.records.specs.Writing.{hex_digit, hex_text, bit_text, found_text, record_text, bad_line_text, entry_text, summary_text};

use crate::record::{BadLine, Entry, Record};
use keys::packing::Packed;
use keys::rows::ListingRow;
use std::alloc::AllocError;
use std::fmt;
use std::io::Write;

// Bytes, each written as two hexadecimal digits.
#[derive(Clone, Copy, Debug, PartialEq, Eq)]
pub struct Hex<'a>(pub &'a [u8]);

impl fmt::Display for Hex<'_> {
    ghost output = { λ h. Some (hex_text h.0.now) };

    fn fmt<W: fmt::Write>(&self, f: &mut fmt::Formatter<W>) -> fmt::Result {
        for &b in self.0 {
            write!(f, "{b:02x}")?;
        }
        Ok(())
    }
}

// A number below 16 as a hexadecimal digit.
fn hex_digit(n: u8) -> u8
    requires { n < 16 }
    ensures { result ≡ hex_digit n }
{
    if n < 10 { b'0' + n } else { b'a' - 10 + n }
}

// Appends the two hexadecimal digits of each byte: what `Hex` writes. A record's line is written by it, since `{:02x}` of each byte took
// most of the line's time.
pub fn push_hex(out: &mut Vec<u8>, bytes: &[u8]) -> Result<(), AllocError>
    ensures { OnOk result (out.new.items ≡ out.old.items ++ hex_text bytes.now) }
{
    for &b in bytes {
        out.push(hex_digit(b / 16))?;
        out.push(hex_digit(b % 16))?;
    }
    Ok(())
}

// Written 1 for true and 0 for false.
#[derive(Clone, Copy, Debug, PartialEq, Eq)]
pub struct Bit(pub bool);

impl fmt::Display for Bit {
    ghost output = { λ b. Some (bit_text b.0) };

    #[tactic(auto, using(crate::proofs::Digits::bit_digit))]
    fn fmt<W: fmt::Write>(&self, f: &mut fmt::Formatter<W>) -> fmt::Result {
        let bit = u8::from(self.0);
        write!(f, "{bit}")
    }
}

// What a find gave, written PRICE,SEATS,SELLER or none.
#[derive(Clone, Copy, Debug, PartialEq, Eq)]
pub struct RowOrNone(pub Option<ListingRow>);

impl fmt::Display for RowOrNone {
    ghost output = { λ f. Some (found_text f.0) };

    fn fmt<W: fmt::Write>(&self, f: &mut fmt::Formatter<W>) -> fmt::Result {
        match self.0 {
            Some(row) => write!(f, "{row}"),
            None => write!(f, "none"),
        }
    }
}

// A row's 16 bytes, and the row that is read back from them: the same.
fn packed_back<R: Packed>(row: &R) -> ([u8; 16], R)
    ensures bytes { result.0 ≡ R.Packed.packed row.now }
    ensures back { result.1 ≡ row.now }
{
    let mut bytes = [0u8; 16];
    let _ = row.pack(&mut bytes);
    let back = R::unpack(&bytes);
    (bytes, back)
}

// A record is written k=NUMBER packed=HEX v=PRICE,SEATS,SELLER: the packed row, and the row read back from it.
impl fmt::Display for Record {
    ghost output = { λ r. Some (record_text r) };

    fn fmt<W: fmt::Write>(&self, f: &mut fmt::Formatter<W>) -> fmt::Result {
        let (bytes, row) = packed_back(&self.row);
        let id = self.key.id;
        let packed = Hex(&bytes);
        write!(f, "k={id} packed={packed} v={row}")
    }
}

impl fmt::Display for BadLine {
    ghost output = { λ _. Some bad_line_text };

    fn fmt<W: fmt::Write>(&self, f: &mut fmt::Formatter<W>) -> fmt::Result {
        write!(f, "bad=line")
    }
}

// Appends a record's line.
fn push_record(out: &mut Vec<u8>, read: &Record) -> Result<(), AllocError>
    ensures { OnOk result (out.new.items ≡ out.old.items ++ entry_text (Ok read.now)) }
{
    let (bytes, row) = packed_back(&read.row);
    let id = read.key.id;
    write!(out, "k={id} packed=").map_err(|_| AllocError)?;
    push_hex(out, &bytes)?;
    writeln!(out, " v={row}").map_err(|_| AllocError)
}

// Appends the line that answers an entry. One generic body for this and script's `push_reply` is no plainer: its clause would go by cases
// over what both types print, and each of the two would still need its own to name the text.
pub fn push_entry(out: &mut Vec<u8>, entry: &Entry) -> Result<(), AllocError>
    ensures { OnOk result (out.new.items ≡ out.old.items ++ entry_text entry.now) }
{
    match entry {
        Ok(read) => push_record(out, read),
        // as one copy of nine bytes: an archive may have a bad line for each of its bytes
        Err(_) => out.extend_from_slice(b"bad=line\n"),
    }
}

// Appends records=COUNT.
pub fn push_summary(out: &mut Vec<u8>, count: u64) -> Result<(), AllocError>
    ensures { OnOk result (out.new.items ≡ out.old.items ++ summary_text count) }
{
    writeln!(out, "records={count}").map_err(|_| AllocError)
}
