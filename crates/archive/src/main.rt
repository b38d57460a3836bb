// Reads an archive's text, packs each of its records and reads it back, loads them into two stores behind two filters and finds them
// again, and writes what it found.
#![tactic(auto)]

use loading::report::answer;
use records::report::LIMIT;
use std::io;
use std::io::{Read, Write};

#[cfg(test)]
mod tests;

fn main(rt: HostRuntime) -> io::Result<()> {
    let mut input = Vec::new(rt.alloc());
    // one byte more than is served shows that there is more
    rt.stdin().take(LIMIT as u64 + 1).read_to_end(&mut input)?;
    let out = answer(rt.alloc(), &input)?;
    rt.stdout().write_all(&out)
}
