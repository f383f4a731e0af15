// The lister: reads a line that names the features and a text, and writes the text, its inverse and its steps (document
// 01).

#![tactic(auto)]

use listing::input::read_full;
use listing::{MAX_LISTING, MAX_READ};
use std::io;
use std::io::{Input, Print};

// Reads an input and writes its listing.
fn main(rt: HostRuntime) -> io::Result<()> {
    let mut input = [0u8; MAX_READ];
    let mut out = [0u8; MAX_LISTING];
    let n = read_full(&mut rt.reader(), &mut input)?;
    let size = listing::list_whole(&input[..n], &mut out);
    rt.write_all(&out[..size])
}
