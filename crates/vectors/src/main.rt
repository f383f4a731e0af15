// Runs stored cases: each line of standard input is one case, and its answer is one line of standard output, which the
// gate compares with the file stdout. tests/reference/vectors.py makes both files. A line's first byte tells which entry
// it is for.

#![tactic(auto)]

mod agreement;
mod buffers;
mod calls;
mod hex;
mod line;
mod reading;
mod report;
mod text;

ghost use Rattle.std.specs.Prelude.{◌≤◌, IfOk, length};

use buffers::Buffers;
use hex::Damaged;
use line::Line;
use listing::input::read_full;
use record::RECORD;
use std::io;
use std::io::Print;

// One line of the input. Its answer goes out in one call.
fn case(rt: &impl Print, given: &[u8], buffers: &mut Buffers) -> io::Result<()> {
    match answer(given, buffers) {
        Ok(line) => rt.write_all(line.bytes()),
        Err(Damaged) => rt.write_all(b"damaged\n"),
    }
}

// The answer of the case `given`.
fn answer(given: &[u8], buffers: &mut Buffers) -> Result<Line, Damaged> {
    match given {
        [] => Err(Damaged),
        [b'r', rest @ ..] => reading::case(rest, &mut *buffers.text, &mut *buffers.out),
        [b'a', rest @ ..] => agreement::case(rest, &mut *buffers.text),
        _ => calls::case(given, buffers),
    }
}

// Runs the cases of these lines.
fn run_cases(rt: &impl Print, input: &[u8], buffers: &mut Buffers) -> io::Result<()> {
    for line in input.split_inclusive(|byte| *byte == b'\n') {
        let given = match line {
            [given @ .., b'\n'] => given,
            _ => line,
        };
        case(rt, given, buffers)?;
    }
    Ok(())
}

// The input is read in pieces: what is kept of one is the start of the line that the next one goes on with. A last line
// may lack its newline.
fn run(rt: &(impl Input + Print), input: &mut [u8], buffers: &mut Buffers) -> io::Result<()> {
    let mut kept = 0;
    for _ in 0..MAX_PIECES {
        kept = piece(rt, input, kept, buffers)?;
    }
    run_cases(rt, &input[..kept], buffers)
}

// Reads on behind what is kept, runs the cases of the lines that are whole, moves the start of the next one to the
// front, and answers its length.
fn piece(
    rt: &(impl Input + Print),
    input: &mut [u8],
    kept: usize,
    buffers: &mut Buffers,
) -> io::Result<usize>
    requires { kept ≤ length input.old }
    ensures { IfOk result (λ n. n ≤ length input.old) }
{
    let n = read_full(&mut rt.reader(), &mut input[kept..])?;
    let filled = kept + n;
    let whole = lines_end(&input[..filled]);
    run_cases(rt, &input[..whole], buffers)?;
    input.copy_within(whole..filled, 0);
    Ok(filled - whole)
}

// Where the last whole line ends, 0 where there is none.
fn lines_end(s: &[u8]) -> usize
    ensures { result ≤ length s.now }
{
    match s.iter().rposition(|byte| *byte == b'\n') {
        Some(at) => at + 1,
        None => 0,
    }
}

// An input has at most so many pieces of the size of its buffer: 16 MiB.
const MAX_PIECES: usize = 64;

const PIECE: usize = 262144;
// Texts of over 65,536 bytes and trees of over 65,536 records: past what 16 bits hold. The stack has no room for the
// longest texts; those are run from C (tests/host).
const TEXT: usize = 144000;

const TREE: usize = RECORD * 72000;

// Runs the cases of standard input.
fn main(rt: HostRuntime) -> io::Result<()> {
    let mut input = [0u8; PIECE];
    let mut text = [0u8; TEXT];
    let mut tree = [0u8; TREE];
    let mut out = [0u8; TREE];
    let mut buffers = Buffers {
        text: &mut text,
        tree: &mut tree,
        out: &mut out,
    };
    run(&rt, &mut input, &mut buffers)
}
