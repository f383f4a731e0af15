// What a line says of an answer: its number, the bytes that were written, and whether a byte was written that should not
// be.
ghost use Rattle.std.specs.Prelude.{◌<◌, ◌≤◌, ◌≡◌, [], length};

use crate::line::Line;
use notation::refusals::Refusal;

// What a lent buffer holds before a call, so that a byte that was written without need shows.
pub const UNTOUCHED: u8 = 0xaa;
// Longer results are shown by their checksum.
const SHOWN: usize = 500;

// The line of an answer whose value counts things of `unit` bytes that were written to the front of `buffer`.
pub fn answered(answer: Result<u64, Refusal>, unit: usize, buffer: &[u8]) -> Line {
    match answer {
        Ok(value) => read(value, bytes_used(value, unit, buffer.len()), buffer),
        Err(refusal) => refused(refusal.number(), buffer),
    }
}

// The bytes of so many things, as far as there are any.
fn bytes_used(value: u64, unit: usize, room: usize) -> usize
    ensures { result ≤ room }
{
    if unit == 0 {
        return 0;
    }
    (value as usize).min(room / unit) * unit
}

// The line of a refusal.
pub fn refused(number: u8, buffer: &[u8]) -> Line {
    let mut line = Line::new();
    line.put(b"refused ");
    line.put_decimal(number as u64);
    close(&mut line, buffer);
    line
}

// The line of a value, and of the first `used` bytes of the buffer.
pub fn read(value: u64, used: usize, buffer: &[u8]) -> Line
    requires { used ≤ length buffer.now }
{
    let mut line = Line::new();
    line.put(b"read ");
    line.put_decimal(value);
    line.put(b" ");
    let (written, rest) = buffer.split_at(used);
    show(&mut line, written);
    close(&mut line, rest);
    line
}

// Puts bytes, or their checksum where they are many.
fn show(line: &mut Line, bytes: &[u8])
    requires { length line.old ≤ 26 }
    ensures { length line.new ≤ 1026 }
{
    if bytes.len() <= SHOWN {
        line.put_bytes(bytes);
    } else {
        line.put(b"sum ");
        line.put_hex(checksum(bytes));
    }
}

// Ends the line, and says before if a byte of `rest`, the part of the buffer that was not used, was written.
fn close(line: &mut Line, rest: &[u8])
    requires { length line.old ≤ 1026 }
{
    if rest.iter().any(|byte| *byte != UNTOUCHED) {
        line.put(b" touched");
    }
    line.put(b"\n");
}

// A checksum of bytes, of 24 bits.
pub fn checksum(bytes: &[u8]) -> u64 {
    let mut total: u64 = 0;
    for byte in bytes {
        total = (total * 31 + *byte as u64) % 0x1000000;
    }
    total
}
