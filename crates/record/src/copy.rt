// A record copied.
ghost use Rattle.std.specs.Prelude.{◌≡◌, ◌++◌, ◌≤◌, length, drop};
ghost use Rattle.notation.specs.Packed.{RECORD as record_size};

use crate::RECORD;

// Copies a record to the front of out, by way of bytes of its own: since these lie apart from both, the compiler may
// move many at a time.
pub fn copy_record(from: &[u8], out: &mut [u8])
    requires from_len { length from.now ≡ record_size }
    requires record_size_in_bounds { record_size ≤ length out.old }
    ensures { out.new ≡ from.now ++ drop record_size out.old }
{
    let mut own = [0; RECORD];
    own.copy_from_slice(from);
    out[..RECORD].copy_from_slice(&own);
}
