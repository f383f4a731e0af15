// Fields of up to eight bytes, most significant byte first.
ghost use Rattle.std.specs.Prelude.{◌≡◌, ◌+◌, ◌^◌, ◌<◌, ◌≤◌, length, take, drop};
ghost use Rattle.std.proofs.lemmas.List.Edits.{sets};
ghost use Rattle.notation.specs.Numbers.{big_endian, from_big_endian};

// The number in the N bytes from `at` on.
pub fn read<const N: usize>(s: &[u8], at: usize) -> u64
    requires room { at + N ≤ length s.now }
    requires width { N ≤ 8 }
    ensures value { result ≡ from_big_endian (take N (drop at s.now)) }
    ensures bound { result < 256 ^ N }
{
    let mut n = 0;
    for b in &s[at..at + N] {
        n = n * 256 + *b as u64;
    }
    n
}

// Writes the last N bytes of n over the N bytes from `at` on.
pub fn write<const N: usize>(out: &mut [u8], at: usize, n: u64)
    requires room { at + N ≤ length out.old }
    requires width { N ≤ 8 }
    ensures { out.new ≡ sets out.old at (big_endian N n) }
{
    out[at..at + N].copy_from_slice(&n.to_be_bytes()[8 - N..]);
}
