// Little-endian numbers: the first byte is the lowest.
ghost use Rattle.std.specs.Prelude.{◌≡◌, ◌+◌, ◌≤◌, length, drop};
ghost use Rattle.octets.specs.Numbers.{le, to_le};
ghost use Rattle.buffers.specs.Buffers.{put};

use crate::bytes::bytes_at;
use buffers::copy;

// ---- from a string, where a byte past the end counts as 0

pub fn read_u32_le(s: &[u8], at: usize) -> u32
    ensures { result ≡ le 4 (drop at s.now) }
{
    u32::from_le_bytes(bytes_at(s, at))
}

// ---- into a buffer

pub fn write_u32_le(out: &mut [u8], at: usize, x: u32)
    requires { at + 4 ≤ length out.old }
    ensures { out.new ≡ put out.old at (to_le 4 x) }
{
    copy(out, at, &u32::to_le_bytes(x));
}

pub fn write_u64_le(out: &mut [u8], at: usize, x: u64)
    requires { at + 8 ≤ length out.old }
    ensures { out.new ≡ put out.old at (to_le 8 x) }
{
    copy(out, at, &u64::to_le_bytes(x));
}
