// Big-endian numbers: the first byte is the highest.
ghost use Rattle.std.specs.Prelude.{◌≡◌, ◌+◌, ◌≤◌, length, drop};
ghost use Rattle.octets.specs.Numbers.{be, to_be};
ghost use Rattle.buffers.specs.Buffers.{put};

use crate::bytes::{bytes_at, bytes_there};
use buffers::copy;

// ---- bytes that are there

pub fn load_u64_be(s: &[u8], at: usize) -> u64
    requires { at + 8 ≤ length s.now }
    ensures { result ≡ be 8 (drop at s.now) }
{
    u64::from_be_bytes(bytes_there(s, at))
}

// ---- from a string, where a byte past the end counts as 0

pub fn read_u16_be(s: &[u8], at: usize) -> u16
    ensures { result ≡ be 2 (drop at s.now) }
{
    u16::from_be_bytes(bytes_at(s, at))
}

pub fn read_u32_be(s: &[u8], at: usize) -> u32
    ensures { result ≡ be 4 (drop at s.now) }
{
    u32::from_be_bytes(bytes_at(s, at))
}

pub fn read_u64_be(s: &[u8], at: usize) -> u64
    ensures { result ≡ be 8 (drop at s.now) }
{
    u64::from_be_bytes(bytes_at(s, at))
}

// ---- into a buffer

pub fn write_u16_be(out: &mut [u8], at: usize, x: u16)
    requires { at + 2 ≤ length out.old }
    ensures { out.new ≡ put out.old at (to_be 2 x) }
{
    copy(out, at, &u16::to_be_bytes(x));
}

pub fn write_u64_be(out: &mut [u8], at: usize, x: u64)
    requires { at + 8 ≤ length out.old }
    ensures { out.new ≡ put out.old at (to_be 8 x) }
{
    copy(out, at, &u64::to_be_bytes(x));
}
