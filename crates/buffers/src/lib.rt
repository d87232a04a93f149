// Strings of bytes in buffers: copying, clearing, exclusive or, comparison.
#![tactic(auto)]

ghost use Rattle.std.specs.Prelude.{◌≡◌, ◌+◌, ◌≤◌, length, get_or, replicate};
ghost use Rattle.buffers.specs.Buffers.{put, ◌⊞◌, same};

// The byte at a place, and 0 past the end.
pub fn byte_or_zero(s: &[u8], i: usize) -> u8
    ensures { result ≡ get_or s.now i 0 }
{
    s.get(i).copied().unwrap_or(0)
}

// Writes a string into a buffer from a place on.
pub fn copy(out: &mut [u8], at: usize, from: &[u8])
    requires { at + length from.now ≤ length out.old }
    ensures { out.new ≡ put out.old at from.now }
{
    // Byte by byte: for `copy_from_slice` the compiler calls memmove, which an archive for C would need from outside.
    for (i, byte) in from.iter().enumerate() {
        out[at + i] = *byte;
    }
}

// A string of up to N bytes, with zeros behind it.
pub fn padded<const N: usize>(s: &[u8]) -> [u8; N]
    requires { length s.now ≤ N }
    ensures { result ≡ put (replicate N 0) 0 s.now }
{
    let mut b = [0u8; N];
    copy(&mut b, 0, s);
    b
}

// Clears n bytes of a buffer from a place on.
pub fn zero(out: &mut [u8], at: usize, n: usize)
    requires { at + n ≤ length out.old }
    ensures { out.new ≡ put out.old at (replicate n 0) }
{
    out[at..at + n].fill(0);
}

// Exclusive or of a string into a buffer, as far as both go.
pub fn xor_into(out: &mut [u8], with: &[u8])
    ensures { out.new ≡ out.old ⊞ with.now }
{
    // By index: after a zip over `iter_mut` a proof knows the buffer's length and not its bytes.
    for i in 0..out.len().min(with.len()) {
        out[i] ^= with[i];
    }
}

// Whether two strings of one length are the same. Every byte is looked at, so that the time does not tell where they
// differ.
pub fn equal(a: &[u8], b: &[u8]) -> bool
    requires { length a.now ≡ length b.now }
    ensures { result ≡ same a.now b.now }
{
    let mut differ: u8 = 0;
    for (x, y) in a.iter().zip(b) {
        differ |= *x ^ *y;
    }
    differ == 0
}
