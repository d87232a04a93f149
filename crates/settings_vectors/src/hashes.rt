// Cases of BLAKE3's hash. The input of each is the first bytes of one pattern.
use crate::case::size;
use crate::reading::read_full;
use crate::tally::{Tally, counted};
use std::io;
use std::io::Read;

// The longest input.
pub(crate) const LONGEST: usize = 102400;

// A case: the input's length (4), and its hash.
const CASE: usize = 36;

// The pattern of the official vectors.
pub(crate) fn fill(input: &mut [u8]) {
    for (i, byte) in input.iter_mut().enumerate() {
        *byte = (i % 251) as u8;
    }
}

// Whether the first n bytes have this hash.
fn hashes_to(input: &[u8], n: usize, expected: &[u8]) -> bool {
    input
        .get(..n)
        .is_some_and(|front| blake3_tree::hash(front).as_slice() == expected)
}

fn agrees(input: &[u8], case: &[u8]) -> bool {
    let hash = case.get(4..);
    hash.is_some_and(|expected| hashes_to(input, size(case, 0), expected))
}

fn next(file: &mut impl Read, input: &[u8]) -> io::Result<bool> {
    let mut case = [0u8; CASE];
    read_full(file, &mut case)?;
    Ok(agrees(input, &case))
}

// The cases of a group.
pub(crate) fn cases(file: &mut impl Read, count: usize, input: &[u8]) -> io::Result<Tally> {
    let mut t = [0u64; 2];
    for _ in 0..count {
        t = counted(t, next(file, input)?);
    }
    Ok(t)
}
