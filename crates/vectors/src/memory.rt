// What cases are lent, and must leave: a buffer of bytes, and words.
use crate::FILL;
use crate::case::{CHANGES, FILLED, FILLING, field, number, size};

fn byte_or_fill(s: &[u8], i: usize) -> u8 {
    s.get(i).copied().unwrap_or(FILL)
}

// Whether a buffer holds a string and is as it was filled behind that.
pub(crate) fn holds(out: &[u8], s: &[u8]) -> bool {
    let mut bytes = out.iter().enumerate();
    s.len() <= out.len() && bytes.all(|(i, byte)| *byte == byte_or_fill(s, i))
}

pub(crate) fn set(words: &mut [u64], at: usize, word: u64) {
    if let Some(place) = words.get_mut(at) {
        *place = word;
    }
}

// Writes words from a place on, as far as there is room.
pub(crate) fn put(words: &mut [u64], at: usize, from: &[u64]) {
    for (i, word) in from.iter().enumerate() {
        set(words, at.wrapping_add(i), *word);
    }
}

// The words from a place on.
pub(crate) fn rest(words: &[u64], at: usize) -> &[u64] {
    words.get(at..).unwrap_or(&[])
}

fn fill(words: &mut [u64], n: usize, word: u64) {
    let n = n.min(words.len());
    words[..n].fill(word);
}

// Changes words: for each change its place (2) and what the word is then (8).
fn change(words: &mut [u64], changes: &[u8]) {
    for change in changes.chunks_exact(10) {
        let at = octets::read_u16_be(change, 0) as usize;
        set(words, at, octets::read_u64_be(change, 2));
    }
}

// Makes the words that were before a case those that it must leave: the first ones are filled, then some are changed.
pub(crate) fn expect(words: &mut [u64], c: &[u8]) {
    fill(words, size(c, FILLED), number(c, FILLING));
    change(words, field(c, CHANGES));
}
