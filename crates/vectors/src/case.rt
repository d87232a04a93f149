// A case: the bytes of a group from its record on. A record is seven fields, each the place (4) and the length (4) of a string behind
// it, counted from the record. What is not there is an empty string, or 0.
// The length of a record.
const RECORD: usize = 56;

// The fields of a case.
const NUMBERS: usize = 0;

pub(crate) const KEY: usize = 8;

pub(crate) const SALT: usize = 16;

pub(crate) const OTHER: usize = 24;

pub(crate) const DATA: usize = 32;

pub(crate) const OUTPUT: usize = 40;

pub(crate) const CHANGES: usize = 48;

// The numbers of a case, each of 8 bytes.
pub(crate) const KIND: usize = 0;

pub(crate) const COUNTER: usize = 8;

pub(crate) const COUNT: usize = 16;

pub(crate) const ROOM: usize = 24;

pub(crate) const FILLED: usize = 32;

pub(crate) const FILLING: usize = 40;

pub(crate) const LENT: usize = 48;

pub(crate) const STREAM: usize = 56;

pub(crate) const METHOD: usize = 64;

pub(crate) const CLOCK: usize = 72;

// The n bytes of a string from a place on.
fn part(s: &[u8], from: usize, n: usize) -> &[u8] {
    s.get(from..).and_then(|rest| rest.get(..n)).unwrap_or(&[])
}

pub(crate) fn field(c: &[u8], at: usize) -> &[u8] {
    let x = octets::read_u64_be(c, at);
    part(
        c,
        (x / 0x1_0000_0000) as usize,
        (x % 0x1_0000_0000) as usize,
    )
}

pub(crate) fn number(c: &[u8], at: usize) -> u64 {
    octets::read_u64_be(field(c, NUMBERS), at)
}

pub(crate) fn size(c: &[u8], at: usize) -> usize {
    number(c, at) as usize
}

// The case of a number in a group.
pub(crate) fn record(s: &[u8], i: usize) -> &[u8] {
    if s.len() / RECORD <= i {
        return &s[..0];
    }
    &s[RECORD * i..]
}
