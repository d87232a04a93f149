// The bytes of a group's head, or of a case: numbers of 4 bytes, and fields, each the place (4) and the length (4) of a string among
// them. What is not there is 0, or an empty string.
// The n bytes of a string from a place on.
fn part(s: &[u8], from: usize, n: usize) -> &[u8] {
    s.get(from..).and_then(|rest| rest.get(..n)).unwrap_or(&[])
}

pub(crate) fn number(c: &[u8], at: usize) -> u32 {
    octets::read_u32_be(c, at)
}

pub(crate) fn size(c: &[u8], at: usize) -> usize {
    number(c, at) as usize
}

pub(crate) fn field(c: &[u8], at: usize) -> &[u8] {
    let x = octets::read_u64_be(c, at);
    part(
        c,
        (x / 0x1_0000_0000) as usize,
        (x % 0x1_0000_0000) as usize,
    )
}
