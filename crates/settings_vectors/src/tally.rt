// What has been compared.
use std::io;
use std::io::Write;

// How many cases there are, and how many of them differ.
pub(crate) type Tally = [u64; 2];

// With one more case.
pub(crate) fn counted(t: Tally, same: bool) -> Tally {
    sum(t, [1, !same as u64])
}

pub(crate) fn sum(a: Tally, b: Tally) -> Tally {
    [a[0].wrapping_add(b[0]), a[1].wrapping_add(b[1])]
}

// A line: a title, how many cases, and how many differ.
pub(crate) fn print(rt: &impl Print, title: &[u8], t: Tally) -> io::Result<()> {
    io::writer(rt).write_all(title)?;
    println!(rt; "{} cases, {} differ", t[0], t[1])
}
