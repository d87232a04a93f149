// What has been compared.
use crate::case::field;
use std::io;
use std::io::Write;

// How many cases came to each of four things, whose names are in the file's head, and how many differ.
pub(crate) type Tally = [u64; 5];

const DIFFER: usize = 4;

fn add(t: Tally, counter: usize, n: u64) -> Tally {
    let mut sum = t;
    let i = counter.min(DIFFER);
    sum[i] = sum[i].wrapping_add(n);
    sum
}

// With one more case, which counts n times.
pub(crate) fn counted(t: Tally, counter: usize, n: u64, same: bool) -> Tally {
    let sum = add(t, counter, n);
    if same { sum } else { add(sum, DIFFER, 1) }
}

pub(crate) fn sum(a: Tally, b: Tally) -> Tally {
    [
        a[0].wrapping_add(b[0]),
        a[1].wrapping_add(b[1]),
        a[2].wrapping_add(b[2]),
        a[3].wrapping_add(b[3]),
        a[4].wrapping_add(b[4]),
    ]
}

// How many cases came to a thing, unless none did.
fn print_count(rt: &impl Print, n: u64, name: &[u8]) -> io::Result<()> {
    if n > 0 {
        print!(rt; "{n}")?;
        io::writer(rt).write_all(name)?;
    }
    Ok(())
}

fn print_counts(rt: &impl Print, head: &[u8], t: Tally) -> io::Result<()> {
    for (i, n) in t.iter().take(DIFFER).enumerate() {
        print_count(rt, *n, field(head, 16 + 8 * i))?;
    }
    Ok(())
}

// A line: a title, the counts, and how many differ.
pub(crate) fn print(rt: &impl Print, head: &[u8], title: &[u8], t: Tally) -> io::Result<()> {
    io::writer(rt).write_all(title)?;
    print_counts(rt, head, t)?;
    println!(rt; "{} differ", t[DIFFER])
}
