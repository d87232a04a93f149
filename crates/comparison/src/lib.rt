// What differs between two recordings, index by index.
#![tactic(auto)]

ghost use Rattle.std.specs.Prelude.{◌≡◌, true, ◌+◌, ◌-◌, ◌≤◌, length};
ghost use Rattle.recording.specs.Format.{is_well_formed};
ghost use Rattle.comparison.specs.Differences.{agree, bodies, between, difference_at};

use recording::Entry;

// What differs at an index: both lengths, direction or clock, the first byte, or that only one has an entry there.
#[derive(Clone, Copy)]
pub enum Difference {
    Same,
    Length(u16, u16),
    Meta,
    Byte(u16),
    FirstOnly,
    SecondOnly,
}

// The same of whole eights, as far as all of one agrees: what is left is for the bytes one by one. Byte by byte, two long bodies took half as
// long again where the loop lay across a line of the processor's code.
fn agreeing_eights(a: &[u8], i: usize, b: &[u8], j: usize, n: usize) -> usize
    requires { (i + n ≤ length a.now) × (j + n ≤ length b.now) }
    ensures { (result ≤ n) × (result + agree (n - result) a.now (i + result) b.now (j + result) ≡ agree n a.now i b.now j) }
{
    // An index: each string is read at it from a place of its own.
    for k in 0..n / 8 {
        if octets::load_u64_be(a, i + 8 * k) != octets::load_u64_be(b, j + 8 * k) {
            return 8 * k;
        }
    }
    n / 8 * 8
}

// How many of n bytes, of a from i on and of b from j on, agree before the first that differ.
fn agreeing(a: &[u8], i: usize, b: &[u8], j: usize, n: usize) -> usize
    requires { (i + n ≤ length a.now) × (j + n ≤ length b.now) }
    ensures { result ≡ agree n a.now i b.now j }
{
    let start = agreeing_eights(a, i, b, j, n);
    // An index: it is the answer, and each string is read at it from a place of its own.
    for p in start..n {
        if a[i + p] != b[j + p] {
            return p;
        }
    }
    n
}

// Of two bodies of n bytes that agree in p bytes.
fn of_bodies(n: u16, p: usize) -> Difference
    ensures { result ≡ bodies n p }
{
    if p < n as usize {
        Difference::Byte(p as u16)
    } else {
        Difference::Same
    }
}

// Of an entry of a and an entry of b.
fn of_entries(a: &[u8], e: Entry, b: &[u8], f: Entry) -> Difference
    requires { (e.offset + e.len ≤ length a.now) × (f.offset + f.len ≤ length b.now) }
    ensures { result ≡ between a.now e b.now f }
{
    if e.len != f.len {
        return Difference::Length(e.len, f.len);
    }
    if e.direction != f.direction || e.clock != f.clock {
        return Difference::Meta;
    }
    let p = agreeing(a, e.offset as usize, b, f.offset as usize, e.len as usize);
    of_bodies(e.len, p)
}

// At index i of two well-formed recordings.
pub fn difference_at(a: &[u8], b: &[u8], i: usize) -> Difference
    requires { (is_well_formed a.now ≡ true) × (is_well_formed b.now ≡ true) }
    ensures { result ≡ difference_at a.now b.now i }
{
    let m = recording::count(a) as usize;
    let n = recording::count(b) as usize;
    match (i < m, i < n) {
        (true, true) => {
            let place = 4 + 15 * i;
            let e = recording::read_entry(a, place);
            let f = recording::read_entry(b, place);
            of_entries(a, e, b, f)
        }
        (true, false) => Difference::FirstOnly,
        (false, true) => Difference::SecondOnly,
        (false, false) => Difference::Same,
    }
}
