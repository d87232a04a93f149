// The lines of a comparison, written into a lent buffer. A writer asks for room and gives the place behind what it wrote.
ghost use Rattle.std.specs.Prelude.{◌≡◌, true, ◌∷◌, [], ◌+◌, ◌≤◌, ◌*◌, length};
ghost use Rattle.recording.specs.Format.{is_well_formed};
ghost use Rattle.comparison_text.specs.Decimal.{decimal};
ghost use Rattle.comparison_text.specs.Text.{numbered, ended, header, line_of, lines};
ghost use Rattle.recording.specs.Written.{Written};

use comparison::Difference;

fn put_byte(out: &mut [u8], at: usize, b: u8) -> usize
    requires { at + 1 ≤ length out.old }
    ensures { Written out.old at out.new result (b ∷ []) }
{
    out[at] = b;
    at + 1
}

// Digit by digit: std's printing of a number, of which a clause can say the bytes, makes a String, and there is no heap.
fn put_decimal(out: &mut [u8], at: usize, n: u16) -> usize
    requires { at + length (decimal n) ≤ length out.old }
    ensures { Written out.old at out.new result (decimal n) }
{
    if n < 10 {
        return put_byte(out, at, (48 + n) as u8);
    }
    let next = put_decimal(out, at, n / 10);
    put_byte(out, next, (48 + n % 10) as u8)
}

// A word with a number behind it.
fn put_numbered(out: &mut [u8], at: usize, word: &[u8], n: u16) -> usize
    requires { at + length (numbered word.now n) ≤ length out.old }
    ensures { Written out.old at out.new result (numbered word.now n) }
{
    octets::copy(out, at, word);
    put_decimal(out, at + word.len(), n)
}

// The last number of a line, with its word.
pub fn put_last(out: &mut [u8], at: usize, word: &[u8], n: u16) -> usize
    requires { at + length (ended word.now n) ≤ length out.old }
    ensures { Written out.old at out.new result (ended word.now n) }
{
    let end = put_numbered(out, at, word, n);
    put_byte(out, end, b'\n')
}

pub fn put_header(out: &mut [u8], m: u16, n: u16) -> usize
    requires { 0 + length (header m n) ≤ length out.old }
    ensures { Written out.old 0 out.new result (header m n) }
{
    let end = put_numbered(out, 0, b"entries ", m);
    put_last(out, end, b" ", n)
}

fn put_length(out: &mut [u8], at: usize, i: u16, x: u16, y: u16) -> usize
    requires { at + length (line_of i (Difference.Length x y)) ≤ length out.old }
    ensures { Written out.old at out.new result (line_of i (Difference.Length x y)) }
{
    let j = put_numbered(out, at, b"length ", i);
    let k = put_numbered(out, j, b" ", x);
    put_last(out, k, b" ", y)
}

fn put_differ(out: &mut [u8], at: usize, i: u16, p: u16) -> usize
    requires { at + length (line_of i (Difference.Byte p)) ≤ length out.old }
    ensures { Written out.old at out.new result (line_of i (Difference.Byte p)) }
{
    let end = put_numbered(out, at, b"differ ", i);
    put_last(out, end, b" byte ", p)
}

// The line of a difference; none where there is no difference.
fn put_line(out: &mut [u8], at: usize, i: u16, d: Difference) -> usize
    requires { at + length (line_of i d) ≤ length out.old }
    ensures { Written out.old at out.new result (line_of i d) }
{
    match d {
        Difference::Same => at,
        Difference::Length(x, y) => put_length(out, at, i, x, y),
        Difference::Meta => put_last(out, at, b"meta ", i),
        Difference::Byte(p) => put_differ(out, at, i, p),
        Difference::FirstOnly => put_last(out, at, b"first-only ", i),
        Difference::SecondOnly => put_last(out, at, b"second-only ", i),
    }
}

// The lines of the indices below n.
pub fn put_lines(out: &mut [u8], at: usize, first: &[u8], second: &[u8], n: usize) -> usize
    requires first_value { (is_well_formed first.now ≡ true) × (is_well_formed second.now ≡ true) × (n ≤ 4096) }
    requires n_in_bounds { at + length (lines first.now second.now n) ≤ length out.old }
    ensures { Written out.old at out.new result (lines first.now second.now n) }
{
    let mut end = at;
    for i in 0..n {
        let d = comparison::difference_at(first, second, i);
        end = put_line(out, end, i as u16, d);
    }
    end
}

// ---- how long lines are, by writing them aside

pub fn header_length(m: u16, n: u16) -> usize
    ensures { (result ≡ length (header m n)) × (result ≤ 20) }
{
    let mut line = [0u8; 32];
    put_header(&mut line, m, n)
}

fn line_length(i: u16, d: Difference) -> usize
    requires { length (line_of i d) ≤ 25 }
    ensures { result ≡ length (line_of i d) }
{
    let mut line = [0u8; 32];
    put_line(&mut line, 0, i, d)
}

// Of the lines of the indices below `most`.
pub fn lines_length(first: &[u8], second: &[u8], most: usize) -> usize
    requires { (is_well_formed first.now ≡ true) × (is_well_formed second.now ≡ true) × (most ≤ 4096) }
    ensures { (result ≡ length (lines first.now second.now most)) × (result ≤ 25 * most) }
{
    let mut total: usize = 0;
    for i in 0..most {
        let d = comparison::difference_at(first, second, i);
        total += line_length(i as u16, d);
    }
    total
}
