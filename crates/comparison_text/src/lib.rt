// Two recordings side by side, as text: a line with both counts, then one for each index that differs.
#![tactic(auto)]

mod lines;

ghost use Rattle.std.specs.Prelude.{◌≡◌, true, ◌≤◌, length};
ghost use Rattle.recording.specs.Format.{is_well_formed};
ghost use Rattle.comparison_text.specs.Text.{refusal, text, printed};
ghost use Rattle.recording.specs.Written.{Written};

// The longest file that is compared.
pub const MAX_FILE: usize = 32768;

// Numbers of refusals: a file that is too long, and one that is no well-formed recording. Numbers and no enum: what `refusal` of
// specs/Text.antt promises, and what C is told.
const LENGTH: u64 = 2;

const MALFORMED: u64 = 5;

// 0 where two files are compared, else the number of the refusal.
pub fn refusal(first: &[u8], second: &[u8]) -> u64
    ensures { result ≡ refusal first.now second.now }
{
    if first.len() > MAX_FILE || second.len() > MAX_FILE {
        return LENGTH;
    }
    if !recording::is_well_formed(first) || !recording::is_well_formed(second) {
        return MALFORMED;
    }
    0
}

// How long the text of two well-formed recordings is.
pub fn text_length(first: &[u8], second: &[u8]) -> usize
    requires { (is_well_formed first.now ≡ true) × (is_well_formed second.now ≡ true) }
    ensures { result ≡ length (text first.now second.now) }
{
    let m = recording::count(first) as usize;
    let n = recording::count(second) as usize;
    lines::header_length(m as u16, n as u16) + lines::lines_length(first, second, m.max(n))
}

// Writes the text of two well-formed recordings to the front of a buffer.
pub fn write_text(first: &[u8], second: &[u8], out: &mut [u8]) -> usize
    requires first_value { (is_well_formed first.now ≡ true) × (is_well_formed second.now ≡ true) }
    requires second_in_bounds { length (text first.now second.now) ≤ length out.old }
    ensures { Written out.old 0 out.new result (text first.now second.now) }
{
    let m = recording::count(first) as usize;
    let n = recording::count(second) as usize;
    let end = lines::put_header(out, m as u16, n as u16);
    lines::put_lines(out, end, first, second, m.max(n))
}

// What the program prints of two files, at the front of a buffer of 65,536 bytes at least. A file that cannot be read is refused
// as one that is too long. A flag and no Option: what `printed` of specs/Text.antt takes.
pub fn print(readable: bool, first: &[u8], second: &[u8], out: &mut [u8]) -> usize
    requires { 65536 ≤ length out.old }
    ensures { Written out.old 0 out.new result
        (printed readable first.now second.now) }
{
    if !readable {
        return lines::put_last(out, 0, b"refused ", LENGTH as u16);
    }
    let refused = refusal(first, second);
    if refused != 0 {
        return lines::put_last(out, 0, b"refused ", refused as u16);
    }
    write_text(first, second, out)
}
