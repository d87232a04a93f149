// Mends a damaged recording and reports what it changed. Nothing is written before the report is known to have room.
#![tactic(auto)]

ghost use Rattle.std.specs.Prelude.{◌≡◌, ◌+◌, ◌-◌, ◌*◌, ◌<◌, ◌≤◌, length};
ghost use Rattle.recording.specs.Format.{place_of};
ghost use Rattle.recording.specs.Written.{Written};
ghost use Rattle.mending.specs.Mend.{mended_count, mended_entry, put_entry, put_count, mended_from, mended};
ghost use Rattle.mending.specs.Report.{report_from, report, words, refusal};

use recording::{Entry, MAX_BODY, MAX_ENTRIES, UNKNOWN};

// Numbers of refusals: a file that is too short, and a report that is. Numbers and no enum: what `refusal` of specs/Report.antt
// promises, and what C is told.
const LENGTH: u64 = 2;

const ROOM: u64 = 3;

// The count after mending.
fn mended_count(s: &[u8]) -> usize
    requires { 4 ≤ length s.now }
    ensures { result ≡ mended_count s.now }
{
    let fit = MAX_ENTRIES.min((s.len() - 4) / 15);
    fit.min(recording::count(s) as usize)
}

// An entry after mending, whose body is to begin at a place of a file of so many bytes.
fn mended_entry(e: Entry, place: usize, size: usize) -> Entry
    requires { (place ≤ size) × (place < 4294967296) }
    ensures { result ≡ mended_entry e place size }
{
    let len = MAX_BODY.min(e.len as usize).min(size - place);
    Entry {
        offset: place as u32,
        len: len as u16,
        direction: e.direction.min(UNKNOWN),
        ..e
    }
}

fn put_count(s: &mut [u8], n: usize)
    requires { (4 ≤ length s.old) × (n ≤ 4096) }
    ensures { s.new ≡ put_count s.old n }
{
    octets::copy(s, 0, &u32::to_be_bytes(n as u32));
}

// Writes an entry's offset, length and direction.
fn put_entry(s: &mut [u8], at: usize, e: Entry)
    requires { at + 15 ≤ length s.old }
    ensures { s.new ≡ put_entry s.old at e }
{
    octets::copy(s, at, &u32::to_be_bytes(e.offset));
    octets::write_u16_be(s, at + 4, e.len);
    s[at + 6] = e.direction;
}

// How many fields of n entries change.
fn count_changes(s: &[u8], n: usize) -> usize
    requires { (n ≤ 4096) × (place_of n ≤ length s.now) }
    ensures { (result ≡ length (report_from n s.now 0 (place_of n))) × (result ≤ 3 * n) }
{
    let mut place: usize = 4 + 15 * n;
    let mut total: usize = 0;
    for i in 0..n {
        let old = recording::read_entry(s, 4 + 15 * i);
        let new = mended_entry(old, place, s.len());
        total += mending_report::entry_count(old, new);
        place += new.len as usize;
    }
    total
}

// Mends n entries and writes what changes behind what stands in the report.
fn mend_entries(s: &mut [u8], n: usize, out: &mut [u64], at: usize) -> usize
    requires n_bound { (n ≤ 4096) × (place_of n ≤ length s.old) }
    requires n_in_bounds { at + length (words (report_from n s.old 0 (place_of n))) ≤ length out.old }
    ensures s_after { s.new ≡ mended_from n s.old 0 (place_of n) }
    ensures written { Written out.old at out.new result (words (report_from n s.old 0 (place_of n))) }
{
    let mut place: usize = 4 + 15 * n;
    let mut end = at;
    for i in 0..n {
        let e = recording::read_entry(s, 4 + 15 * i);
        let f = mended_entry(e, place, s.len());
        end = mending_report::put_entry_changes(out, end, i, e, f);
        put_entry(s, 4 + 15 * i, f);
        place += f.len as usize;
    }
    end
}

// How many words the report of a file has, of 4 bytes at least.
fn due(s: &[u8]) -> usize
    requires { 4 ≤ length s.now }
    ensures { result ≡ length (words (report s.now)) }
{
    let n = mended_count(s);
    let first = mending_report::field_count(recording::count(s) as u64, n as u64);
    4 * (first + count_changes(s, n))
}

// 0 where a file is mended, with so many words of room for its report, else the number of the refusal.
pub fn refusal(s: &[u8], words: usize) -> u64
    ensures { result ≡ refusal s.now words }
{
    if s.len() < 4 {
        return LENGTH;
    }
    if words < due(s) {
        return ROOM;
    }
    0
}

// Mends a file of 4 bytes at least, writes the report and gives the number of changes; asks for room for the report.
pub fn mend(s: &mut [u8], out: &mut [u64]) -> usize
    requires in_bounds { 4 ≤ length s.old }
    requires s_in_bounds { length (words (report s.old)) ≤ length out.old }
    ensures value { result ≡ length (report s.old) }
    ensures s_after { s.new ≡ mended s.old }
    ensures written { Written out.old 0 out.new (4 * result) (words (report s.old)) }
{
    let n = mended_count(s);
    let at = mending_report::put_change(out, 0, 4096, 0, recording::count(s) as u64, n as u64);
    put_count(s, n);
    let end = mend_entries(s, n, out, at);
    end / 4
}
