// Changes of a recording's fields: how many there are, and a report of them, four words for each.
#![tactic(auto)]

ghost use Rattle.std.specs.Prelude.{◌≡◌, ◌+◌, ◌≤◌, length};
ghost use Rattle.recording.specs.Written.{Written};
ghost use Rattle.mending_report.specs.Changes.{changed, entry_changes, words};

use recording::Entry;

// 1 where a field's number is another one.
pub fn field_count(old: u64, new: u64) -> usize
    ensures { (result ≡ length (changed 0 0 old new)) × (result ≤ 1) }
{
    usize::from(old != new)
}

// How many fields of an entry change that was e and is f.
pub fn entry_count(e: Entry, f: Entry) -> usize
    ensures { (result ≡ length (entry_changes 0 e f)) × (result ≤ 3) }
{
    let a = field_count(e.offset as u64, f.offset as u64);
    let b = field_count(e.len as u64, f.len as u64);
    let c = field_count(e.direction as u64, f.direction as u64);
    a + b + c
}

// Writes a change; nothing where there is none.
pub fn put_change(out: &mut [u64], at: usize, i: usize, field: u64, old: u64, new: u64) -> usize
    requires { at + length (words (changed i field old new)) ≤ length out.old }
    ensures { Written out.old at out.new result (words (changed i field old new)) }
{
    if old == new {
        return at;
    }
    out[at..at + 4].copy_from_slice(&[i as u64, field, old, new]);
    at + 4
}

// Writes what changes in entry i, which was e and is f.
pub fn put_entry_changes(out: &mut [u64], at: usize, i: usize, e: Entry, f: Entry) -> usize
    requires { at + length (words (entry_changes i e f)) ≤ length out.old }
    ensures { Written out.old at out.new result (words (entry_changes i e f)) }
{
    let j = put_change(out, at, i, 1, e.offset as u64, f.offset as u64);
    let k = put_change(out, j, i, 2, e.len as u64, f.len as u64);
    put_change(out, k, i, 3, e.direction as u64, f.direction as u64)
}
