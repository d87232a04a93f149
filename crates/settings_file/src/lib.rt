// A file of settings: the contents table, whether it is well made, and where a setting stands.
#![tactic(auto)]

ghost use Rattle.std.specs.Prelude.{◌≡◌, ◌≤◌, ◌<◌, length, IfSome};
ghost use Rattle.settings_rules.specs.Contents.{is_lawful, all_lawful, index_of, first_unknown};
ghost use Rattle.settings_file.specs.Format.{edition, count, place_of, entry_at, entry, hash_place, contents_of, InRow, follow, is_in_row, is_well_made};

use settings_rules::{is_lawful, is_unknown};

// The bytes of the hash at a file's end.
pub const HASH: usize = 32;

// The shortest and the longest file.
pub const MIN_FILE: usize = 36;

pub const MAX_FILE: usize = 65535;

// An entry of the contents.
#[derive(Clone, Copy)]
pub struct Entry {
    pub number: u16,
    pub offset: u16,
    pub len: u16,
}

pub fn edition(s: &[u8]) -> u16
    ensures { result ≡ edition s.now }
{
    octets::read_u16_be(s, 0)
}

// How many settings the file says it has.
pub fn count(s: &[u8]) -> u16
    ensures { result ≡ count s.now }
{
    octets::read_u16_be(s, 2)
}

fn entry_at(s: &[u8], at: usize) -> Entry
    requires { at ≤ 1000000 }
    ensures { result ≡ entry_at s.now at }
{
    Entry {
        number: octets::read_u16_be(s, at),
        offset: octets::read_u16_be(s, at + 2),
        len: octets::read_u16_be(s, at + 4),
    }
}

// Entry i of the contents.
pub fn read_entry(s: &[u8], i: usize) -> Entry
    requires { i < 65536 }
    ensures { result ≡ entry s.now i }
{
    entry_at(s, 4 + 6 * i)
}

// Whether n bodies follow each other from a place up to the hash.
fn bodies_follow(s: &[u8], n: usize) -> bool
    requires n_bound { n < 65536 }
    requires in_bounds { 32 ≤ length s.now }
    ensures { result ≡ follow s.now n 0 (place_of n) }
{
    let mut place: usize = 4 + 6 * n;
    for i in 0..n {
        let e = read_entry(s, i);
        if e.offset as usize != place {
            return false;
        }
        place += e.len as usize;
    }
    place == s.len() - HASH
}

fn is_in_row(s: &[u8]) -> bool
    ensures { result ≡ is_in_row s.now }
{
    let n = count(s) as usize;
    4 + 6 * n + HASH <= s.len() && bodies_follow(s, n)
}

// Whether setting i, whose number is to be at least `least`, may have the body that it has.
fn is_lawful_at(s: &[u8], e: Entry, i: usize, least: u64) -> bool
    requires in_row { InRow s.now }
    requires i_bound { i < count s.now }
    requires e_value { e ≡ entry s.now i }
    ensures { result ≡ is_lawful (contents_of s.now) i least }
{
    if (e.number as u64) < least {
        return false;
    }
    let at = e.offset as usize;
    let end = at + e.len as usize;
    is_lawful(e.number as u64, &s[at..end])
}

// Whether numbers rise and the bodies are lawful.
fn are_lawful(s: &[u8]) -> bool
    requires { InRow s.now }
    ensures { result ≡ all_lawful (contents_of s.now) }
{
    let n = count(s) as usize;
    let mut least: u64 = 0;
    for i in 0..n {
        let e = read_entry(s, i);
        if !is_lawful_at(s, e, i, least) {
            return false;
        }
        least = e.number as u64 + 1;
    }
    true
}

// Whether the contents and bodies are as they have to be.
#[tactic(auto, unfolding(crate::specs::Format::is_well_made))]
pub fn is_well_made(s: &[u8]) -> bool
    ensures { result ≡ is_well_made s.now }
{
    is_in_row(s) && are_lawful(s)
}

// The setting of a number.
pub fn find(s: &[u8], number: u64) -> Option<usize>
    ensures value { result ≡ index_of (contents_of s.now) number }
    ensures bound { IfSome result (λ i. i < 65536) }
{
    (0..count(s) as usize).find(|i| read_entry(s, *i).number as u64 == number)
}

// The first setting whose number is unknown.
pub fn find_unknown(s: &[u8]) -> Option<usize>
    ensures value { result ≡ first_unknown (contents_of s.now) }
    ensures bound { IfSome result (λ i. i < 65536) }
{
    (0..count(s) as usize).find(|i| is_unknown(read_entry(s, *i).number as u64))
}
