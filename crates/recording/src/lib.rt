// Recordings of datagrams: the contents table, a reader of it, and whether a recording is well formed.
#![tactic(auto)]

mod reading;

ghost use Rattle.std.specs.Prelude.{◌≡◌, ◌+◌, ◌≤◌, length};
ghost use Rattle.recording.specs.Format.{entry_at, count, place_of, is_good, are_good, is_well_formed};

pub use reading::read_entry;

// The most entries of a recording, and the most bytes of a body.
pub const MAX_ENTRIES: usize = 4096;

pub const MAX_BODY: usize = 65507;

// The highest direction: unknown.
pub const UNKNOWN: u8 = 2;

// An entry of the contents.
#[derive(Clone, Copy)]
pub struct Entry {
    pub offset: u32,
    pub len: u16,
    pub direction: u8,
    pub clock: u64,
}

// The entry whose 15 bytes begin at a place.
pub fn entry_at(s: &[u8], at: usize) -> Entry
    requires { at + 15 ≤ length s.now }
    ensures { result ≡ entry_at s.now at }
{
    Entry {
        offset: octets::read_u32_be(s, at),
        len: octets::read_u16_be(s, at + 4),
        direction: octets::byte_or_zero(s, at + 6),
        clock: octets::read_u64_be(s, at + 7),
    }
}

// How many entries a recording says it has.
pub fn count(s: &[u8]) -> u32
    ensures { result ≡ count s.now }
{
    octets::read_u32_be(s, 0)
}

// Whether an entry is good whose body is to begin at a place.
fn is_good(e: Entry, place: usize) -> bool
    ensures { result ≡ is_good e place }
{
    e.offset as usize == place && e.len as usize <= MAX_BODY && e.direction <= UNKNOWN
}

// Whether all n entries are good, and their bodies end within the recording.
fn are_good(s: &[u8], n: usize) -> bool
    requires { (n ≤ 4096) × (place_of n ≤ length s.now) }
    ensures { result ≡ are_good s.now n 0 (place_of n) }
{
    let mut place: usize = 4 + 15 * n;
    for i in 0..n {
        let e = read_entry(s, 4 + 15 * i);
        if !is_good(e, place) {
            return false;
        }
        place += e.len as usize;
    }
    place <= s.len()
}

pub fn is_well_formed(s: &[u8]) -> bool
    ensures { result ≡ is_well_formed s.now }
{
    if s.len() < 4 {
        return false;
    }
    let n = count(s) as usize;
    n <= MAX_ENTRIES && 4 + 15 * n <= s.len() && are_good(s, n)
}
