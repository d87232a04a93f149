// The salt pool: lent words, one record for each salt behind the method. A salt that is kept is not taken again. Any words
// have a meaning, so nothing here assumes an invariant of the pool.
#![tactic(auto)]

ghost use Rattle.std.specs.Prelude.{◌≡◌, ◌<◌, ◌&&◌, length};
ghost use Rattle.records.specs.Records.{Finds};
ghost use Rattle.salt_pool.specs.Pool.{capacity, pool_words, lawful, make_lawful, made, salt_words, kept, same_salt, salt_place, free_place, meet as meet_of, store as store_of};

use protocol::Method;
pub use records::NotAdmitted;

pub const SALTS: usize = 256;

pub const WORDS: usize = 6;

pub const POOL: usize = 1 + SALTS * WORDS;

// How many seconds past its time a salt is kept.
const KEEP: u64 = 60;

// The words of a record behind the first, which tells whether it is in use.
const TIME: usize = 1;

const SALT_0: usize = 2;

const SALT_1: usize = 3;

const SALT_2: usize = 4;

const SALT_3: usize = 5;

// ---- the records

#[tactic(auto, unfolding(crate::specs::Pool::kept))]
fn is_kept(pool: &[u64], clock: u64, r: usize) -> bool
    requires { (length pool.now ≡ pool_words) × (r < capacity) }
    ensures { result ≡ kept pool.now clock r }
{
    let at = 1 + r * WORDS;
    records::is_current(pool[at], pool[at + TIME], clock, KEEP)
}

// A salt's bytes as words, big-endian.
fn salt_words(salt: &[u8]) -> [u64; 4]
    ensures { result ≡ salt_words salt.now }
{
    [
        octets::read_u64_be(salt, 0),
        octets::read_u64_be(salt, 8),
        octets::read_u64_be(salt, 16),
        octets::read_u64_be(salt, 24),
    ]
}

// Whether record r has the salt, of n bytes.
#[tactic(auto, unfolding(crate::specs::Pool::same_salt))]
fn has_salt(pool: &[u64], r: usize, w: [u64; 4], n: usize) -> bool
    requires { (length pool.now ≡ pool_words) × (r < capacity) }
    ensures { result ≡ same_salt w n pool.now r }
{
    let at = 1 + r * WORDS;
    let first = pool[at + SALT_0] == w[0] && pool[at + SALT_1] == w[1];
    first && (n <= 16 || pool[at + SALT_2] == w[2] && pool[at + SALT_3] == w[3])
}

// Whether record r keeps the salt.
fn keeps(pool: &[u64], clock: u64, r: usize, w: [u64; 4], n: usize) -> bool
    requires { (length pool.now ≡ pool_words) × (r < capacity) }
    ensures { result ≡ (kept pool.now clock r && same_salt w n pool.now r) }
{
    is_kept(pool, clock, r) && has_salt(pool, r, w, n)
}

// The record that keeps the salt.
fn find(pool: &[u64], clock: u64, w: [u64; 4], n: usize) -> Option<usize>
    requires { length pool.now ≡ pool_words }
    ensures { Finds capacity (salt_place pool.now clock w n) result }
{
    (0..SALTS).find(|r| keeps(pool, clock, *r, w, n))
}

// The lowest record that is not kept.
fn find_room(pool: &[u64], clock: u64) -> Option<usize>
    requires { length pool.now ≡ pool_words }
    ensures { Finds capacity (free_place pool.now clock) result }
{
    (0..SALTS).find(|r| !is_kept(pool, clock, *r))
}

// ---- the pool

// Whether the pool has its length and is this method's.
pub fn is_lawful(pool: &[u64], method: u64) -> bool
    ensures { result ≡ lawful pool.now method }
{
    pool.len() == POOL && pool[0] == method
}

// The record for a salt of 16 or 32 bytes that is new. Nothing is written.
pub fn look_up(pool: &[u64], clock: u64, salt: &[u8]) -> Result<usize, NotAdmitted>
    requires { length pool.now ≡ pool_words }
    ensures { result ≡ meet_of pool.now clock salt.now }
{
    if find(pool, clock, salt_words(salt), salt.len()).is_some() {
        return Err(NotAdmitted::Replay);
    }
    find_room(pool, clock).ok_or(NotAdmitted::Full)
}

// Writes a salt into record r, its time the clock. Every other word stays.
pub fn store(pool: &mut [u64], r: usize, clock: u64, salt: &[u8])
    requires { (length pool.old ≡ pool_words) × (r < capacity) }
    ensures { pool.new ≡ store_of pool.old r clock salt.now }
{
    let w = salt_words(salt);
    records::write(pool, 1 + r * WORDS, &[1, clock, w[0], w[1], w[2], w[3]]);
}

// Makes a pool of the lent words: the method and zeros. False, and nothing written, where the length is wrong or there is no
// such method.
pub fn make(method: u64, pool: &mut [u64]) -> bool
    ensures value { result ≡ make_lawful method pool.old }
    ensures pool_after { pool.new ≡ made method pool.old }
{
    if pool.len() != POOL {
        return false;
    }
    match Method::numbered(method) {
        Some(_) => {
            records::clear(pool);
            pool[0] = method;
            true
        }
        None => false,
    }
}
