// The session table: lent words, one record for each session behind the retention. Any words have a meaning, so nothing here
// assumes an invariant of the table.
#![tactic(auto)]

ghost use Rattle.std.specs.Prelude.{◌≡◌, ◌<◌, length, None, Some};
ghost use Rattle.records.specs.Records.{Finds};
ghost use Rattle.session_record.specs.Record.{record_of};
ghost use Rattle.session_table.specs.Sizes.{capacity};
ghost use Rattle.session_table.specs.Table.{table_words, retention, lawful, make_lawful, made, record_at, words_of, store as store_of, repeated, live, holds as holds_of, session_place, taken, free_place, meet_by, meet, keep, admitted};

pub use records::NotAdmitted;
pub use session_record::Peer;
use session_record::{Session, accept, begin, is_fresh, one_more};

pub const SESSIONS: usize = 64;

pub const WORDS: usize = 13;

pub const TABLE: usize = 1 + SESSIONS * WORDS;

// The words of a record behind the first, which tells whether it is in use.
const ID: usize = 1;

const HIGH: usize = 2;

const LAST: usize = 3;

const MARKS_0: usize = 4;

const MARKS_1: usize = 5;

const MARKS_2: usize = 6;

const MARKS_3: usize = 7;

const PEER_FIRST: usize = 8;

const PEER_SECOND: usize = 9;

const PORT: usize = 10;

const ACCEPTED: usize = 11;

const REPEATS: usize = 12;

// ---- the table

fn is_alive(table: &[u64], clock: u64, r: usize) -> bool
    requires { (length table.now ≡ table_words) × (r < capacity) }
    ensures { result ≡ live (retention table.now) clock (record_at table.now r) }
{
    let at = 1 + r * WORDS;
    records::is_current(table[at], table[at + LAST], clock, table[0])
}

fn holds(table: &[u64], clock: u64, r: usize, id: u64) -> bool
    requires { (length table.now ≡ table_words) × (r < capacity) }
    ensures { result ≡ holds_of (retention table.now) clock id (record_at table.now r) }
{
    is_alive(table, clock, r) && table[1 + r * WORDS + ID] == id
}

// The record that holds the session with this ID.
fn find(table: &[u64], clock: u64, id: u64) -> Option<usize>
    requires { length table.now ≡ table_words }
    ensures { Finds capacity (session_place table.now clock id) result }
{
    (0..SESSIONS).find(|r| holds(table, clock, *r, id))
}

// Whether a session of this ID is alive.
pub fn is_taken(table: &[u64], clock: u64, id: u64) -> bool
    requires { length table.now ≡ table_words }
    ensures { result ≡ taken table.now clock id }
{
    find(table, clock, id).is_some()
}

// The lowest record that is not alive.
fn find_room(table: &[u64], clock: u64) -> Option<usize>
    requires { length table.now ≡ table_words }
    ensures { Finds capacity (free_place table.now clock) result }
{
    (0..SESSIONS).find(|r| !is_alive(table, clock, *r))
}

fn load(table: &[u64], r: usize) -> Session
    requires { (length table.now ≡ table_words) × (r < capacity) }
    ensures { record_of result ≡ record_at table.now r }
{
    let at = 1 + r * WORDS;
    let marks = [
        table[at + MARKS_0],
        table[at + MARKS_1],
        table[at + MARKS_2],
        table[at + MARKS_3],
    ];
    let peer = Peer {
        first: table[at + PEER_FIRST],
        second: table[at + PEER_SECOND],
        port: (table[at + PORT] % 65536) as u16,
    };
    Session {
        used: table[at],
        id: table[at + ID],
        high: table[at + HIGH],
        last: table[at + LAST],
        marks,
        peer,
        accepted: table[at + ACCEPTED],
        repeats: table[at + REPEATS],
    }
}

fn words_of(s: Session) -> [u64; WORDS]
    ensures { result ≡ words_of (record_of s) }
{
    let m = s.marks;
    let peer = s.peer;
    [
        s.used,
        s.id,
        s.high,
        s.last,
        m[0],
        m[1],
        m[2],
        m[3],
        peer.first,
        peer.second,
        peer.port as u64,
        s.accepted,
        s.repeats,
    ]
}

// Writes the session into record r. Every other word stays.
fn store(table: &mut [u64], r: usize, s: Session)
    requires { (length table.old ≡ table_words) × (r < capacity) }
    ensures { table.new ≡ store_of table.old r (record_of s) }
{
    let ws = words_of(s);
    records::write(table, 1 + r * WORDS, &ws);
}

// Counts a repeat in record r. Every other word stays, the port's high bits too.
fn count_repeat(table: &mut [u64], r: usize)
    requires { (length table.old ≡ table_words) × (r < capacity) }
    ensures { table.new ≡ repeated table.old r }
{
    let at = 1 + r * WORDS + REPEATS;
    let repeats = one_more(table[at]);
    table[at] = repeats;
}

pub fn is_lawful(table: &[u64]) -> bool
    ensures { result ≡ lawful table.now }
{
    table.len() == TABLE && retention::in_range(table[0])
}

// ---- one packet

// Packet p in the session of record r: what it meets there depends on no ID and on no free record.
fn admit_known(
    table: &mut [u64],
    r: usize,
    clock: u64,
    p: u64,
    peer: Peer,
) -> Result<(), NotAdmitted>
    requires { (length table.old ≡ table_words) × (r < capacity) }
    ensures value { result ≡ admitted (meet_by (Some r) None table.old clock peer 0 p) }
    ensures table_after { table.new ≡ keep (meet_by (Some r) None table.old clock peer 0 p) table.old }
{
    let s = load(table, r);
    if is_fresh(s, p) {
        store(table, r, accept(s, p, clock, peer));
        return Ok(());
    }
    count_repeat(table, r);
    Err(NotAdmitted::Replay)
}

// Packet p where no alive session has the ID.
fn admit_new(table: &mut [u64], clock: u64, id: u64, p: u64, peer: Peer) -> Result<(), NotAdmitted>
    requires { length table.old ≡ table_words }
    ensures value { result ≡ admitted (meet_by None (free_place table.old clock) table.old clock peer id p) }
    ensures table_after { table.new
        ≡ keep (meet_by None (free_place table.old clock) table.old clock peer id p)
        table.old }
{
    let r = find_room(table, clock).ok_or(NotAdmitted::Full)?;
    store(table, r, begin(id, p, clock, peer));
    Ok(())
}

// Accepts packet p of the session with this ID, or refuses it: a repeat is counted in its session, and where there is no room
// the table stays as it was.
pub fn admit(table: &mut [u64], clock: u64, id: u64, p: u64, peer: Peer) -> Result<(), NotAdmitted>
    requires { length table.old ≡ table_words }
    ensures value { result ≡ admitted (meet table.old clock peer id p) }
    ensures table_after { table.new ≡ keep (meet table.old clock peer id p) table.old }
{
    match find(table, clock, id) {
        Some(r) => admit_known(table, r, clock, p, peer),
        None => admit_new(table, clock, id, p, peer),
    }
}

// ---- making

// Makes a table of the lent words: the retention, the default for 0, and zeros. False, and nothing written, where the length is
// wrong or the retention is neither 0 nor in its range.
pub fn make(retention: u64, table: &mut [u64]) -> bool
    ensures value { result ≡ make_lawful retention table.old }
    ensures table_after { table.new ≡ made retention table.old }
{
    if table.len() != TABLE || !retention::is_lawful(retention) {
        return false;
    }
    let made = retention::made(retention);
    records::clear(table);
    table[0] = made;
    true
}
