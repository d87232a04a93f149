// One session by value: what is fresh in it, and what it is after it accepted a packet ID.
#![tactic(auto)]

ghost use Rattle.std.specs.Prelude.{◌≡◌, true};
ghost use Rattle.session_record.specs.Record.{record_of, fresh_in, one_more, accept_in, new_record};

use session_window::{WINDOW, is_marked, shifted, with_mark};

// A caller's address: two numbers and a port.
#[derive(Clone, Copy)]
pub struct Peer {
    pub first: u64,
    pub second: u64,
    pub port: u16,
}

// One record. Bit i of marks[k] marks packet ID high - 64 k - i. The counts are those since the session began.
#[derive(Clone, Copy)]
pub struct Session {
    pub used: u64,
    pub id: u64,
    pub high: u64,
    pub last: u64,
    pub marks: [u64; 4],
    pub peer: Peer,
    pub accepted: u64,
    pub repeats: u64,
}

// Whether p is above the window, or in it and not marked.
pub fn is_fresh(s: Session, p: u64) -> bool
    ensures { result ≡ fresh_in (record_of s) p }
{
    if s.high < p {
        return true;
    }
    let d = s.high - p;
    d < WINDOW && !is_marked(s.marks, d)
}

// One more, up to the largest count.
pub fn one_more(n: u64) -> u64
    ensures { result ≡ one_more n }
{
    n.saturating_add(1)
}

// The session after it accepted p.
pub fn accept(s: Session, p: u64, clock: u64, peer: Peer) -> Session
    requires { fresh_in (record_of s) p ≡ true }
    ensures { record_of result ≡ accept_in clock peer p (record_of s) }
{
    let marks = if s.high < p {
        shifted(s.marks, p - s.high)
    } else {
        with_mark(s.marks, s.high - p)
    };
    Session {
        high: s.high.max(p),
        last: s.last.max(clock),
        marks,
        peer,
        accepted: one_more(s.accepted),
        ..s
    }
}

// A session that begins with p.
pub fn begin(id: u64, p: u64, clock: u64, peer: Peer) -> Session
    ensures { record_of result ≡ new_record clock peer id p }
{
    Session {
        used: 1,
        id,
        high: p,
        last: clock,
        marks: [1, 0, 0, 0],
        peer,
        accepted: 1,
        repeats: 0,
    }
}
