// Opening the front of a request's head of SIP022, section 3.1, on a salt pool: the salt and the fixed header. Its variable header
// is another call's, of crate `stream_open_variable`, on the stream that this one hands on.
#![tactic(auto)]

ghost use Rattle.std.specs.Prelude.{◌≡◌, ◌≤◌, length};
ghost use Rattle.salt_pool.specs.Pool.{pool_words, meet};
ghost use Rattle.stream_pieces.specs.PieceKeys.{keyed_of};
ghost use Rattle.stream_heads.specs.Heads.{front_length};
ghost use Rattle.stream_open_request.specs.Requests.{met_as, stored_in, read_front, front_pool, settings, opened_request, request_pool};

use protocol::Refusal;
use salt_pool::NotAdmitted;
use stream_heads::{Fixed, open_fixed};
use stream_open::{Receiver, Turn};
use stream_pieces::{FIXED, FIXED_PIECE, PieceKey, derive};

// What the front of a request's head says: its time, and the length of the variable header behind it. So many bytes were used.
#[derive(Clone, Copy)]
pub struct Request {
    pub time: u64,
    pub length: u16,
    pub used: usize,
}

// Stores a salt that is new, its time the clock: refusals 8 and 9, in this order, or the fixed header.
fn store_if_new(fixed: Fixed, clock: u64, salt: &[u8], pool: &mut [u64]) -> Result<Fixed, Refusal>
    requires { length pool.old ≡ pool_words }
    ensures value { result ≡ met_as (meet pool.old clock salt.now) fixed }
    ensures pool_after { pool.new
        ≡ stored_in (meet pool.old clock salt.now) clock salt.now pool.old }
{
    match salt_pool::look_up(pool, clock, salt) {
        Ok(place) => {
            salt_pool::store(pool, place, clock, salt);
            Ok(fixed)
        }
        Err(NotAdmitted::Replay) => Err(Refusal::Replay),
        Err(NotAdmitted::Full) => Err(Refusal::Full),
    }
}

// The front of a head whose salt is as long as the key, behind refusals 1 and 10. The pool is asked, and the salt stored, once
// the fixed header is good.
fn read_front(key: PieceKey, clock: u64, s: &[u8], pool: &mut [u64]) -> Result<Fixed, Refusal>
    requires n_in_bounds { front_length key.length 0 ≤ length s.now }
    requires pool_len { length pool.old ≡ pool_words }
    ensures value { result ≡ read_front (keyed_of key) clock key.length s.now pool.old }
    ensures pool_after { pool.new ≡ front_pool (keyed_of key) clock key.length s.now pool.old }
{
    let mut plain = [0u8; FIXED];
    let n = key.length;
    let fixed = open_fixed(key, 0, clock, &s[n..n + FIXED_PIECE], &mut plain)?;
    store_if_new(fixed, clock, &s[..n], pool)
}

fn settings_fit(method: u64, key: usize, pool: &[u64]) -> bool
    ensures { result ≡ settings method key pool.now }
{
    protocol::key_fits(method, key) && salt_pool::is_lawful(pool, method)
}

// Opens the front of a request's head, for a server: what it says, with the stream at the turn of its variable header, or a
// refusal in the order 1, 10, 4, 6, 7, 8, 9. Bytes behind the front are not read. The salt of what is accepted enters the pool and
// stays there, whatever the variable header turns out to be; a refusal writes nothing.
pub fn open_request(
    method: u64,
    key: &[u8],
    clock: u64,
    s: &[u8],
    pool: &mut [u64],
) -> Result<(Request, Receiver), Refusal>
    ensures value { result ≡ opened_request method key.now clock s.now pool.old }
    ensures pool_after { pool.new ≡ request_pool method key.now clock s.now pool.old }
{
    if !settings_fit(method, key.len(), pool) {
        return Err(Refusal::Settings);
    }
    let n = protocol::salt_length(method);
    let used = n + FIXED_PIECE;
    if s.len() < used {
        return Err(Refusal::More(used as u64));
    }
    let subkey = derive(key, &s[..n]);
    let key = PieceKey {
        cipher: protocol::cipher_of(method),
        subkey,
        length: n,
    };
    let fixed = read_front(key, clock, s, pool)?;
    let head = Request {
        time: fixed.time,
        length: fixed.length,
        used,
    };
    let stream = Receiver {
        method,
        turn: Turn::Variable(fixed.length),
        counter: 1,
        subkey,
    };
    Ok((head, stream))
}
