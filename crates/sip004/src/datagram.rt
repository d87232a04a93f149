// Datagrams: [salt][encrypted payload][tag].
ghost use Rattle.std.specs.Prelude.{◌≡◌, cond, ◌+◌, ◌-◌, ◌<◌, ◌≤◌, length};
ghost use Rattle.octets.specs.Buffers.{put};
ghost use Rattle.aes.specs.Keyed.{nk_of};
ghost use Rattle.sip004.specs.Method.{max_key};
ghost use Rattle.sip004.specs.Datagram.{max_datagram, overhead, datagram as datagram_of, length_answer, seal_answer, seal_out, due_answer, lawful_answer, body_authentic, payload_of, open_answer, open_out};

use super::{MAX_KEY, derive_subkey, key_fits, settings_fit};
use datagram_parts::MAX_DATAGRAM;
use gcm::TAG;
use protocol::Refusal;

// Every datagram's nonce: a subkey seals one datagram.
const NONCE: [u8; 12] = [0; 12];

// ---- sealing

// Refusals 2 and 3, in this order, or the length.
#[tactic(auto, unfolding(crate::specs::Datagram::length_answer))]
fn length_answer(salt: usize, payload: usize, room: usize) -> Result<usize, Refusal>
    requires { salt ≤ max_key }
    ensures { result ≡ length_answer (payload + overhead salt) room }
{
    if payload > MAX_DATAGRAM {
        return Err(Refusal::Length);
    }
    let n = payload + (salt + TAG);
    if n > MAX_DATAGRAM {
        return Err(Refusal::Length);
    }
    if n > room {
        return Err(Refusal::Room);
    }
    Ok(n)
}

// What sealing answers, from the lengths of what is lent: refusals 1, 2 and 3, in this order, or the length.
#[tactic(auto, unfolding(crate::specs::Datagram::seal_answer))]
fn seal_answer(
    method: u64,
    key: usize,
    salt: usize,
    payload: usize,
    room: usize,
) -> Result<usize, Refusal>
    ensures { result ≡ seal_answer method key salt payload room }
{
    if !settings_fit(method, key, salt) {
        return Err(Refusal::Settings);
    }
    length_answer(salt, payload, room)
}

// The datagram of n bytes, to the front of a buffer with room for it. The payload is encrypted where it is to stand.
fn write_datagram(out: &mut [u8], n: usize, key: &[u8], salt: &[u8], payload: &[u8])
    requires nonzero { 0 < nk_of (length key.now) }
    requires salt_len { length salt.now ≡ length key.now }
    requires n_value { n ≡ length payload.now + overhead (length salt.now) }
    requires n_le_max_datagram { n ≤ max_datagram }
    requires n_in_bounds { n ≤ length out.old }
    ensures { out.new
        ≡ put out.old 0 (datagram_of key.now salt.now payload.now) }
{
    let at = key.len();
    let mut subkey = [0u8; MAX_KEY];
    derive_subkey(key, salt, &mut subkey);
    octets::copy(out, 0, salt);
    gcm::seal(&subkey[..at], &NONCE, payload, &mut out[at..n]);
}

// Seals a payload under a key and a fresh salt. Refused with 1 (method, or length of key or salt), 2 (over the longest datagram) or 3
// (no room), with nothing written.
pub fn seal(
    method: u64,
    key: &[u8],
    salt: &[u8],
    payload: &[u8],
    out: &mut [u8],
) -> Result<usize, Refusal>
    ensures value { result
        ≡ seal_answer method (length key.now) (length salt.now) (length payload.now) (length out.old) }
    ensures out_after { out.new
        ≡ seal_out result (datagram_of key.now salt.now payload.now) out.old }
{
    let n = seal_answer(method, key.len(), salt.len(), payload.len(), out.len())?;
    write_datagram(out, n, key, salt, payload);
    Ok(n)
}

// ---- opening

// Refusals 2 and 3, in this order, or the payload's length.
#[tactic(auto, unfolding(crate::specs::Datagram::due_answer))]
fn due_answer(key: usize, datagram: usize, room: usize) -> Result<usize, Refusal>
    requires { key ≤ max_key }
    ensures { result ≡ due_answer key datagram room }
{
    if datagram < key + TAG {
        return Err(Refusal::Length);
    }
    if datagram > MAX_DATAGRAM {
        return Err(Refusal::Length);
    }
    let due = datagram - (key + TAG);
    if due > room {
        return Err(Refusal::Room);
    }
    Ok(due)
}

// What opening answers, from the lengths of what is lent: refusals 1, 2 and 3, in this order, or the payload's length.
#[tactic(auto, unfolding(crate::specs::Datagram::lawful_answer))]
fn lawful_answer(method: u64, key: usize, datagram: usize, room: usize) -> Result<usize, Refusal>
    ensures { result ≡ lawful_answer method key datagram room }
{
    if !key_fits(method, key) {
        return Err(Refusal::Settings);
    }
    due_answer(key, datagram, room)
}

// Opens a datagram to the front of a buffer: whether its tag is good; if not, nothing is written.
fn open_body(key: &[u8], datagram: &[u8], out: &mut [u8]) -> bool
    requires nonzero { 0 < nk_of (length key.now) }
    requires key_in_bounds { overhead (length key.now) ≤ length datagram.now }
    requires datagram_len_bound { length datagram.now ≤ max_datagram }
    requires key_in_bounds_2 { length datagram.now - overhead (length key.now) ≤ length out.old }
    ensures value { result ≡ body_authentic key.now datagram.now }
    ensures out_after { out.new
        ≡ cond result (put out.old 0 (payload_of key.now datagram.now)) out.old }
{
    let at = key.len();
    let mut subkey = [0u8; MAX_KEY];
    derive_subkey(key, &datagram[..at], &mut subkey);
    gcm::open(&subkey[..at], &NONCE, &datagram[at..], out).is_ok()
}

// Opens a datagram: its payload, to the front of the lent buffer. Refused with 1 (method, or length of the key), 2 (too short for salt
// and tag, or over the longest datagram), 3 (no room) or 4 (the tag is wrong), with nothing written.
#[tactic(auto, unfolding(crate::specs::Datagram::open_answer))]
pub fn open(method: u64, key: &[u8], datagram: &[u8], out: &mut [u8]) -> Result<usize, Refusal>
    ensures value { result ≡ open_answer method key.now datagram.now (length out.old) }
    ensures out_after { out.new
        ≡ open_out result (payload_of key.now datagram.now) out.old }
{
    let due = lawful_answer(method, key.len(), datagram.len(), out.len())?;
    if !open_body(key, datagram, out) {
        return Err(Refusal::NotAuthentic);
    }
    Ok(due)
}
