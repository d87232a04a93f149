// Sealing datagrams.
ghost use Rattle.std.specs.Prelude.{◌≡◌, true, ◌-◌, ◌<◌, ◌≤◌, leb, length};
ghost use Rattle.std.specs.Bool.{then_some};
ghost use Rattle.protocol.specs.Method.{cipher_of};
ghost use Rattle.datagram_parts.specs.Headers.{sealed_text};
ghost use Rattle.datagram_parts.specs.Parts.{max_datagram, datagram_by};
ghost use Rattle.datagram_seal.specs.Sealing.{ids_differ, nonce_fits, sealed_length, seal_answer, seal_next, datagram, seal_out};

use super::{Sealing, Sender};
use datagram_parts::{
    Ids, MAX_DATAGRAM, Message, SharedKey, Side, fixed_length, lead_length, nonce_fits,
    packet_overhead, seal_in_place, write_text,
};
use protocol::{Cipher, Refusal};

// ---- what is answered

fn ids_differ(sender: Sender) -> bool
    ensures { result ≡ ids_differ sender }
{
    match sender.side {
        Side::Client => true,
        Side::Server(client) => sender.id != client,
    }
}

// The length of the sealed datagram, if a datagram may have it.
#[tactic(auto, unfolding(crate::specs::Sealing::sealed_length))]
fn sealed_length(
    cipher: Cipher,
    side: Side,
    address: usize,
    padding: usize,
    payload: usize,
) -> Option<usize>
    ensures { result
        ≡ then_some (leb (sealed_length cipher side address padding payload) max_datagram)
        (sealed_length cipher side address padding payload) }
{
    let besides = fixed_length(side) + packet_overhead(cipher);
    let n = besides
        .checked_add(address)?
        .checked_add(padding)?
        .checked_add(payload)?;
    (n <= MAX_DATAGRAM).then_some(n)
}

// What sealing answers, from the lengths of what is lent: refusals 1, 12, 11, 2 and 3, in this order, or the length.
#[tactic(auto, unfolding(crate::specs::Sealing::seal_answer, crate::specs::Sealing::argument_answer, crate::specs::Sealing::length_answer, crate::specs::Sealing::capped))]
fn seal_answer(
    method: u64,
    key: usize,
    nonce: usize,
    sender: Sender,
    address: &[u8],
    padding: usize,
    payload: usize,
    room: usize,
) -> Result<usize, Refusal>
    ensures { result ≡ seal_answer method key nonce sender address.now padding payload room }
{
    let cipher = protocol::cipher_of(method);
    if !protocol::key_fits(method, key) || !nonce_fits(cipher, nonce) {
        return Err(Refusal::Settings);
    }
    if !socks5::is_address(address) || !ids_differ(sender) {
        return Err(Refusal::Argument);
    }
    if sender.packet == u64::MAX {
        return Err(Refusal::Counter);
    }
    let Some(n) = sealed_length(cipher, sender.side, address.len(), padding, payload) else {
        return Err(Refusal::Length);
    };
    if room < n {
        return Err(Refusal::Room);
    }
    Ok(n)
}

// ---- what is written

// A datagram, into the buffer that it fills: the text is written to its place and sealed there.
fn write_datagram(s: &mut [u8], key: &SharedKey<'_>, nonce: &[u8], ids: Ids, message: &Message<'_>)
    requires nonce_value { nonce_fits key.now.cipher (length nonce.now) ≡ true }
    requires s_len { length s.old
        ≡ sealed_length key.now.cipher message.now.side (length message.now.address.now) message.now.padding
        (length message.now.payload.now) }
    requires s_len_bound { length s.old ≤ max_datagram }
    ensures { s.new
        ≡ datagram_by key.now.cipher key.now.bytes.now nonce.now ids.session ids.packet
        (sealed_text key.now.cipher ids.session ids.packet message.now.side message.now.clock message.now.padding
        message.now.address.now message.now.payload.now) }
{
    let lead = lead_length(key.cipher);
    write_text(&mut s[lead..], key.cipher, ids, message);
    seal_in_place(s, key, nonce, ids);
}

// Seals a datagram to the front of the lent buffer. With ChaCha the nonce is the host's, of 24 bytes; with AES it is not looked at.
// The address is given as its bytes (RFC 1928), exactly one; the time written is the clock. A refusal writes nothing and leaves the
// sending session as it was.
pub fn seal(
    method: u64,
    key: &[u8],
    nonce: &[u8],
    sender: Sender,
    clock: u64,
    address: &[u8],
    padding: usize,
    payload: &[u8],
    out: &mut [u8],
) -> Sealing
    ensures answer_value { result.answer
        ≡ seal_answer method (length key.now) (length nonce.now) sender address.now padding
        (length payload.now) (length out.old) }
    ensures sender_value { result.sender ≡ seal_next sender result.answer }
    ensures out_after { out.new
        ≡ seal_out result.answer
        (datagram (cipher_of method) key.now nonce.now sender clock address.now padding
        payload.now)
        out.old }
{
    let answer = seal_answer(
        method,
        key.len(),
        nonce.len(),
        sender,
        address,
        padding,
        payload.len(),
        out.len(),
    );
    let Ok(n) = answer else {
        return Sealing { answer, sender };
    };
    let key = SharedKey {
        cipher: protocol::cipher_of(method),
        bytes: key,
    };
    let ids = Ids {
        session: sender.id,
        packet: sender.packet,
    };
    let message = Message {
        side: sender.side,
        clock,
        address,
        padding: padding as u16,
        payload,
    };
    write_datagram(&mut out[..n], &key, nonce, ids, &message);
    Sealing {
        answer,
        sender: Sender {
            packet: sender.packet + 1,
            ..sender
        },
    }
}
