// What the benchmark calls, one primitive at a time. Functions of one shape stay apart: C calls each by its name.
#![tactic(auto)]

ghost use Rattle.std.specs.Prelude.{◌≡◌, length, None};
ghost use Rattle.bench.specs.Answer.{answer, number, hash_lawful, hash_out, subkey_lawful, subkey_out};
ghost use Rattle.bench.specs.Answer.{tag_fits, where_tag_fits, text_fits, verdict_number, verdict_out};
ghost use Rattle.bench.specs.Answer.{first_datagram, first_datagram_out, sealed_number, opened_number, nobody};
ghost use Rattle.bench.specs.Answer.{digest_fits, digest_out};
ghost use Rattle.bench.specs.Answer.{subkey_in, first_chunk, first_chunk_out, chunk_number, payload_receiver, stepped_number};
ghost use Rattle.datagram_open.specs.Deciding as deciding;
ghost use Rattle.stream_open.specs.Chunks as chunks;
ghost use Rattle.gcm.specs.Keyed.{seal_lawful, sealed, open_answer, open_out};
ghost use Rattle.aes.specs.Keyed.{lawful};
ghost use Rattle.ctr.specs.Gctr.{aes_ctr};
ghost use Rattle.octets.specs.Buffers.{put};
ghost use Rattle.chacha.specs.ChaCha.{stream};
ghost use Rattle.poly1305.specs.Poly1305.{mac};
ghost use Rattle.chacha_poly.specs.Aead as aead;
ghost use Rattle.chacha_poly.specs.Extended as extended;

use datagram_seal::Sender;
use gcm::OpenError;
use ghash::Element;
use session_table::Peer;
use stream_open::{Receiver, Turn};
use stream_pieces::Subkey;

// AES in counter mode, in place: 0, or 1 and nothing written where the key is not of 16, 24 or 32 bytes or the nonce not of
// 12. Tables are copied and the key is expanded at each call, as for a datagram.
#[unsafe(no_mangle)]
pub extern "C" fn bench_aes_ctr(key: &[u8], nonce: &[u8], counter: u32, text: &mut [u8]) -> u32
    ensures value { result ≡ answer (lawful 12 key.now nonce.now) }
    ensures text_after { text.new ≡ aes_ctr key.now nonce.now counter text.old }
{
    if ctr::aes_ctr(key, nonce, counter, text) {
        0
    } else {
        1
    }
}

// AES-GCM's sealing: 0, or 1 and nothing written where a length or the room is wrong.
#[unsafe(no_mangle)]
pub extern "C" fn bench_gcm_seal(key: &[u8], nonce: &[u8], text: &[u8], out: &mut [u8]) -> u32
    ensures value { result ≡ answer (seal_lawful key.now nonce.now text.now out.old) }
    ensures out_after { out.new ≡ sealed key.now nonce.now text.now out.old }
{
    if gcm::seal(key, nonce, text, out) {
        0
    } else {
        1
    }
}

// AES-GCM's opening: 0; 1 where a length or the room is wrong, 2 where the tag is, and nothing written.
#[unsafe(no_mangle)]
pub extern "C" fn bench_gcm_open(key: &[u8], nonce: &[u8], s: &[u8], out: &mut [u8]) -> u32
    ensures value { result ≡ number (open_answer key.now nonce.now s.now out.old) }
    ensures out_after { out.new ≡ open_out key.now nonce.now s.now out.old }
{
    match gcm::open(key, nonce, s, out) {
        Ok(()) => 0,
        Err(OpenError::Unlawful) => 1,
        Err(OpenError::Forged) => 2,
    }
}

// GHASH of a text, its last block filled up with zeros, under a hash key of 16 bytes: 0, or 1 and nothing written where the
// key has another length or there is no room for 16 bytes.
#[unsafe(no_mangle)]
pub extern "C" fn bench_ghash(h: &[u8], text: &[u8], out: &mut [u8]) -> u32
    ensures value { result ≡ answer (hash_lawful h.now out.old) }
    ensures out_after { out.new ≡ hash_out h.now text.now out.old }
{
    if h.len() != 16 {
        return 1;
    }
    if out.len() < 16 {
        return 1;
    }
    let key = Element {
        hi: octets::read_u64_be(h, 0),
        lo: octets::read_u64_be(h, 8),
    };
    let mut t = [0u64; 128];
    ghash::product::write_table(&mut t, key);
    let y = ghash_four::ghash_from(&t, Element { hi: 0, lo: 0 }, text);
    ghash::write_element(out, y);
    0
}

// The key stream of ChaCha with n double rounds, from a block on, added to a text in place.
#[unsafe(no_mangle)]
pub extern "C" fn bench_chacha(n: usize, key: &[u8], counter: u32, nonce: &[u8], text: &mut [u8])
    ensures { text.new ≡ stream n key.now counter nonce.now text.old }
{
    chacha::xor_stream(n, key, counter, nonce, text);
}

// Poly1305 of a text under a one-time key: 0, or 1 and nothing written where there is no room for 16 bytes.
#[unsafe(no_mangle)]
pub extern "C" fn bench_poly1305(key: &[u8], text: &[u8], out: &mut [u8]) -> u32
    ensures value { result ≡ answer (tag_fits out.old) }
    ensures out_after { out.new
        ≡ where_tag_fits out.old (put out.old 0 (mac key.now text.now)) }
{
    if out.len() < 16 {
        return 1;
    }
    let tag = poly1305::mac(key, text);
    octets::copy(out, 0, &tag);
    0
}

// ChaCha's sealing in place, with n double rounds and Poly1305; the last 16 bytes are for the tag: 0, or 1 and nothing written
// where there are fewer.
#[unsafe(no_mangle)]
pub extern "C" fn bench_chacha_poly_seal(n: usize, key: &[u8], nonce: &[u8], body: &mut [u8]) -> u32
    ensures value { result ≡ answer (tag_fits body.old) }
    ensures body_after { body.new ≡ where_tag_fits body.old
        (aead.seal n key.now nonce.now (aead.text_of body.old)) }
{
    if body.len() < 16 {
        return 1;
    }
    chacha_poly::seal_in_place(n, key, nonce, body);
    0
}

// The same with a nonce of 24 bytes.
#[unsafe(no_mangle)]
pub extern "C" fn bench_chacha_poly_extended_seal(
    n: usize,
    key: &[u8],
    nonce: &[u8],
    body: &mut [u8],
) -> u32
    ensures value { result ≡ answer (tag_fits body.old) }
    ensures body_after { body.new ≡ where_tag_fits body.old
        (extended.extended_seal n key.now nonce.now (aead.text_of body.old)) }
{
    if body.len() < 16 {
        return 1;
    }
    chacha_poly::seal_extended_in_place(n, key, nonce, body);
    0
}

// ChaCha's opening, with n double rounds and Poly1305: 0; 1 where there is no tag or no room for the text, 2 where the tag is
// wrong, and nothing written.
#[unsafe(no_mangle)]
pub extern "C" fn bench_chacha_poly_open(
    n: usize,
    key: &[u8],
    nonce: &[u8],
    s: &[u8],
    out: &mut [u8],
) -> u32
    ensures value { result ≡ verdict_number (text_fits s.now out.old)
        (aead.authentic n key.now nonce.now s.now) }
    ensures out_after { out.new ≡ verdict_out (text_fits s.now out.old)
        (aead.authentic n key.now nonce.now s.now)
        (aead.opened n key.now nonce.now s.now) out.old }
{
    if s.len() < 16 {
        return 1;
    }
    if out.len() < s.len() - 16 {
        return 1;
    }
    if chacha_poly::open(n, key, nonce, s, out) {
        0
    } else {
        2
    }
}

// The same with a nonce of 24 bytes.
#[unsafe(no_mangle)]
pub extern "C" fn bench_chacha_poly_extended_open(
    n: usize,
    key: &[u8],
    nonce: &[u8],
    s: &[u8],
    out: &mut [u8],
) -> u32
    ensures value { result ≡ verdict_number (text_fits s.now out.old)
        (extended.extended_authentic n key.now nonce.now s.now) }
    ensures out_after { out.new ≡ verdict_out (text_fits s.now out.old)
        (extended.extended_authentic n key.now nonce.now s.now)
        (extended.extended_opened n key.now nonce.now s.now) out.old }
{
    if s.len() < 16 {
        return 1;
    }
    if out.len() < s.len() - 16 {
        return 1;
    }
    if chacha_poly::open_extended(n, key, nonce, s, out) {
        0
    } else {
        2
    }
}

// The subkey of a key and a salt, of 32 bytes at most each, to the front of the lent buffer: 0, or 1 and nothing written
// where one is longer or there is no room for 32 bytes.
#[unsafe(no_mangle)]
pub extern "C" fn bench_subkey(key: &[u8], salt: &[u8], out: &mut [u8]) -> u32
    ensures value { result ≡ answer (subkey_lawful key.now salt.now out.old) }
    ensures out_after { out.new ≡ subkey_out key.now salt.now out.old }
{
    if key.len() > 32 {
        return 1;
    }
    if salt.len() > 32 {
        return 1;
    }
    if out.len() < 32 {
        return 1;
    }
    protocol::derive_subkey(key, salt, out);
    0
}

// The BLAKE3 hash of a text to the front of the lent buffer: 0, or 1 and nothing written where there is no room for 32 bytes.
#[unsafe(no_mangle)]
pub extern "C" fn bench_blake3(text: &[u8], out: &mut [u8]) -> u32
    ensures value { result ≡ answer (digest_fits out.old) }
    ensures out_after { out.new ≡ digest_out text.now out.old }
{
    if out.len() < 32 {
        return 1;
    }
    let digest = blake3_tree::hash(text);
    octets::copy(out, 0, &digest);
    0
}

// Seals a client's first datagram: its length, or 0 and nothing written for a refusal.
#[unsafe(no_mangle)]
pub extern "C" fn bench_datagram_seal(
    method: u64,
    key: &[u8],
    nonce: &[u8],
    id: u64,
    clock: u64,
    address: &[u8],
    payload: &[u8],
    out: &mut [u8],
) -> usize
    ensures value { result ≡ sealed_number
        (first_datagram method key.now nonce.now id address.now payload.now
        out.old) }
    ensures out_after { out.new
        ≡ first_datagram_out method key.now nonce.now id clock address.now payload.now
        out.old }
{
    let done = datagram_seal::seal(
        method,
        key,
        nonce,
        Sender::client(id),
        clock,
        address,
        0,
        payload,
        out,
    );
    let answer = done.answer;
    match answer {
        Ok(n) => n,
        Err(_) => 0,
    }
}

// Opens a client's datagram for a server: 0, or the refusal's number.
#[unsafe(no_mangle)]
pub extern "C" fn bench_datagram_open(
    method: u64,
    key: &[u8],
    clock: u64,
    s: &[u8],
    table: &mut [u64],
    out: &mut [u8],
) -> u64
    ensures value { result ≡ opened_number (deciding.open_answer method key.now None clock nobody s.now
        table.old out.old) }
    ensures out_after { out.new
        ≡ deciding.open_out method key.now None clock nobody s.now table.old
        out.old }
    ensures table_after { table.new
        ≡ deciding.open_table method key.now None clock nobody s.now table.old
        out.old }
{
    let peer = Peer {
        first: 0,
        second: 0,
        port: 0,
    };
    match datagram_open::open_server(method, key, clock, peer, s, table, out) {
        Ok(_) => 0,
        Err(refusal) => refusal.number(),
    }
}

// Seals the first chunk of a stream, its subkey in four words: the number of bytes, or 0 and nothing written for a refusal.
#[unsafe(no_mangle)]
pub extern "C" fn bench_chunk_seal(
    method: u64,
    a: u64,
    b: u64,
    c: u64,
    d: u64,
    payload: &[u8],
    out: &mut [u8],
) -> usize
    ensures value { result ≡ chunk_number (first_chunk method (subkey_in a b c d) payload.now out.old) }
    ensures out_after { out.new ≡ first_chunk_out method (subkey_in a b c d) payload.now out.old }
{
    let sender = stream_seal::Sender {
        method: method,
        counter: 0,
        subkey: Subkey {
            a: a,
            b: b,
            c: c,
            d: d,
        },
    };
    match stream_seal::seal_chunk(sender, payload, out) {
        Ok((n, _)) => n,
        Err(_) => 0,
    }
}

// Opens the payload of a stream's first chunk, of n bytes: 0, or the refusal's number.
#[unsafe(no_mangle)]
pub extern "C" fn bench_chunk_open(
    method: u64,
    a: u64,
    b: u64,
    c: u64,
    d: u64,
    n: u16,
    s: &[u8],
    out: &mut [u8],
) -> u64
    ensures value { result ≡ stepped_number
        (chunks.step_answer (payload_receiver method n (subkey_in a b c d)) s.now (length out.old)) }
    ensures out_after { out.new
        ≡ chunks.step_out (payload_receiver method n (subkey_in a b c d)) s.now out.old }
{
    let receiver = Receiver {
        method: method,
        turn: Turn::Payload(n),
        counter: 1,
        subkey: Subkey {
            a: a,
            b: b,
            c: c,
            d: d,
        },
    };
    let step = stream_open::open_chunk(receiver, s, out);
    let answer = step.answer;
    match answer {
        Ok(_) => 0,
        Err(refusal) => refusal.number(),
    }
}
