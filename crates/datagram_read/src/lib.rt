// Opening datagrams of SIP022, sections 3.2 and 4, as far as their own bytes decide it. What is read here has still to be fresh in a
// session.
#![tactic(auto)]

ghost use Rattle.std.specs.Prelude.{◌≡◌, ◌-◌, ◌≤◌, length, drop, cond};
ghost use Rattle.octets.specs.Buffers.{put};
ghost use Rattle.octets.specs.Numbers.{be};
ghost use Rattle.aes_tables.specs.SBox.{s_box};
ghost use Rattle.aes_tables.specs.Tables.{IsTable};
ghost use Rattle.datagram_parts.specs.Headers.{separate_length, type_of};
ghost use Rattle.datagram_parts.specs.Parts.{tag_length, max_datagram};
ghost use Rattle.datagram_parts.specs.Parts as parts;
ghost use Rattle.protocol.specs.declared.Cipher.TheVariants.{AesGcm, ChaChaPoly};
ghost use Rattle.datagram_read.specs.Opening.{separate_of, body_authentic, body_text, unsealed, unsealed_out, meant, read_address, read_main, settled, read_text, text_out, read_answer, read_out};

use chacha_poly::TAG;
use datagram_parts::{
    Ids, MAX_DATAGRAM, NONCE, SEPARATE, SharedKey, Side, fixed_length, main_start, overhead,
};
use protocol::{Cipher, MAX_KEY, Refusal};
use socks5::Target;

// What an opened datagram says. A name's place and the payload's are places in the plaintext.
#[derive(Clone, Copy)]
pub struct Header {
    pub target: Target,
    pub port: u16,
    pub session: u64,
    pub packet: u64,
    pub time: u64,
    pub padding: u16,
    pub payload: usize,
}

// ---- session ID and packet ID

// From the first bytes of a string.
fn read_ids(s: &[u8]) -> Ids
    ensures session { result.session ≡ be 8 s.now }
    ensures packet { result.packet ≡ be 8 (drop 8 s.now) }
{
    Ids {
        session: octets::read_u64_be(s, 0),
        packet: octets::read_u64_be(s, 8),
    }
}

// ---- with AES

// The separate header of a datagram, in the clear.
fn open_separate(sbox: &[u8; 256], key: &SharedKey<'_>, s: &[u8]) -> [u8; SEPARATE]
    requires separate_length_in_bounds { separate_length ≤ length s.now }
    requires table { IsTable s_box sbox.now }
    ensures value { result ≡ separate_of key.now.bytes.now s.now }
    ensures result_len { length result ≡ separate_length }
{
    let mut header = [0u8; SEPARATE];
    octets::copy(&mut header, 0, &s[..SEPARATE]);
    aes_inverse::decrypt_with(sbox, key.bytes, &mut header);
    header
}

// Opens a body to the front of a buffer, by its separate header in the clear: whether its tag is good; if not, nothing is
// written.
fn open_body(
    sbox: &[u8; 256],
    key: &SharedKey<'_>,
    header: &[u8; SEPARATE],
    body: &[u8],
    out: &mut [u8],
) -> bool
    requires tag_length_in_bounds { tag_length ≤ length body.now }
    requires body_len_bound { length body.now ≤ max_datagram }
    requires tag_length_in_bounds_2 { length body.now - tag_length ≤ length out.old }
    requires table { IsTable s_box sbox.now }
    ensures value { result
        ≡ body_authentic key.now.bytes.now (be 8 header.now) (be 8 (drop 8 header.now)) body.now }
    ensures out_after { out.new
        ≡ cond result
        (put out.old 0
        (body_text key.now.bytes.now (be 8 header.now) (be 8 (drop 8 header.now)) body.now))
        out.old }
{
    let mut subkey = [0u8; MAX_KEY];
    protocol::derive_subkey(key.bytes, &header[..8], &mut subkey);
    let n = key.bytes.len();
    let t = aes_tables::mix_table();
    gcm::open_with(&t, sbox, &subkey[..n], &header[4..], body, out).is_ok()
}

// By the separate header.
fn open_aes(key: &SharedKey<'_>, s: &[u8], out: &mut [u8]) -> Option<Ids>
    requires overhead_in_bounds { parts.overhead AesGcm ≤ length s.now }
    requires s_len_bound { length s.now ≤ max_datagram }
    requires overhead_in_bounds_2 { length s.now - parts.overhead AesGcm ≤ length out.old }
    ensures value { result ≡ unsealed AesGcm key.now.bytes.now s.now }
    ensures out_after { out.new ≡ unsealed_out AesGcm key.now.bytes.now s.now out.old }
{
    let sbox = aes_tables::sbox();
    let header = open_separate(&sbox, key, s);
    if !open_body(&sbox, key, &header, &s[SEPARATE..], out) {
        return None;
    }
    Some(read_ids(&header))
}

// ---- with ChaCha

// The IDs are the plaintext's first bytes.
fn open_chacha(n: usize, key: &[u8], s: &[u8], out: &mut [u8]) -> Option<Ids>
    requires n_in_bounds { parts.overhead (ChaChaPoly n) ≤ length s.now }
    requires n_in_bounds_2 { length s.now - parts.overhead (ChaChaPoly n) ≤ length out.old }
    ensures value { result ≡ unsealed (ChaChaPoly n) key.now s.now }
    ensures out_after { out.new ≡ unsealed_out (ChaChaPoly n) key.now s.now out.old }
{
    if !chacha_poly::open_extended(n, key, &s[..NONCE], &s[NONCE..], out) {
        return None;
    }
    let due = s.len() - NONCE - TAG;
    Some(read_ids(&out[..due]))
}

// Opens what is sealed of a datagram to the front of a buffer, if its tag is good; if not, nothing is written.
fn open_text(key: &SharedKey<'_>, s: &[u8], out: &mut [u8]) -> Option<Ids>
    requires cipher_in_bounds { parts.overhead key.now.cipher ≤ length s.now }
    requires s_len_bound { length s.now ≤ max_datagram }
    requires cipher_in_bounds_2 { length s.now - parts.overhead key.now.cipher ≤ length out.old }
    ensures value { result ≡ unsealed key.now.cipher key.now.bytes.now s.now }
    ensures out_after { out.new ≡ unsealed_out key.now.cipher key.now.bytes.now s.now out.old }
{
    match key.cipher {
        Cipher::AesGcm => open_aes(key, s, out),
        Cipher::ChaChaPoly(n) => open_chacha(n, key.bytes, s, out),
    }
}

// ---- the main header, from its start in the plaintext

fn type_of(side: Side) -> u8
    ensures { result ≡ type_of side }
{
    match side {
        Side::Client => 0,
        Side::Server(_) => 1,
    }
}

// Whether a server's datagram names our session; a client's names none.
fn is_meant(start: usize, side: Side, plain: &[u8]) -> bool
    requires { start ≤ separate_length }
    ensures { result ≡ meant start side plain.now }
{
    match side {
        Side::Client => true,
        Side::Server(client) => octets::read_u64_be(plain, start + 9) == client,
    }
}

// Padding and address.
#[tactic(auto, unfolding(crate::specs::Opening::read_address))]
fn read_address(start: usize, side: Side, ids: Ids, plain: &[u8]) -> Result<Header, Refusal>
    requires { start ≤ separate_length }
    ensures { result ≡ read_address start side ids.session ids.packet plain.now }
{
    let fixed = start + fixed_length(side);
    let padding = octets::read_u16_be(plain, fixed - 2);
    let address = socks5::parse(plain, fixed + padding as usize).ok_or(Refusal::Malformed)?;
    Ok(Header {
        target: address.target,
        port: address.port,
        session: ids.session,
        packet: ids.packet,
        time: octets::read_u64_be(plain, start + 1),
        padding,
        payload: address.end,
    })
}

// Refusals 5, 6, 7, 13 and 5 again, in this order, or the header.
#[tactic(auto, unfolding(crate::specs::Opening::read_main))]
fn read_main(
    start: usize,
    side: Side,
    clock: u64,
    ids: Ids,
    plain: &[u8],
) -> Result<Header, Refusal>
    requires { start ≤ separate_length }
    ensures { result ≡ read_main start side clock ids.session ids.packet plain.now }
{
    if plain.len() < start + fixed_length(side) {
        return Err(Refusal::Malformed);
    }
    if octets::byte_or_zero(plain, start) != type_of(side) {
        return Err(Refusal::WrongType);
    }
    if !protocol::time_valid(octets::read_u64_be(plain, start + 1), clock) {
        return Err(Refusal::WrongTime);
    }
    if !is_meant(start, side, plain) {
        return Err(Refusal::Binding);
    }
    read_address(start, side, ids, plain)
}

// ---- the whole

// A refusal clears what the plaintext has filled.
pub fn clear_refused(answer: Result<Header, Refusal>, due: usize, out: &mut [u8])
    requires { due ≤ length out.old }
    ensures { out.new ≡ settled answer due out.old }
{
    if answer.is_err() {
        octets::zero(out, 0, due);
    }
}

// A datagram of a lawful length, with room for its plaintext.
#[tactic(auto, unfolding(crate::specs::Opening::read_text, crate::specs::Opening::text_out))]
fn read_text(
    key: &SharedKey<'_>,
    side: Side,
    clock: u64,
    s: &[u8],
    out: &mut [u8],
) -> Result<Header, Refusal>
    requires cipher_in_bounds { parts.overhead key.now.cipher ≤ length s.now }
    requires s_len_bound { length s.now ≤ max_datagram }
    requires cipher_in_bounds_2 { length s.now - parts.overhead key.now.cipher ≤ length out.old }
    ensures value { result ≡ read_text key.now.cipher side clock key.now.bytes.now s.now }
    ensures out_after { out.new
        ≡ text_out key.now.cipher side clock key.now.bytes.now s.now out.old }
{
    let ids = open_text(key, s, out).ok_or(Refusal::NotAuthentic)?;
    let due = s.len() - overhead(key.cipher);
    let answer = read_main(main_start(key.cipher), side, clock, ids, &out[..due]);
    clear_refused(answer, due, out);
    answer
}

// Refusals 1, 2, 3, 4, 5, 6, 7, 13 and 5, in this order, or the header; its plaintext is then at the front of the buffer.
#[tactic(auto, unfolding(crate::specs::Opening::read_answer, crate::specs::Opening::read_out, crate::specs::Opening::length_lawful))]
pub fn read_datagram(
    method: u64,
    key: &[u8],
    side: Side,
    clock: u64,
    s: &[u8],
    out: &mut [u8],
) -> Result<Header, Refusal>
    ensures value { result ≡ read_answer method key.now side clock s.now out.old }
    ensures out_after { out.new ≡ read_out method key.now side clock s.now out.old }
{
    if !protocol::key_fits(method, key.len()) {
        return Err(Refusal::Settings);
    }
    let key = SharedKey {
        cipher: protocol::cipher_of(method),
        bytes: key,
    };
    let least = overhead(key.cipher);
    if s.len() < least || MAX_DATAGRAM < s.len() {
        return Err(Refusal::Length);
    }
    if out.len() < s.len() - least {
        return Err(Refusal::Room);
    }
    read_text(&key, side, clock, s, out)
}
