// What a datagram of SIP022 is made of. By section 3.2, with AES: a separate header, one block under the shared key, and a body in
// GCM under the session's subkey, whose plaintext is the main header and the payload. By section 4, with ChaCha: a nonce, and a body
// in the extended-nonce form under the shared key, whose plaintext has session ID and packet ID in front.
#![tactic(auto)]

ghost use Rattle.std.specs.Prelude.{◌≡◌, true, ◌∷◌, ◌++◌, ◌+◌, ◌<◌, ◌≤◌, length, drop};
ghost use Rattle.octets.specs.Buffers.{put};
ghost use Rattle.octets.specs.Numbers.{to_be};
ghost use Rattle.aes_tables.specs.SBox.{s_box};
ghost use Rattle.aes_tables.specs.Tables.{IsTable, mix_entry};
ghost use Rattle.aes.specs.KeyExpansion.{aes};
ghost use Rattle.aes.specs.Keyed.{nk_of};
ghost use Rattle.gcm.specs.Gcm.{text_of};
ghost use Rattle.chacha_poly.specs.Extended.{extended_seal};
ghost use Rattle.protocol.specs.declared.Cipher.TheVariants.{AesGcm, ChaChaPoly};
ghost use Rattle.datagram_parts.specs.Headers.{separate_length, separate_header, server_fixed, fixed_length, fixed_part, plaintext, inner_ids, main_start, sealed_text};
ghost use Rattle.datagram_parts.specs.Parts.{tag_length, max_datagram, nonce_length, lead_length, overhead, packet_overhead, overhead_of, nonce_fits, separate_block, seal_under, seal_body, datagram_by};

use gcm::TAG;
use protocol::{Cipher, MAX_KEY, Method};

mod key;

pub use key::SharedKey;

// The longest datagram: what UDP can carry over IPv4.
pub const MAX_DATAGRAM: usize = 65507;

// The separate header: session ID and packet ID. With ChaCha the two stand in front of the main header.
pub const SEPARATE: usize = 16;

// With ChaCha a datagram begins with a nonce.
pub const NONCE: usize = 24;

// The main header before its padding: type, time and padding length; a server's has a session ID more.
const CLIENT_FIXED: usize = 11;

const SERVER_FIXED: usize = CLIENT_FIXED + 8;

// Whose datagram it is: a client's, or a server's in reply to the client session of an ID.
#[derive(Clone, Copy)]
pub enum Side {
    Client,
    Server(u64),
}

// What names a datagram: the ID of its session and its own in it.
#[derive(Clone, Copy)]
pub struct Ids {
    pub session: u64,
    pub packet: u64,
}

// What a datagram says: main header, padding, address and payload. The address is given as its bytes.
#[derive(Clone, Copy)]
pub struct Message<'a> {
    pub side: Side,
    pub clock: u64,
    pub address: &'a [u8],
    pub padding: u16,
    pub payload: &'a [u8],
}

// ---- lengths

// What stands before the sealed text: the separate header, or the nonce.
pub fn lead_length(cipher: Cipher) -> usize
    ensures { result ≡ lead_length cipher }
{
    match cipher {
        Cipher::AesGcm => SEPARATE,
        Cipher::ChaChaPoly(_) => NONCE,
    }
}

// How many bytes a datagram has more than its plaintext.
pub fn overhead(cipher: Cipher) -> usize
    ensures { result ≡ overhead cipher }
{
    lead_length(cipher) + TAG
}

// Where the main header starts in the plaintext.
pub fn main_start(cipher: Cipher) -> usize
    ensures { result ≡ main_start cipher }
{
    match cipher {
        Cipher::AesGcm => 0,
        Cipher::ChaChaPoly(_) => SEPARATE,
    }
}

// How many bytes a datagram has besides main header, padding, address and payload.
pub fn packet_overhead(cipher: Cipher) -> usize
    ensures { result ≡ packet_overhead cipher }
{
    overhead(cipher) + main_start(cipher)
}

// The same by the method; 0 where there is no such method.
#[tactic(auto, unfolding(crate::specs::Parts::overhead_of))]
pub fn overhead_of(method: u64) -> usize
    ensures { result ≡ overhead_of method }
{
    Method::numbered(method).map_or(0, |m| packet_overhead(m.cipher))
}

// Whether a nonce of so many bytes serves: with ChaCha it is part of the datagram, and with AES it is not looked at.
pub fn nonce_fits(cipher: Cipher, nonce: usize) -> bool
    ensures { result ≡ nonce_fits cipher nonce }
{
    match cipher {
        Cipher::AesGcm => true,
        Cipher::ChaChaPoly(_) => nonce == NONCE,
    }
}

// The length of the main header before its padding.
pub fn fixed_length(side: Side) -> usize
    ensures { result ≡ fixed_length side }
{
    match side {
        Side::Client => CLIENT_FIXED,
        Side::Server(_) => SERVER_FIXED,
    }
}

// ---- the text that is sealed

impl Ids {
    // The two in the order in which they stand in a datagram.
    fn write(self, out: &mut [u8])
        requires { separate_length ≤ length out.old }
        ensures { out.new ≡ put out.old 0 (separate_header self.session self.packet) }
    {
        octets::write_u64_be(out, 0, self.session);
        octets::write_u64_be(out, 8, self.packet);
    }

    // The separate header in the clear.
    fn separate_header(self) -> [u8; SEPARATE]
        ensures { result ≡ separate_header self.session self.packet }
    {
        let mut header = [0u8; SEPARATE];
        self.write(&mut header);
        header
    }
}

// Type and time.
fn write_start(out: &mut [u8], kind: u8, clock: u64)
    requires { 9 ≤ length out.old }
    ensures { out.new ≡ put out.old 0 (kind ∷ to_be 8 clock) }
{
    out[0] = kind;
    octets::write_u64_be(out, 1, clock);
}

impl Message<'_> {
    // The main header before its padding.
    fn write_fixed(&self, out: &mut [u8])
        requires { server_fixed ≤ length out.old }
        ensures { out.new ≡ put out.old 0 (fixed_part self.now.side self.now.clock self.now.padding) }
    {
        match self.side {
            Side::Client => {
                write_start(out, 0, self.clock);
                octets::write_u16_be(out, 9, self.padding);
            }
            Side::Server(client) => {
                write_start(out, 1, self.clock);
                octets::write_u64_be(out, 9, client);
                octets::write_u16_be(out, 17, self.padding);
            }
        }
    }

    // All of it, to the front of a buffer with room for it and for the tag.
    fn write(&self, out: &mut [u8])
        requires { fixed_length self.now.side + self.now.padding + length self.now.address.now + length self.now.payload.now + tag_length
            ≤ length out.old }
        ensures { out.new
            ≡ put out.old 0 (plaintext self.now.side self.now.clock self.now.padding self.now.address.now self.now.payload.now) }
    {
        self.write_fixed(out);
        let fixed = fixed_length(self.side);
        let padding = self.padding as usize;
        octets::zero(out, fixed, padding);
        let at = fixed + padding;
        octets::copy(out, at, self.address);
        octets::copy(out, at + self.address.len(), self.payload);
    }
}

// What stands in front of the main header: with ChaCha session ID and packet ID, and with AES nothing.
fn write_inner_ids(out: &mut [u8], cipher: Cipher, ids: Ids)
    requires { main_start cipher ≤ length out.old }
    ensures { out.new ≡ put out.old 0 (inner_ids cipher ids.session ids.packet) }
{
    match cipher {
        Cipher::AesGcm => {}
        Cipher::ChaChaPoly(_) => ids.write(out),
    }
}

// All that is sealed, to the front of a buffer with room for it and for the tag.
pub fn write_text(out: &mut [u8], cipher: Cipher, ids: Ids, message: &Message<'_>)
    requires { main_start cipher + (fixed_length message.now.side + message.now.padding + length message.now.address.now + length message.now.payload.now) + tag_length
        ≤ length out.old }
    ensures { out.new
        ≡ put out.old 0
        (sealed_text cipher ids.session ids.packet message.now.side message.now.clock message.now.padding message.now.address.now
        message.now.payload.now) }
{
    write_inner_ids(out, cipher, ids);
    let start = main_start(cipher);
    message.write(&mut out[start..]);
}

// ---- sealing, where the text stands behind room for what leads it and before room for the tag

// A separate header, given in the clear, encrypted to the front of a buffer. AES's tables are lent, as for the body: a datagram
// has them once.
fn write_separate(
    t: &[u32; 256],
    sbox: &[u8; 256],
    out: &mut [u8],
    key: &SharedKey<'_>,
    header: &[u8; SEPARATE],
)
    requires separate_length_in_bounds { separate_length ≤ length out.old }
    requires table { IsTable mix_entry t.now }
    requires table_2 { IsTable s_box sbox.now }
    ensures { out.new
        ≡ put out.old 0 (aes (nk_of (length key.now.bytes.now)) key.now.bytes.now header.now) }
{
    octets::copy(out, 0, header);
    aes::encrypt::encrypt_with(t, sbox, key.bytes, &mut out[..SEPARATE]);
}

// Seals a body in place: its last bytes are room for the tag. The separate header in the clear has the session ID, which the
// subkey is derived from, and the nonce.
fn seal_body(
    t: &[u32; 256],
    sbox: &[u8; 256],
    body: &mut [u8],
    key: &SharedKey<'_>,
    header: &[u8; SEPARATE],
)
    requires tag_length_in_bounds { tag_length ≤ length body.old }
    requires body_len_bound { length body.old ≤ max_datagram }
    requires table { IsTable mix_entry t.now }
    requires table_2 { IsTable s_box sbox.now }
    ensures { body.new ≡ seal_under key.now.bytes.now header.now (text_of body.old) }
{
    let mut subkey = [0u8; MAX_KEY];
    protocol::derive_subkey(key.bytes, &header[..8], &mut subkey);
    let n = key.bytes.len();
    gcm::seal_in_place_with(t, sbox, &subkey[..n], &header[4..], body);
}

// With AES: a separate header, which is made once: it is encrypted, and lends the nonce.
fn seal_aes(s: &mut [u8], key: &SharedKey<'_>, ids: Ids)
    requires overhead_in_bounds { overhead AesGcm ≤ length s.old }
    requires s_len_bound { length s.old ≤ max_datagram }
    ensures { s.new
        ≡ separate_block key.now.bytes.now ids.session ids.packet
        ++ seal_body key.now.bytes.now ids.session ids.packet (text_of (drop separate_length s.old)) }
{
    let sbox = aes_tables::sbox();
    let t = aes_tables::mix_table();
    let header = ids.separate_header();
    write_separate(&t, &sbox, s, key, &header);
    seal_body(&t, &sbox, &mut s[SEPARATE..], key, &header);
}

// With ChaCha: the nonce, and the body under the shared key.
fn seal_chacha(doubles: usize, s: &mut [u8], key: &[u8], nonce: &[u8])
    requires doubles_in_bounds { overhead (ChaChaPoly doubles) ≤ length s.old }
    requires nonce_len { length nonce.now ≡ nonce_length }
    ensures { s.new
        ≡ nonce.now ++ extended_seal doubles key.now nonce.now (text_of (drop nonce_length s.old)) }
{
    octets::copy(s, 0, nonce);
    chacha_poly::seal_extended_in_place(doubles, key, nonce, &mut s[NONCE..]);
}

// A datagram, in the buffer that it fills.
pub fn seal_in_place(s: &mut [u8], key: &SharedKey<'_>, nonce: &[u8], ids: Ids)
    requires cipher_in_bounds { overhead key.now.cipher ≤ length s.old }
    requires s_len_bound { length s.old ≤ max_datagram }
    requires nonce_value { nonce_fits key.now.cipher (length nonce.now) ≡ true }
    ensures { s.new
        ≡ datagram_by key.now.cipher key.now.bytes.now nonce.now ids.session ids.packet
        (text_of (drop (lead_length key.now.cipher) s.old)) }
{
    match key.cipher {
        Cipher::AesGcm => seal_aes(s, key, ids),
        Cipher::ChaChaPoly(doubles) => seal_chacha(doubles, s, key.bytes, nonce),
    }
}
