// AES-GCM (SP 800-38D) with a 12-byte nonce, a 16-byte tag and no additional data, on lent buffers.
#![tactic(auto)]

ghost use Rattle.std.specs.Prelude.{◌≡◌, ◌+◌, ◌-◌, ◌<◌, ◌≤◌, length, take, cond, false, IfSome, IfNone};
ghost use Rattle.octets.specs.Buffers.{put};
ghost use Rattle.octets.specs.Numbers.{to_be};
ghost use Rattle.aes_tables.specs.SBox.{s_box};
ghost use Rattle.aes_tables.specs.Tables.{IsTable, mix_entry};
ghost use Rattle.ghash.specs.Table.{TableFor, key_in};
ghost use Rattle.ghash.specs.Words.{block_of};
ghost use Rattle.ctr.specs.Gctr.{ciph_at};
ghost use Rattle.ctr.specs.Words.{nonce_bytes};
ghost use Rattle.gcm.specs.Gcm as spec;
ghost use Rattle.gcm.specs.Keyed.{max_text, fits, Fits, authentic, seal_lawful, sealed as sealed_of, in_place_lawful, sealed_in_place, open_answer, open_out};

use aes::encrypt::Encryptor;
use ctr::Nonce;
use ghash::Element;

// So many bytes at the end of a sealed text are its tag.
pub const TAG: usize = 16;

// Why nothing was opened: the tag is wrong, or a length is.
#[derive(Clone, Copy)]
pub enum OpenError {
    Forged,
    Unlawful,
}

// GHASH of the ciphertext and its length, with the table for the hash key.
fn hashed(g: &[u64; 128], c: &[u8]) -> Element
    requires c_len_bound { length c.now ≤ max_text }
    requires table_for { TableFor g.now (key_in g.now) }
    ensures { block_of result ≡ spec.hashed (key_in g.now) c.now }
{
    let y = ghash_four::ghash_from(g, Element { hi: 0, lo: 0 }, c);
    let bits = 8 * c.len() as u64;
    ghash::ghash_from(g, y, &element_bytes(Element { hi: 0, lo: bits }))
}

// The bytes of a block.
fn element_bytes(x: Element) -> [u8; 16]
    ensures { result ≡ to_be 16 (block_of x) }
{
    let mut b = [0u8; 16];
    ghash::write_element(&mut b, x);
    b
}

// H.
fn hash_key(aes: &Encryptor<'_>) -> Element
    ensures { block_of result ≡ spec.hash_key (ciph_at aes.now.rounds aes.now.w.now) }
{
    let zero = aes::Block {
        a: 0,
        b: 0,
        c: 0,
        d: 0,
    };
    let mut b = [0u8; 16];
    aes::write_block(&mut b, 0, aes.cipher(zero));
    Element {
        hi: octets::read_u64_be(&b, 0),
        lo: octets::read_u64_be(&b, 8),
    }
}

// The table for the hash key of an expanded key: GHASH's part of what is made once for a key.
pub fn write_hash_table(g: &mut [u64; 128], aes: &Encryptor<'_>)
    requires { length g.old ≡ 128 }
    ensures { TableFor g.new (spec.hash_key (ciph_at aes.now.rounds aes.now.w.now)) }
{
    let h = hash_key(aes);
    ghash::product::write_table(g, h);
}

// The tag of a ciphertext.
fn tag_of(aes: &Encryptor<'_>, g: &[u64; 128], n: Nonce, c: &[u8]) -> [u8; 16]
    requires c_len_bound { length c.now ≤ max_text }
    requires table_for { TableFor g.now (spec.hash_key (ciph_at aes.now.rounds aes.now.w.now)) }
    ensures { result ≡ spec.tag (ciph_at aes.now.rounds aes.now.w.now) (nonce_bytes n) c.now }
{
    let mut tag = element_bytes(hashed(g, c));
    ctr::gctr(aes, n, 1, &mut tag);
    tag
}

// The first len bytes of the lent buffer, encrypted or decrypted in place.
fn crypt_front(aes: &Encryptor<'_>, n: Nonce, len: usize, out: &mut [u8])
    requires { len ≤ length out.old }
    ensures { out.new
        ≡ put out.old 0
        (spec.crypt (ciph_at aes.now.rounds aes.now.w.now) (nonce_bytes n) (take len out.old)) }
{
    ctr::gctr(aes, n, 2, &mut out[..len]);
}

// A text to the front of the lent buffer, encrypted or decrypted there.
fn crypt_into(aes: &Encryptor<'_>, n: Nonce, text: &[u8], out: &mut [u8])
    requires { length text.now ≤ length out.old }
    ensures { out.new
        ≡ put out.old 0 (spec.crypt (ciph_at aes.now.rounds aes.now.w.now) (nonce_bytes n) text.now) }
{
    octets::copy(out, 0, text);
    crypt_front(aes, n, text.len(), out);
}

// Ciphertext and tag, at an expanded key with its hash table and in place: the text is all but the last 16 bytes of the lent
// buffer.
pub fn seal_in_place_at(aes: &Encryptor<'_>, g: &[u64; 128], nonce: &[u8], body: &mut [u8])
    requires tag_length_in_bounds { spec.tag_length ≤ length body.old }
    requires tag_length_len_bound { length body.old - spec.tag_length ≤ max_text }
    requires table_for { TableFor g.now (spec.hash_key (ciph_at aes.now.rounds aes.now.w.now)) }
    requires nonce_len { length nonce.now ≡ 12 }
    ensures { body.new
        ≡ spec.seal (ciph_at aes.now.rounds aes.now.w.now) nonce.now (spec.text_of body.old) }
{
    let n = ctr::read_nonce(nonce);
    let len = body.len() - TAG;
    crypt_front(aes, n, len, body);
    let tag = tag_of(aes, g, n, &body[..len]);
    octets::copy(body, len, &tag);
}

// Ciphertext and tag of a text, at an expanded key, to the front of the lent buffer.
fn seal_at(aes: &Encryptor<'_>, nonce: &[u8], text: &[u8], out: &mut [u8])
    requires text_len_bound { length text.now ≤ max_text }
    requires tag_length_in_bounds { length text.now + spec.tag_length ≤ length out.old }
    requires nonce_len { length nonce.now ≡ 12 }
    ensures { out.new
        ≡ put out.old 0 (spec.seal (ciph_at aes.now.rounds aes.now.w.now) nonce.now text.now) }
{
    let due = text.len() + TAG;
    let mut g = [0u64; 128];
    write_hash_table(&mut g, aes);
    octets::copy(out, 0, text);
    seal_in_place_at(aes, &g, nonce, &mut out[..due]);
}

// Whether the last 16 bytes are the tag of those before them; then the text goes to the front of the lent buffer.
fn open_at(aes: &Encryptor<'_>, n: Nonce, s: &[u8], out: &mut [u8]) -> bool
    requires tag_length_in_bounds { spec.tag_length ≤ length s.now }
    requires tag_length_len_bound { length s.now - spec.tag_length ≤ max_text }
    requires tag_length_in_bounds_2 { length s.now - spec.tag_length ≤ length out.old }
    ensures value { result ≡ authentic (ciph_at aes.now.rounds aes.now.w.now) (nonce_bytes n) s.now }
    ensures out_after { out.new
        ≡ cond result (put out.old 0 (spec.opened (ciph_at aes.now.rounds aes.now.w.now) (nonce_bytes n) s.now))
        out.old }
{
    let len = s.len() - TAG;
    let mut g = [0u64; 128];
    write_hash_table(&mut g, aes);
    let tag = tag_of(aes, &g, n, &s[..len]);
    let good = octets::equal(&tag, &s[len..]);
    if good {
        crypt_into(aes, n, &s[..len], out);
    }
    good
}

// Nk for a key of k bytes, where the nonce has 12, the text is not over 2^36 - 32 bytes and there is room for what is due.
fn lawful_words(k: usize, n: usize, len: usize, due: usize, room: usize) -> Option<usize>
    ensures some { IfSome result (λ nk. Fits k n len due room nk) }
    ensures none { IfNone result (fits k n len due room ≡ false) }
{
    if n != 12 {
        return None;
    }
    if len > 0xf_ffff_ffe0 {
        return None;
    }
    if due > room {
        return None;
    }
    aes::key::key_words(k)
}

// Seals a text under a key of 16, 24 or 32 bytes and a nonce of 12: ciphertext and tag, 16 bytes more than the text, to the
// front of the lent buffer. A wrong length, a text over 2^36 - 32 bytes or too little room is refused: false, and nothing
// is written.
pub fn seal(key: &[u8], nonce: &[u8], text: &[u8], out: &mut [u8]) -> bool
    ensures value { result ≡ seal_lawful key.now nonce.now text.now out.old }
    ensures out_after { out.new ≡ sealed_of key.now nonce.now text.now out.old }
{
    let Some(nk) = lawful_words(
        key.len(),
        nonce.len(),
        text.len(),
        text.len() + TAG,
        out.len(),
    ) else {
        return false;
    };
    let sbox = aes_tables::sbox();
    let t = aes_tables::mix_table();
    let w = aes::key::expand(&sbox, key, nk);
    let aes = Encryptor {
        t: &t,
        sbox: &sbox,
        w: &w,
        rounds: nk + 6,
    };
    seal_at(&aes, nonce, text, out);
    true
}

// Seals in place, from lent tables: the text is all but the last 16 bytes of the lent buffer, which are for the tag. A wrong
// length of key or nonce, a buffer without room for a tag or a text over 2^36 - 32 bytes is refused: false, and nothing is
// written.
pub fn seal_in_place_with(
    t: &[u32; 256],
    sbox: &[u8; 256],
    key: &[u8],
    nonce: &[u8],
    body: &mut [u8],
) -> bool
    requires table { IsTable mix_entry t.now }
    requires table_2 { IsTable s_box sbox.now }
    ensures value { result ≡ in_place_lawful key.now nonce.now body.old }
    ensures body_after { body.new ≡ sealed_in_place key.now nonce.now body.old }
{
    if body.len() < TAG {
        return false;
    }
    let len = body.len() - TAG;
    let Some(nk) = lawful_words(key.len(), nonce.len(), len, len, body.len()) else {
        return false;
    };
    let w = aes::key::expand(sbox, key, nk);
    let aes = Encryptor {
        t,
        sbox,
        w: &w,
        rounds: nk + 6,
    };
    let mut g = [0u64; 128];
    write_hash_table(&mut g, &aes);
    seal_in_place_at(&aes, &g, nonce, body);
    true
}

// Opens ciphertext and tag, from lent tables: the text, 16 bytes less, to the front of the lent buffer. Nothing is written where
// the tag is wrong, or where a length or the room is.
pub fn open_with(
    t: &[u32; 256],
    sbox: &[u8; 256],
    key: &[u8],
    nonce: &[u8],
    s: &[u8],
    out: &mut [u8],
) -> Result<(), OpenError>
    requires table { IsTable mix_entry t.now }
    requires table_2 { IsTable s_box sbox.now }
    ensures value { result ≡ open_answer key.now nonce.now s.now out.old }
    ensures out_after { out.new ≡ open_out key.now nonce.now s.now out.old }
{
    if s.len() < TAG {
        return Err(OpenError::Unlawful);
    }
    let due = s.len() - TAG;
    let Some(nk) = lawful_words(key.len(), nonce.len(), due, due, out.len()) else {
        return Err(OpenError::Unlawful);
    };
    let w = aes::key::expand(sbox, key, nk);
    let aes = Encryptor {
        t,
        sbox,
        w: &w,
        rounds: nk + 6,
    };
    if open_at(&aes, ctr::read_nonce(nonce), s, out) {
        return Ok(());
    }
    Err(OpenError::Forged)
}

// The same, with tables of its own.
pub fn open(key: &[u8], nonce: &[u8], s: &[u8], out: &mut [u8]) -> Result<(), OpenError>
    ensures value { result ≡ open_answer key.now nonce.now s.now out.old }
    ensures out_after { out.new ≡ open_out key.now nonce.now s.now out.old }
{
    let sbox = aes_tables::sbox();
    let t = aes_tables::mix_table();
    open_with(&t, &sbox, key, nonce, s, out)
}
