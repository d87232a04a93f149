// Calls of AES, AES-GCM and BLAKE3's key derivation. Each answers 0, or the number of a refusal.
ghost use Rattle.std.specs.Prelude.{◌≡◌, length};

use crate::case::{DATA, KEY, SALT, field};

// The kinds of calls.
const ENCRYPT: u64 = 1;

const DECRYPT: u64 = 2;

const EXPAND: u64 = 3;

const DERIVE: u64 = 4;

const DERIVE_SUBKEY: u64 = 5;

const SEAL: u64 = 6;

pub(crate) fn refused_unless(done: bool) -> u64 {
    if done { 0 } else { 1 }
}

// Writes a string to the front of a buffer, if there is room.
pub(crate) fn fits(out: &mut [u8], s: &[u8]) -> bool {
    if out.len() < s.len() {
        return false;
    }
    octets::copy(out, 0, s);
    true
}

fn encrypt(c: &[u8], out: &mut [u8]) -> u64 {
    fits(out, field(c, DATA));
    refused_unless(aes::encrypt::encrypt_block(field(c, KEY), out))
}

fn decrypt(c: &[u8], out: &mut [u8]) -> u64 {
    fits(out, field(c, DATA));
    refused_unless(aes_inverse::decrypt_block(field(c, KEY), out))
}

fn derive(c: &[u8], out: &mut [u8]) -> u64 {
    let d = blake3::derive_key(field(c, SALT), field(c, DATA));
    fits(out, &d.bytes);
    refused_unless(d.ok)
}

fn derive_subkey(c: &[u8], out: &mut [u8]) -> u64 {
    let material = field(c, DATA);
    if material.len() > 64 {
        return 1;
    }
    let bytes = blake3::derive_subkey(material);
    fits(out, &bytes);
    0
}

fn seal(c: &[u8], out: &mut [u8]) -> u64 {
    refused_unless(gcm::seal(field(c, KEY), field(c, SALT), field(c, DATA), out))
}

fn open(c: &[u8], out: &mut [u8]) -> u64 {
    match gcm::open(field(c, KEY), field(c, SALT), field(c, DATA), out) {
        Ok(()) => 0,
        Err(gcm::OpenError::Forged) => 1,
        Err(gcm::OpenError::Unlawful) => 2,
    }
}

// Writes the words of a key schedule, each with its lowest byte first.
fn write_schedule(out: &mut [u8], w: &[u32; 60])
    requires { length out.old ≡ 240 }
{
    for (i, word) in w.iter().enumerate() {
        octets::write_u32_le(out, 4 * i, *word);
    }
}

fn expand(c: &[u8], out: &mut [u8]) -> u64 {
    let key = field(c, KEY);
    let nk = key.len() / 4;
    if nk < 4 || 8 < nk || key.len() != 4 * nk || out.len() != 240 {
        return 1;
    }
    let sbox = aes_tables::sbox();
    let w = aes::key::expand(&sbox, key, nk);
    write_schedule(out, &w);
    0
}

pub(crate) fn call(c: &[u8], kind: u64, out: &mut [u8]) -> u64 {
    match kind {
        ENCRYPT => encrypt(c, out),
        DECRYPT => decrypt(c, out),
        DERIVE => derive(c, out),
        DERIVE_SUBKEY => derive_subkey(c, out),
        EXPAND => expand(c, out),
        SEAL => seal(c, out),
        _ => open(c, out),
    }
}
