// Calls of ChaCha, HChaCha, Poly1305 and their AEAD, by a number of double rounds. Each answers 0, or 1 for what is not authentic or
// has not the room. Calls of one shape stay apart: each is of another function.
use crate::case::{DATA, KEY, SALT, field, number, size};
use crate::ciphers::{fits, refused_unless};
use chacha_poly::TAG;

// The kinds of calls.
const ENCRYPT: u64 = 64;

const BLOCK: u64 = 65;

const DERIVE: u64 = 66;

const AUTHENTICATE: u64 = 67;

const AUTHENTICATE_AEAD: u64 = 68;

const SEAL: u64 = 69;

const OPEN: u64 = 70;

const SEAL_EXTENDED: u64 = 71;

// The numbers of calls.
const DOUBLES: usize = 80;

const COUNTER: usize = 88;

fn counter(c: &[u8]) -> u32 {
    (number(c, COUNTER) % 0x1_0000_0000) as u32
}

fn encrypt(c: &[u8], out: &mut [u8]) -> u64 {
    let done = fits(out, field(c, DATA));
    chacha::xor_stream(
        size(c, DOUBLES),
        field(c, KEY),
        counter(c),
        field(c, SALT),
        out,
    );
    refused_unless(done)
}

fn block(c: &[u8], out: &mut [u8]) -> u64 {
    let bytes = chacha::block(size(c, DOUBLES), field(c, KEY), counter(c), field(c, SALT));
    refused_unless(fits(out, &bytes))
}

fn derive(c: &[u8], out: &mut [u8]) -> u64 {
    let subkey = chacha::hchacha(size(c, DOUBLES), field(c, KEY), field(c, SALT));
    refused_unless(fits(out, &subkey))
}

fn authenticate(c: &[u8], out: &mut [u8]) -> u64 {
    let tag = poly1305::mac(field(c, KEY), field(c, DATA));
    refused_unless(fits(out, &tag))
}

fn authenticate_aead(c: &[u8], out: &mut [u8]) -> u64 {
    let tag = poly1305::aead_mac(field(c, KEY), field(c, DATA));
    refused_unless(fits(out, &tag))
}

// The output has just the room for the text and its tag.
fn seal(c: &[u8], out: &mut [u8]) -> u64 {
    let done = fits(out, field(c, DATA));
    if out.len() < TAG {
        return 1;
    }
    chacha_poly::seal_in_place(size(c, DOUBLES), field(c, KEY), field(c, SALT), out);
    refused_unless(done)
}

fn seal_extended(c: &[u8], out: &mut [u8]) -> u64 {
    let done = fits(out, field(c, DATA));
    if out.len() < TAG {
        return 1;
    }
    chacha_poly::seal_extended_in_place(size(c, DOUBLES), field(c, KEY), field(c, SALT), out);
    refused_unless(done)
}

fn open(c: &[u8], out: &mut [u8]) -> u64 {
    let s = field(c, DATA);
    if s.len() < TAG {
        return 1;
    }
    if out.len() < s.len() - TAG {
        return 1;
    }
    refused_unless(chacha_poly::open(size(c, DOUBLES), field(c, KEY), field(c, SALT), s, out))
}

fn open_extended(c: &[u8], out: &mut [u8]) -> u64 {
    let s = field(c, DATA);
    if s.len() < TAG {
        return 1;
    }
    if out.len() < s.len() - TAG {
        return 1;
    }
    refused_unless(chacha_poly::open_extended(
        size(c, DOUBLES),
        field(c, KEY),
        field(c, SALT),
        s,
        out,
    ))
}

pub(crate) fn call(c: &[u8], kind: u64, out: &mut [u8]) -> u64 {
    match kind {
        ENCRYPT => encrypt(c, out),
        BLOCK => block(c, out),
        DERIVE => derive(c, out),
        AUTHENTICATE => authenticate(c, out),
        AUTHENTICATE_AEAD => authenticate_aead(c, out),
        SEAL => seal(c, out),
        OPEN => open(c, out),
        SEAL_EXTENDED => seal_extended(c, out),
        _ => open_extended(c, out),
    }
}
