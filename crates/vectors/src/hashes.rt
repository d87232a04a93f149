// Calls of SHA-1, HMAC and HKDF. Each answers 0, or 1 for what HKDF refuses.
use crate::case::{DATA, KEY, OTHER, SALT, field};
use crate::ciphers::{fits, refused_unless};

// The kinds of calls.
const HASH: u64 = 8;

const AUTHENTICATE: u64 = 9;

const EXTRACT: u64 = 10;

fn hash(c: &[u8], out: &mut [u8]) -> u64 {
    let digest = sha1_hash::hash(field(c, DATA));
    refused_unless(fits(out, &digest))
}

fn authenticate(c: &[u8], out: &mut [u8]) -> u64 {
    let digest = hmac::hmac(field(c, KEY), field(c, DATA));
    refused_unless(fits(out, &digest))
}

fn extract(c: &[u8], out: &mut [u8]) -> u64 {
    let prk = hkdf::extract(field(c, SALT), field(c, KEY));
    refused_unless(fits(out, &prk))
}

fn derive(c: &[u8], out: &mut [u8]) -> u64 {
    refused_unless(hkdf::hkdf(field(c, SALT), field(c, KEY), field(c, OTHER), out))
}

pub(crate) fn call(c: &[u8], kind: u64, out: &mut [u8]) -> u64 {
    match kind {
        HASH => hash(c, out),
        AUTHENTICATE => authenticate(c, out),
        EXTRACT => extract(c, out),
        _ => derive(c, out),
    }
}
