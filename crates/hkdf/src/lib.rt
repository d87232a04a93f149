// HKDF (RFC 5869) with SHA-1.
#![tactic(auto)]

ghost use Rattle.std.specs.Prelude.{◌≡◌, List, [], ◌∷◌, ◌++◌, ℕ, ◌+◌, ◌-◌, ◌<◌, ◌≤◌, min, length, take, replicate};
ghost use Rattle.octets.specs.Buffers.{put};
ghost use Rattle.hmac.specs.Hmac.{keyed_of, mac_with};
ghost use Rattle.hkdf.specs.Hkdf.{extract as extract_of, expand as expand_of, hkdf as hkdf_of, lawful, given};
ghost use Rattle.hkdf.specs.Buffer.{laid, start_at, message, before};

use hmac::Keyed;

// HKDF-Extract.
pub fn extract(salt: &[u8], ikm: &[u8]) -> [u8; 20]
    ensures { result ≡ extract_of salt.now ikm.now }
{
    hmac::hmac(salt, ikm)
}

// Where the message for T(i + 1) starts in the buffer.
fn start_at(i: usize) -> usize
    ensures value { result ≡ start_at i }
    ensures upper_bound { result ≤ 20 }
{
    if i == 0 { 20 } else { 0 }
}

// The buffer in which T(i) | info | i + 1 is made, under a key that was made ready: 20 bytes for T(i), info of so many bytes, and
// the counter.
#[derive(Drop)]
struct Expansion {
    key: Keyed,
    buffer: [u8; 256],
    info_len: usize,
    ghost info_fits: { info_len ≤ 235 },
}

impl Expansion {
    // HMAC of the message for T(i + 1).
    fn mac(&self, i: usize) -> [u8; 20]
        ensures { result ≡ mac_with self.now.key (message self.now.buffer self.now.info_len i) }
    {
        let from = start_at(i);
        let end = 21 + self.info_len;
        hmac::mac(self.key, &self.buffer[from..end])
    }

    // T(i + 1) in the place of T(i).
    fn next(&mut self, i: usize)
        requires { i < 255 }
        ensures key { self.new.key ≡ self.old.key }
        ensures info_len { self.new.info_len ≡ self.old.info_len }
        ensures by_index { (t info : List ℕ) → length t ≡ 20 → length info ≡ self.old.info_len → self.old.buffer ≡ laid t info i → self.new.buffer ≡ laid (mac_with self.old.key (before i t ++ (info ++ (i + 1) ∷ []))) info (i + 1) }
    {
        self.buffer[20 + self.info_len] = (i + 1) as u8;
        let t = self.mac(i);
        octets::copy(&mut self.buffer, 0, &t);
    }
}

// The first 20 bytes of t, or as many as there is room for.
fn emit(out: &mut [u8], at: usize, t: &[u8])
    requires at_in_bounds { at ≤ length out.old }
    requires in_bounds { 20 ≤ length t.now }
    ensures { out.new ≡ put out.old at (take (min (length out.old - at) 20) t.now) }
{
    let n = (out.len() - at).min(20);
    octets::copy(out, at, &t[..n]);
}

// T(1) | T(2) | .. as far as there is room, from a buffer with info in its place.
fn blocks(mut e: Expansion, out: &mut [u8])
    requires { length out.old ≤ 5100 }
    ensures { (prk info : List ℕ) → e.key ≡ keyed_of prk → length info ≡ e.info_len → e.buffer ≡ laid (replicate 20 0) info 0 → out.new ≡ expand_of prk info (length out.old) }
{
    let n = (out.len() + 19) / 20;
    // An index: it is the counter, and its place in what is lent is 20 times it.
    for i in 0..n {
        e.next(i);
        emit(out, 20 * i, &e.buffer);
    }
}

// HKDF-Expand under a key that was made ready.
fn fill(k: Keyed, info: &[u8], out: &mut [u8])
    requires info_len_bound { length info.now ≤ 235 }
    requires out_len_bound { length out.old ≤ 5100 }
    ensures { (prk : List ℕ) → k ≡ keyed_of prk → out.new ≡ expand_of prk info.now (length out.old) }
{
    let mut buffer = [0u8; 256];
    octets::copy(&mut buffer, 20, info);
    let e = Expansion {
        key: k,
        buffer,
        info_len: info.len(),
    };
    blocks(e, out);
}

// HKDF-Expand: as many bytes as the lent memory has. Over 5,100 of them, or info of over 235 bytes, are refused: false, and the
// memory stays.
fn expand(prk: &[u8], info: &[u8], out: &mut [u8]) -> bool
    ensures value { result ≡ lawful info.now (length out.old) }
    ensures out_after { out.new ≡ given result (expand_of prk.now info.now (length out.old)) out.old }
{
    if info.len() > 235 {
        return false;
    }
    if out.len() > 5100 {
        return false;
    }
    fill(hmac::key(prk), info, out);
    true
}

// HKDF: HKDF-Extract and then HKDF-Expand, with its refusals.
pub fn hkdf(salt: &[u8], ikm: &[u8], info: &[u8], out: &mut [u8]) -> bool
    ensures value { result ≡ lawful info.now (length out.old) }
    ensures out_after { out.new ≡ given result (hkdf_of salt.now ikm.now info.now (length out.old)) out.old }
{
    let prk = extract(salt, ikm);
    expand(&prk, info, out)
}
