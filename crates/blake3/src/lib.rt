// BLAKE3's key derivation, from a context and key material of at most one block of 64 bytes each: each is then one chunk of
// one block, the root of its own tree, and costs one compression.
#![tactic(auto)]

ghost use Rattle.std.specs.Prelude.{◌≡◌, ◌*◌, ◌≤◌, length};
ghost use Rattle.octets.specs.Buffers.{put};
ghost use Rattle.blake3_compression.specs.Compression.{first_eight};
ghost use Rattle.blake3.specs.Words.{block_words, word_bytes};
ghost use Rattle.blake3.specs.Tree.{root_of, output_words, context_key, derive_at, derive_key};
ghost use Rattle.blake3.specs.Derivation.{derived, subkey_context};

use blake3_compression::compress;

pub const CHUNK_START: u32 = 1;

pub const CHUNK_END: u32 = 2;

pub const ROOT: u32 = 8;

const DERIVE_KEY_CONTEXT: u32 = 32;

const DERIVE_KEY_MATERIAL: u32 = 64;

pub const IV: [u32; 8] = [
    0x6A09_E667,
    0xBB67_AE85,
    0x3C6E_F372,
    0xA54F_F53A,
    0x510E_527F,
    0x9B05_688C,
    0x1F83_D9AB,
    0x5BE0_CD19,
];

// The key words of the context "shadowsocks 2022 session subkey".
const SUBKEY_CONTEXT_KEY: [u32; 8] = [
    0x31ae_821a,
    0xa375_eea4,
    0xea62_276a,
    0x218e_45be,
    0x86bb_309d,
    0xed8a_e6db,
    0x9af9_739c,
    0x5f62_6ac7,
];

// What a derivation answers: 64 bytes; or not ok, and zeros. A flag beside the bytes and no Option, since `derived` promises the
// zeros of a refusal.
#[derive(Clone, Copy)]
pub struct Derived {
    pub ok: bool,
    pub bytes: [u8; 64],
}

// The sixteen words of a block, with zeros behind it.
#[inline(always)]
pub fn block_words(s: &[u8]) -> [u32; 16]
    ensures { result ≡ block_words s.now }
{
    [
        octets::read_u32_le(s, 0),
        octets::read_u32_le(s, 4),
        octets::read_u32_le(s, 8),
        octets::read_u32_le(s, 12),
        octets::read_u32_le(s, 16),
        octets::read_u32_le(s, 20),
        octets::read_u32_le(s, 24),
        octets::read_u32_le(s, 28),
        octets::read_u32_le(s, 32),
        octets::read_u32_le(s, 36),
        octets::read_u32_le(s, 40),
        octets::read_u32_le(s, 44),
        octets::read_u32_le(s, 48),
        octets::read_u32_le(s, 52),
        octets::read_u32_le(s, 56),
        octets::read_u32_le(s, 60),
    ]
}

pub fn first_eight(o: [u32; 16]) -> [u32; 8]
    ensures { result ≡ first_eight o }
{
    [o[0], o[1], o[2], o[3], o[4], o[5], o[6], o[7]]
}

// The bytes of some words, to the front of a buffer.
pub fn write_words(out: &mut [u8], o: &[u32])
    requires { 4 * length o.now ≤ length out.old }
    ensures { out.new ≡ put out.old 0 (word_bytes o.now) }
{
    for (i, word) in o.iter().enumerate() {
        octets::write_u32_le(out, 4 * i, *word);
    }
}

fn word_bytes(o: [u32; 16]) -> [u8; 64]
    ensures { result ≡ word_bytes o }
{
    let mut b = [0u8; 64];
    write_words(&mut b, &o);
    b
}

// The first sixteen words of output for an input of one block.
fn output_words(k: [u32; 8], d: u32, s: &[u8]) -> [u32; 16]
    requires d_bound { d ≤ 64 }
    requires s_len_bound { length s.now ≤ 64 }
    ensures { result ≡ output_words (root_of k d s.now) 0 }
{
    let flags = d + CHUNK_START + CHUNK_END + ROOT;
    compress(k, block_words(s), 0, s.len() as u32, flags)
}

fn context_key(context: &[u8]) -> [u32; 8]
    requires { length context.now ≤ 64 }
    ensures { result ≡ context_key context.now }
{
    first_eight(output_words(IV, DERIVE_KEY_CONTEXT, context))
}

// What a context's key words give of the material.
fn derive_at(k: [u32; 8], material: &[u8]) -> [u8; 64]
    requires { length material.now ≤ 64 }
    ensures { result ≡ derive_at k material.now }
{
    word_bytes(output_words(k, DERIVE_KEY_MATERIAL, material))
}

// derive_key: the first 64 bytes of output. A context or key material of over 64 bytes is refused.
pub fn derive_key(context: &[u8], material: &[u8]) -> Derived
    ensures { result ≡ derived context.now material.now }
{
    if context.len() > 64 {
        return Derived {
            ok: false,
            bytes: [0u8; 64],
        };
    }
    if material.len() > 64 {
        return Derived {
            ok: false,
            bytes: [0u8; 64],
        };
    }
    let bytes = derive_at(context_key(context), material);
    Derived { ok: true, bytes }
}

// derive_key with the context "shadowsocks 2022 session subkey", whose key words are a constant.
pub fn derive_subkey(material: &[u8]) -> [u8; 64]
    requires { length material.now ≤ 64 }
    ensures { result ≡ derive_key subkey_context material.now }
{
    derive_at(SUBKEY_CONTEXT_KEY, material)
}
