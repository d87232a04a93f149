// The cipher, FIPS 197 section 5.1.
ghost use Rattle.std.specs.Prelude.{◌≡◌, map, ◌∷◌, [], ◌/◌, ◌%◌, ◌<◌};
ghost use Rattle.octets.specs.Buffers.{◌⊞◌};
ghost use Rattle.aes_tables.specs.SBox.{s_box};
ghost use Rattle.aes_tables.specs.Tables.{IsTable, mix_entry};
ghost use Rattle.aes.specs.Cipher.{sub_bytes, shift_rows, mix_columns, mix_column, cipher as cipher_of};
ghost use Rattle.aes.specs.KeyExpansion.{aes};
ghost use Rattle.aes.specs.Keyed.{lawful, in_place};
ghost use Rattle.aes.specs.Words.{CanEncrypt, bytes, block_bytes};

use super::key::{expand, key_words};
use super::word::{byte0, byte1, byte2, byte3, mixed, substituted};
use super::{Block, add, read_block, round_key, write_block};

// A column after SubBytes, ShiftRows and MixColumns.
fn column(t: &[u32; 256], a: u32, b: u32, c: u32, d: u32) -> u32
    requires { IsTable mix_entry t.now }
    ensures { bytes result ≡ mix_column (s_box (a % 256)) (s_box (b / 256 % 256)) (s_box (c / 65536 % 256)) (s_box (d / 16777216 % 256)) }
{
    mixed(t, byte0(a), byte1(b), byte2(c), byte3(d))
}

// A column after SubBytes and ShiftRows.
pub fn last_column(sbox: &[u8; 256], a: u32, b: u32, c: u32, d: u32) -> u32
    requires { IsTable s_box sbox.now }
    ensures { bytes result ≡ s_box (a % 256) ∷ s_box (b / 256 % 256) ∷ s_box (c / 65536 % 256) ∷ s_box (d / 16777216 % 256) ∷ [] }
{
    substituted(sbox, byte0(a), byte1(b), byte2(c), byte3(d))
}

fn round(t: &[u32; 256], s: Block, k: Block) -> Block
    requires { IsTable mix_entry t.now }
    ensures { block_bytes result ≡ mix_columns (shift_rows (sub_bytes (block_bytes s))) ⊞ block_bytes k }
{
    add(
        Block {
            a: column(t, s.a, s.b, s.c, s.d),
            b: column(t, s.b, s.c, s.d, s.a),
            c: column(t, s.c, s.d, s.a, s.b),
            d: column(t, s.d, s.a, s.b, s.c),
        },
        k,
    )
}

pub fn final_round(sbox: &[u8; 256], s: Block, k: Block) -> Block
    requires { IsTable s_box sbox.now }
    ensures { block_bytes result ≡ shift_rows (sub_bytes (block_bytes s)) ⊞ block_bytes k }
{
    add(
        Block {
            a: last_column(sbox, s.a, s.b, s.c, s.d),
            b: last_column(sbox, s.b, s.c, s.d, s.a),
            c: last_column(sbox, s.c, s.d, s.a, s.b),
            d: last_column(sbox, s.d, s.a, s.b, s.c),
        },
        k,
    )
}

// AES at an expanded key, from lent tables.
#[derive(Clone, Copy)]
pub struct Encryptor<'a> {
    pub t: &'a [u32; 256],
    pub sbox: &'a [u8; 256],
    pub w: &'a [u32; 60],
    pub rounds: usize,
    ghost can_encrypt: { CanEncrypt t.now sbox.now rounds },
}

impl Encryptor<'_> {
    // CIPHER.
    pub fn cipher(&self, x: Block) -> Block
        ensures { block_bytes result
            ≡ cipher_of self.now.rounds (map bytes self.now.w.now) (block_bytes x) }
    {
        let mut s = add(x, round_key(self.w, 0));
        for i in 1..self.rounds {
            s = round(self.t, s, round_key(self.w, i));
        }
        final_round(self.sbox, s, round_key(self.w, self.rounds))
    }
}

// Encrypts a block in place under a key of 16, 24 or 32 bytes, from lent tables. Any other length of either is refused: false,
// and the block stays.
pub fn encrypt_with(t: &[u32; 256], sbox: &[u8; 256], key: &[u8], block: &mut [u8]) -> bool
    requires table { IsTable mix_entry t.now }
    requires table_2 { IsTable s_box sbox.now }
    ensures value { result ≡ lawful 16 key.now block.old }
    ensures block_after { block.new ≡ in_place aes key.now block.old }
{
    let Some(nk) = key_words(key.len()) else {
        return false;
    };
    if block.len() != 16 {
        return false;
    }
    let w = expand(sbox, key, nk);
    let aes = Encryptor {
        t,
        sbox,
        w: &w,
        rounds: nk + 6,
    };
    let x = aes.cipher(read_block(block, 0));
    write_block(block, 0, x);
    true
}

// The same, with tables of its own.
pub fn encrypt_block(key: &[u8], block: &mut [u8]) -> bool
    ensures value { result ≡ lawful 16 key.now block.old }
    ensures block_after { block.new ≡ in_place aes key.now block.old }
{
    let sbox = aes_tables::sbox();
    let t = aes_tables::mix_table();
    encrypt_with(&t, &sbox, key, block)
}
