// The inverse cipher of AES, FIPS 197 section 5.3. It is used for one block a datagram, so it is plain.
#![tactic(auto)]

ghost use Rattle.std.specs.Prelude.{◌≡◌, map, ◌∷◌, [], ◌/◌, ◌%◌, ◌<◌};
ghost use Rattle.octets.specs.Buffers.{◌⊞◌};
ghost use Rattle.aes_tables.specs.SBox.{s_box, inv_sbox};
ghost use Rattle.aes_tables.specs.Tables.{IsTable, inv_mix_entry};
ghost use Rattle.aes_inverse.specs.InvCipher.{inv_sub_bytes, inv_shift_rows, inv_mix_columns, inv_mix_column, inv_cipher as inv_cipher_of, inv_aes};
ghost use Rattle.aes.specs.Keyed.{lawful, in_place};
ghost use Rattle.aes.specs.Words.{bytes, block_bytes};

use aes::key::{expand, key_words};
use aes::word::{byte0, byte1, byte2, byte3, mixed, substituted};
use aes::{Block, add, read_block, round_key, write_block};

// A column after InvShiftRows and InvSubBytes.
fn sub_column(sbox: &[u8; 256], a: u32, b: u32, c: u32, d: u32) -> u32
    requires { IsTable inv_sbox sbox.now }
    ensures { bytes result ≡ inv_sbox (a % 256) ∷ inv_sbox (b / 256 % 256) ∷ inv_sbox (c / 65536 % 256) ∷ inv_sbox (d / 16777216 % 256) ∷ [] }
{
    substituted(sbox, byte0(a), byte1(b), byte2(c), byte3(d))
}

// A column after InvMixColumns.
fn mix_column(t: &[u32; 256], w: u32) -> u32
    requires { IsTable inv_mix_entry t.now }
    ensures { bytes result ≡ inv_mix_column (w % 256) (w / 256 % 256) (w / 65536 % 256) (w / 16777216 % 256) }
{
    mixed(t, byte0(w), byte1(w), byte2(w), byte3(w))
}

fn sub_round(sbox: &[u8; 256], s: Block, k: Block) -> Block
    requires { IsTable inv_sbox sbox.now }
    ensures { block_bytes result ≡ inv_sub_bytes (inv_shift_rows (block_bytes s)) ⊞ block_bytes k }
{
    add(
        Block {
            a: sub_column(sbox, s.a, s.d, s.c, s.b),
            b: sub_column(sbox, s.b, s.a, s.d, s.c),
            c: sub_column(sbox, s.c, s.b, s.a, s.d),
            d: sub_column(sbox, s.d, s.c, s.b, s.a),
        },
        k,
    )
}

fn mix_columns(t: &[u32; 256], s: Block) -> Block
    requires { IsTable inv_mix_entry t.now }
    ensures { block_bytes result ≡ inv_mix_columns (block_bytes s) }
{
    Block {
        a: mix_column(t, s.a),
        b: mix_column(t, s.b),
        c: mix_column(t, s.c),
        d: mix_column(t, s.d),
    }
}

// INVCIPHER, at an expanded key and its number of rounds.
fn inv_cipher(t: &[u32; 256], sbox: &[u8; 256], w: &[u32; 60], rounds: usize, x: Block) -> Block
    requires table { IsTable inv_mix_entry t.now }
    requires table_2 { IsTable inv_sbox sbox.now }
    requires rounds_nonzero { 0 < rounds }
    requires rounds_bound { rounds < 15 }
    ensures { block_bytes result ≡ inv_cipher_of rounds (map bytes w.now) (block_bytes x) }
{
    let mut s = add(x, round_key(w, rounds));
    for i in (1..rounds).rev() {
        s = mix_columns(t, sub_round(sbox, s, round_key(w, i)));
    }
    sub_round(sbox, s, round_key(w, 0))
}

// Decrypts a block in place, as encrypt_with encrypts it, with the key expansion's table lent.
pub fn decrypt_with(key_sbox: &[u8; 256], key: &[u8], block: &mut [u8]) -> bool
    requires { IsTable s_box key_sbox.now }
    ensures value { result ≡ lawful 16 key.now block.old }
    ensures block_after { block.new ≡ in_place inv_aes key.now block.old }
{
    let Some(nk) = key_words(key.len()) else {
        return false;
    };
    if block.len() != 16 {
        return false;
    }
    let w = expand(key_sbox, key, nk);
    let sbox = aes_tables::inv_sbox();
    let t = aes_tables::inv_mix_table();
    let x = inv_cipher(&t, &sbox, &w, nk + 6, read_block(block, 0));
    write_block(block, 0, x);
    true
}

// The same, with tables of its own.
pub fn decrypt_block(key: &[u8], block: &mut [u8]) -> bool
    ensures value { result ≡ lawful 16 key.now block.old }
    ensures block_after { block.new ≡ in_place inv_aes key.now block.old }
{
    let sbox = aes_tables::sbox();
    decrypt_with(&sbox, key, block)
}
