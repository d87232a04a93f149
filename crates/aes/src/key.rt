// The key expansion, FIPS 197 section 5.2.
ghost use Rattle.std.specs.Prelude.{◌≡◌, cond, map, ℕ, ◌+◌, ◌-◌, ◌*◌, ◌/◌, ◌%◌, ◌≤◌, eqb, length, take, drop, replicate, IfSome, IfNone};
ghost use Rattle.aes_tables.specs.Field.{x_times};
ghost use Rattle.aes_tables.specs.SBox.{s_box};
ghost use Rattle.aes_tables.specs.Tables.{IsTable};
ghost use Rattle.aes.specs.KeyExpansion.{sub_word, rot_word, x_power, temp as temp_of, key_expansion};
ghost use Rattle.aes.specs.Keyed.{nk_of, KeyLength};
ghost use Rattle.aes.specs.Words.{bytes};

use super::encrypt::last_column;
use super::word::{pack, rotate3};

// Nk for a key of so many bytes, where AES has such a key.
pub fn key_words(len: usize) -> Option<usize>
    ensures some { IfSome result (λ nk. (nk ≡ nk_of len) × KeyLength len nk) }
    ensures none { IfNone result (nk_of len ≡ 0) }
{
    match len {
        16 => Some(4),
        24 => Some(6),
        32 => Some(8),
        _ => None,
    }
}

// SUBWORD.
fn sub_word(sbox: &[u8; 256], w: u32) -> u32
    requires { IsTable s_box sbox.now }
    ensures { bytes result ≡ sub_word (bytes w) }
{
    last_column(sbox, w, w, w, w)
}

// ROTWORD.
fn rot_word(w: u32) -> u32
    ensures { bytes result ≡ rot_word (bytes w) }
{
    rotate3(w)
}

// XTIMES: the next round constant.
fn x_times(b: u8) -> u8
    ensures { result ≡ x_times b }
{
    (b % 128 * 2) ^ (b / 128 * 27)
}

// What is added to a word, and the round constant of the next group's first word.
#[derive(Clone, Copy)]
struct Added {
    word: u32,
    constant: u8,
}

// What is added to word i - nk to make word i, from word i - 1: at is the word's place in its group of nk words. Only a group's
// first word takes a constant, c; the next one is made there, and not beside each word.
fn temp(sbox: &[u8; 256], nk: usize, at: usize, c: u8, t: u32) -> Added
    requires { IsTable s_box sbox.now }
    ensures by_index { (i : ℕ) → i % nk ≡ at → (at ≡ 0 → x_power (i / nk - 1) ≡ c) → bytes result.word ≡ temp_of nk i (bytes t) }
    ensures constant_value { result.constant ≡ cond (eqb at 0) (x_times c) c }
{
    if at == 0 {
        return Added {
            word: sub_word(sbox, rot_word(t)) ^ pack(c, 0, 0, 0),
            constant: x_times(c),
        };
    }
    if 6 < nk {
        if at == 4 {
            return Added {
                word: sub_word(sbox, t),
                constant: c,
            };
        }
    }
    Added {
        word: t,
        constant: c,
    }
}

// KEYEXPANSION for a key of nk words: 4 * nk + 28 words, and zeros behind them.
pub fn expand(sbox: &[u8; 256], key: &[u8], nk: usize) -> [u32; 60]
    requires table { IsTable s_box sbox.now }
    requires key_len { length key.now ≡ 4 * nk }
    requires le_nk { 4 ≤ nk }
    requires nk_bound { nk ≤ 8 }
    ensures result_value { map bytes (take (4 * nk + 28) result) ≡ key_expansion nk key.now }
    ensures result_value_2 { drop (4 * nk + 28) result ≡ replicate (60 - (4 * nk + 28)) 0 }
{
    let mut w = [0u32; 60];
    // An index: once an iter_mut is over that goes beside another iterator, a proof knows the array's length and not its words.
    for i in 0..nk {
        w[i] = pack(key[4 * i], key[4 * i + 1], key[4 * i + 2], key[4 * i + 3]);
    }
    let mut t = w[nk - 1];
    let mut at = 0;
    let mut c = 1;
    // An index: word nk + n is made of word n of the same array.
    for n in 0..3 * nk + 28 {
        let x = temp(sbox, nk, at, c, t);
        t = w[n] ^ x.word;
        w[nk + n] = t;
        c = x.constant;
        at += 1;
        if at == nk {
            at = 0;
        }
    }
    w
}
