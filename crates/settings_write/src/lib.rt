// Writes a file of settings.
#![tactic(auto)]

ghost use Rattle.std.specs.Prelude.{◌≡◌, true, ◌+◌, ◌≤◌, length, take};
ghost use Rattle.octets.specs.Buffers.{put};
ghost use Rattle.blake3.specs.Tree.{hash};
ghost use Rattle.settings_file.specs.Format.{place_of, hash_length};
ghost use Rattle.settings_write.specs.Writing.{size_of, given, describes, writable, all_writable, entry_bytes, entries, covered, file_of, file_length, Writable, InTwoBytes, length_answer, write_answer, write_out};

use protocol::Refusal;
use settings_file::{HASH, MAX_FILE};
use settings_rules::{is_lawful, is_unknown};

// The highest number of a setting: it has 2 bytes in the file.
const MAX_NUMBER: u64 = 65535;

// ---- what is given: two words for each setting, number and length, and the bodies back to back

// Whether the words come in pairs and their lengths add up to those of the bodies. Lengths are taken from what is left, so that no sum
// could wrap.
fn describes(settings: &[u64], bodies: usize) -> bool
    ensures { result ≡ describes settings.now bodies }
{
    let (pairs, odd) = settings.as_chunks::<2>();
    if !odd.is_empty() {
        return false;
    }
    let mut left = bodies as u64;
    for &[_, len] in pairs {
        if left < len {
            return false;
        }
        left -= len;
    }
    left == 0
}

// Whether a setting may be written whose number is to be at least `least`.
#[tactic(auto, unfolding(crate::specs::Writing::writable))]
fn is_writable(number: u64, body: &[u8], least: u64) -> bool
    ensures { result ≡ writable number body.now least }
{
    least <= number && number <= MAX_NUMBER && !is_unknown(number) && is_lawful(number, body)
}

// Whether all settings may be written, with numbers that rise.
fn are_writable(settings: &[u64], bodies: &[u8]) -> bool
    requires { describes settings.now (length bodies.now) ≡ true }
    ensures { result ≡ all_writable (given settings.now bodies.now) }
{
    let (pairs, _) = settings.as_chunks::<2>();
    let mut rest = bodies;
    let mut least: u64 = 0;
    for &[number, len] in pairs {
        let (body, behind) = rest.split_at(len as usize);
        if !is_writable(number, body, least) {
            return false;
        }
        rest = behind;
        least = number + 1;
    }
    true
}

// ---- what is answered

// Refusals 2 and 3, in this order, or the file's length. Each part is compared first, so that no sum could wrap.
#[tactic(auto, unfolding(crate::specs::Writing::length_answer))]
fn length_answer(count: usize, bodies: usize, room: usize) -> Result<usize, Refusal>
    ensures { result ≡ length_answer (place_of count + bodies + hash_length) room }
{
    if count > MAX_FILE || bodies > MAX_FILE {
        return Err(Refusal::Length);
    }
    let n = 4 + 6 * count + bodies + HASH;
    if n > MAX_FILE {
        return Err(Refusal::Length);
    }
    if n > room {
        return Err(Refusal::Room);
    }
    Ok(n)
}

// Refusals 1, 12, 2 and 3, in this order, or the file's length.
#[tactic(auto, unfolding(crate::specs::Writing::write_answer))]
fn write_answer(settings: &[u64], bodies: &[u8], room: usize) -> Result<usize, Refusal>
    ensures { result ≡ write_answer settings.now bodies.now room }
{
    if !describes(settings, bodies.len()) {
        return Err(Refusal::Settings);
    }
    if !are_writable(settings, bodies) {
        return Err(Refusal::Argument);
    }
    length_answer(settings.len() / 2, bodies.len(), room)
}

// ---- the file

fn write_entry(out: &mut [u8], at: usize, number: u16, offset: u16, len: u16)
    requires { at + 6 ≤ length out.old }
    ensures { out.new ≡ put out.old at (entry_bytes number offset len) }
{
    octets::write_u16_be(out, at, number);
    octets::write_u16_be(out, at + 2, offset);
    octets::write_u16_be(out, at + 4, len);
}

// The contents behind edition and count. The first body begins behind them.
fn write_entries(out: &mut [u8], settings: &[u64])
    requires in_two_bytes { InTwoBytes settings.now }
    requires settings_in_bounds { place_of (size_of settings.now) ≤ length out.old }
    ensures { out.new
        ≡ put out.old 4 (entries settings.now (size_of settings.now) 0) }
{
    let (pairs, _) = settings.as_chunks::<2>();
    let mut offset: usize = 4 + 6 * pairs.len();
    for (i, &[number, len]) in pairs.iter().enumerate() {
        write_entry(out, 4 + 6 * i, number as u16, offset as u16, len as u16);
        offset += len as usize;
    }
}

// All that the hash covers.
fn write_covered(out: &mut [u8], edition: u16, settings: &[u64], bodies: &[u8])
    requires writable { Writable settings.now bodies.now }
    requires bodies_in_bounds { file_length settings.now (length bodies.now) ≤ length out.old }
    ensures { out.new
        ≡ put out.old 0 (covered edition settings.now bodies.now) }
{
    let n = settings.len() / 2;
    octets::write_u16_be(out, 0, edition);
    octets::write_u16_be(out, 2, n as u16);
    write_entries(out, settings);
    octets::copy(out, 4 + 6 * n, bodies);
}

// The hash of what stands before a place, at that place.
fn write_hash(out: &mut [u8], at: usize)
    requires { at + hash_length ≤ length out.old }
    ensures { out.new ≡ put out.old at (hash (take at out.old)) }
{
    let h = blake3_tree::hash(&out[..at]);
    octets::copy(out, at, &h);
}

// Writes the file of the settings that two words each describe, number and length, to the front of the lent buffer. Refused with 1 (the
// words do not describe the bodies), 12 (a setting that the file may not have, or a number not over the one before), 2 (over the longest
// file) or 3 (no room), with nothing written.
pub fn write(
    edition: u16,
    settings: &[u64],
    bodies: &[u8],
    out: &mut [u8],
) -> Result<usize, Refusal>
    ensures value { result ≡ write_answer settings.now bodies.now (length out.old) }
    ensures out_after { out.new
        ≡ write_out result (file_of edition settings.now bodies.now) out.old }
{
    let n = write_answer(settings, bodies, out.len())?;
    write_covered(out, edition, settings, bodies);
    write_hash(out, n - HASH);
    Ok(n)
}
