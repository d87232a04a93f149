// Reads a file of settings.
#![tactic(auto)]

ghost use Rattle.std.specs.Prelude.{◌≡◌, ◌≤◌, length};
ghost use Rattle.settings_file.specs.Format.{min_file, WellMade};
ghost use Rattle.settings_read.specs.Reading.{setting_at, settings_in, is_hashed, made_answer, read_answer};
ghost use Rattle.settings_read.specs.Places.{place_in};

use protocol::Refusal;
use settings_file::{HASH, MAX_FILE, MIN_FILE};
use settings_rules::{LIMIT, METHOD, RETENTION, TARGET};
use socks5::Target;

// What a file sets: retention 0 is shown as 0.
#[derive(Clone, Copy)]
pub struct Settings {
    pub edition: u16,
    pub method: Option<u64>,
    pub retention: Option<u64>,
    pub limit: Option<u64>,
    pub target: Option<(Target, u16)>,
}

// Where the body of the setting of a number begins.
fn body_place(s: &[u8], number: u64) -> Option<usize>
    ensures { result ≡ place_in s.now (setting_at s.now number) }
{
    settings_file::find(s, number).map(|i| settings_file::read_entry(s, i).offset as usize)
}

// A retention of 0 stays 0.
fn settings_in(s: &[u8]) -> Settings
    requires { WellMade s.now }
    ensures { result ≡ settings_in s.now }
{
    let method = body_place(s, METHOD).map(|at| octets::byte_or_zero(s, at) as u64);
    let retention = body_place(s, RETENTION).map(|at| octets::read_u16_be(s, at) as u64);
    let limit = body_place(s, LIMIT).map(|at| octets::read_u32_be(s, at) as u64);
    let address = body_place(s, TARGET).and_then(|at| socks5::parse(s, at));
    let target = address.map(|a| (a.target, a.port));
    Settings {
        edition: settings_file::edition(s),
        method,
        retention,
        limit,
        target,
    }
}

// Whether the last bytes are the hash of all before them.
#[tactic(auto, unfolding(crate::specs::Reading::is_hashed))]
fn is_hashed(s: &[u8]) -> bool
    requires { min_file ≤ length s.now }
    ensures { result ≡ is_hashed s.now }
{
    let (covered, hash) = s.split_at(s.len() - HASH);
    octets::equal(&blake3_tree::hash(covered), hash)
}

// Refusals 5 and 15, in this order, or what is shown.
#[tactic(auto, unfolding(crate::specs::Reading::made_answer))]
fn made_answer(s: &[u8]) -> Result<Settings, Refusal>
    ensures { result ≡ made_answer s.now }
{
    if !settings_file::is_well_made(s) {
        return Err(Refusal::Malformed);
    }
    if let Some(i) = settings_file::find_unknown(s) {
        let e = settings_file::read_entry(s, i);
        return Err(Refusal::UnknownSetting(e.number as u64));
    }
    Ok(settings_in(s))
}

// Reads a file. Refused with 2 (length), 4 (hash), 5 (contents, bodies, an unlawful setting) or 15 (the lowest unknown setting).
#[tactic(auto, unfolding(crate::specs::Reading::read_answer))]
pub fn read(s: &[u8]) -> Result<Settings, Refusal>
    ensures { result ≡ read_answer s.now }
{
    if s.len() < MIN_FILE || s.len() > MAX_FILE {
        return Err(Refusal::Length);
    }
    if !is_hashed(s) {
        return Err(Refusal::NotAuthentic);
    }
    made_answer(s)
}
