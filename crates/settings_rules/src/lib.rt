// Which settings a file may have: the numbers that are known, and the bodies that are lawful for them.
#![tactic(auto)]

ghost use Rattle.std.specs.Prelude.{◌≡◌};
ghost use Rattle.settings_rules.specs.Rules.{is_known, is_unknown, is_method, lawful_method, lawful_retention_body, lawful_limit, lawful};

use datagram_parts::MAX_DATAGRAM;

// The numbers of the settings that are known. No enum: a file and C's words may have any other number too.
pub const METHOD: u64 = 1;

pub const RETENTION: u64 = 2;

pub const LIMIT: u64 = 3;

pub const TARGET: u64 = 4;

// Unknown settings from this number on are skipped.
pub const FIRST_SKIPPED: u64 = 128;

#[tactic(auto, unfolding(crate::specs::Rules::is_known))]
fn is_known(number: u64) -> bool
    ensures { result ≡ is_known number }
{
    METHOD <= number && number <= TARGET
}

// Whether a setting of this number is refused because nothing is known of it.
#[tactic(auto, unfolding(crate::specs::Rules::is_unknown))]
pub fn is_unknown(number: u64) -> bool
    ensures { result ≡ is_unknown number }
{
    number < FIRST_SKIPPED && !is_known(number)
}

// Whether there is a method of this number, in either edition.
#[tactic(auto, unfolding(crate::specs::Rules::is_method))]
fn is_method(number: u64) -> bool
    ensures { result ≡ is_method number }
{
    0 < protocol::key_length(number) || 0 < sip004::key_length(number)
}

#[tactic(auto, unfolding(crate::specs::Rules::lawful_method))]
fn is_method_body(body: &[u8]) -> bool
    ensures { result ≡ lawful_method body.now }
{
    body.len() == 1 && is_method(octets::byte_or_zero(body, 0) as u64)
}

#[tactic(auto, unfolding(crate::specs::Rules::lawful_retention_body))]
fn is_retention_body(body: &[u8]) -> bool
    ensures { result ≡ lawful_retention_body body.now }
{
    body.len() == 2 && retention::is_lawful(octets::read_u16_be(body, 0) as u64)
}

#[tactic(auto, unfolding(crate::specs::Rules::lawful_limit))]
fn is_limit_body(body: &[u8]) -> bool
    ensures { result ≡ lawful_limit body.now }
{
    body.len() == 4 && octets::read_u32_be(body, 0) as usize <= MAX_DATAGRAM
}

// Whether a setting of this number may have this body. A number that is not known may have any.
#[tactic(auto, unfolding(crate::specs::Rules::lawful))]
pub fn is_lawful(number: u64, body: &[u8]) -> bool
    ensures { result ≡ lawful number body.now }
{
    match number {
        METHOD => is_method_body(body),
        RETENTION => is_retention_body(body),
        LIMIT => is_limit_body(body),
        TARGET => socks5::is_address(body),
        _ => true,
    }
}
