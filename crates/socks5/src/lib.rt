// Target addresses of RFC 1928 (SOCKS5), section 5.
#![tactic(auto)]

ghost use Rattle.std.specs.Prelude.{◌≡◌, ◌+◌, ◌≤◌, length, get_or};
ghost use Rattle.socks5.specs.Address.{v4_at, v6_at, name_at, parse_at, is_address};

// An IPv4 address, an IPv6 address as two numbers, or the place and length of a name.
#[derive(Clone, Copy)]
pub enum Target {
    V4(u32),
    V6(u64, u64),
    Name(usize, usize),
}

// A target with its port, and the place behind them.
#[derive(Clone, Copy)]
pub struct Address {
    pub target: Target,
    pub port: u16,
    pub end: usize,
}

#[tactic(auto, unfolding(crate::specs::Address::v4_at))]
fn parse_v4(s: &[u8], at: usize) -> Option<Address>
    requires { at ≤ length s.now }
    ensures { result ≡ v4_at s.now at }
{
    if s.len() - at < 7 {
        return None;
    }
    Some(Address {
        target: Target::V4(octets::read_u32_be(s, at + 1)),
        port: octets::read_u16_be(s, at + 5),
        end: at + 7,
    })
}

#[tactic(auto, unfolding(crate::specs::Address::v6_at))]
fn parse_v6(s: &[u8], at: usize) -> Option<Address>
    requires { at ≤ length s.now }
    ensures { result ≡ v6_at s.now at }
{
    if s.len() - at < 19 {
        return None;
    }
    Some(Address {
        target: Target::V6(
            octets::read_u64_be(s, at + 1),
            octets::read_u64_be(s, at + 9),
        ),
        port: octets::read_u16_be(s, at + 17),
        end: at + 19,
    })
}

#[tactic(auto, unfolding(crate::specs::Address::name_at))]
fn parse_name(s: &[u8], at: usize) -> Option<Address>
    requires { at ≤ length s.now }
    ensures { result ≡ name_at s.now at (get_or s.now (at + 1) 0) }
{
    let n = octets::byte_or_zero(s, at + 1) as usize;
    if n == 0 {
        return None;
    }
    if s.len() - at < n + 4 {
        return None;
    }
    let port = at + 2 + n;
    Some(Address {
        target: Target::Name(at + 2, n),
        port: octets::read_u16_be(s, port),
        end: port + 2,
    })
}

// The address at a place. Nothing but kinds 1, 3 and 4 is an address, and nothing past the end is.
#[tactic(auto, unfolding(crate::specs::Address::parse_at))]
pub fn parse(s: &[u8], at: usize) -> Option<Address>
    ensures { result ≡ parse_at s.now at }
{
    match *s.get(at)? {
        1 => parse_v4(s, at),
        3 => parse_name(s, at),
        4 => parse_v6(s, at),
        _ => None,
    }
}

// Whether the bytes are exactly one address, with nothing behind it.
#[tactic(auto, unfolding(crate::specs::Address::is_address))]
pub fn is_address(s: &[u8]) -> bool
    ensures { result ≡ is_address s.now }
{
    parse(s, 0).is_some_and(|a| a.end == s.len())
}
