// What both directions share of the heads of streams of SIP022, section 3.1: the cap of a request's padding, and the fixed header,
// opened.
#![tactic(auto)]

ghost use Rattle.std.specs.Prelude.{◌≡◌, ◌+◌, ◌-◌, ◌≤◌, length, cond};
ghost use Rattle.stream_pieces.specs.Pieces.{tag_length, authentic_at, open_at, max_chunk};
ghost use Rattle.stream_pieces.specs.PieceKeys.{keyed_of};
ghost use Rattle.stream_heads.specs.Heads.{read_fixed, open_fixed};

use protocol::Refusal;
use stream_pieces::PieceKey;

// The cap of a request's padding.
pub const MAX_PADDING: usize = 900;

// The fixed header of a head: its time, and the length of the piece behind it.
#[derive(Clone, Copy)]
pub struct Fixed {
    pub time: u64,
    pub length: u16,
}

// Refusals 6 and 7, in this order, or what the header says.
fn read_fixed(kind: u8, clock: u64, plain: &[u8]) -> Result<Fixed, Refusal>
    requires { 2 ≤ length plain.now }
    ensures { result ≡ read_fixed kind clock plain.now }
{
    if octets::byte_or_zero(plain, 0) != kind {
        return Err(Refusal::WrongType);
    }
    let time = octets::read_u64_be(plain, 1);
    if !protocol::time_valid(time, clock) {
        return Err(Refusal::WrongTime);
    }
    let length = octets::read_u16_be(plain, plain.len() - 2);
    Ok(Fixed { time, length })
}

// Refusals 4, 6 and 7, in this order, or what the header says; its plaintext fills the lent buffer where its tag is good.
pub fn open_fixed(
    key: PieceKey,
    kind: u8,
    clock: u64,
    s: &[u8],
    plain: &mut [u8],
) -> Result<Fixed, Refusal>
    requires in_bounds { 2 ≤ length plain.old }
    requires plain_len_bound { length plain.old ≤ max_chunk }
    requires s_len { length s.now ≡ length plain.old + tag_length }
    ensures value { result ≡ open_fixed (keyed_of key) kind clock s.now }
    ensures plain_after { plain.new
        ≡ cond (authentic_at (keyed_of key) 0 s.now) (open_at (keyed_of key) 0 s.now) plain.old }
{
    if !key.open_piece(0, s, plain) {
        return Err(Refusal::NotAuthentic);
    }
    read_fixed(kind, clock, plain)
}
