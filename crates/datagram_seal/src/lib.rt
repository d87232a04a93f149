// Datagrams of SIP022, sections 3.2 and 4: sending sessions, and sealing (write.rt). What a datagram is made of is in the crate
// datagram_parts; datagram_open opens.
#![tactic(auto)]

ghost use Rattle.std.specs.Prelude.{◌≡◌};
ghost use Rattle.datagram_seal.specs.Sealing.{client_sender};

pub use datagram_parts::Side;
use protocol::Refusal;

mod write;

pub use write::seal;

// A sending session: its side, its own ID and the packet ID of its next datagram.
#[derive(Clone, Copy)]
pub struct Sender {
    pub side: Side,
    pub id: u64,
    pub packet: u64,
}

// The answer, and the sending session as it is then.
#[derive(Clone, Copy)]
pub struct Sealing {
    pub answer: Result<usize, Refusal>,
    pub sender: Sender,
}

impl Sender {
    // A client's sending session.
    pub fn client(id: u64) -> Self
        ensures { result ≡ client_sender id }
    {
        Self {
            side: Side::Client,
            id,
            packet: 0,
        }
    }
}
