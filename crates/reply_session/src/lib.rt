// Beginning a server's sending session, in reply to a client's. SIP022 forbids the ID of any client session for it: with AES a subkey comes from
// key and session ID, so two sessions of one ID would use the same subkey and nonces.
#![tactic(auto)]

ghost use Rattle.std.specs.Prelude.{◌≡◌};
ghost use Rattle.reply_session.specs.Beginning.{reply_begun};

use datagram_parts::Side;
use datagram_seal::Sender;
use protocol::Refusal;

// Begins at packet ID 0, or refuses: 1 for a table that is not lawful, then 12 for an ID that its own client or any client session
// alive at the clock has. The table is that of the clients' sessions, and is only read.
#[tactic(auto, unfolding(crate::specs::Beginning::reply_begun))]
pub fn begin_reply(id: u64, client: u64, clock: u64, table: &[u64]) -> Result<Sender, Refusal>
    ensures { result ≡ reply_begun table.now clock id client }
{
    if !session_table::is_lawful(table) {
        return Err(Refusal::Settings);
    }
    if id == client || session_table::is_taken(table, clock, id) {
        return Err(Refusal::Argument);
    }
    Ok(Sender {
        side: Side::Server(client),
        id,
        packet: 0,
    })
}
