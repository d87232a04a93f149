// Opening datagrams of SIP022, sections 3.2 and 4: takes what was read to its session.
#![tactic(auto)]

ghost use Rattle.std.specs.Prelude.{◌≡◌, ◌≤◌, length, drop, None, Some};
ghost use Rattle.session_table.specs.Table.{table_words, meet, keep};
ghost use Rattle.datagram_read.specs.Opening.{settled};
ghost use Rattle.datagram_open.specs.Deciding.{opener_of, answer_of, admitted_as, entered, open_answer, open_out, open_table};

use datagram_parts::{Side, overhead};
pub use datagram_read::Header;
use datagram_read::{clear_refused, read_datagram};
use protocol::Refusal;
use session_table::{NotAdmitted, Peer};

fn admitted_as(header: Header, met: Result<(), NotAdmitted>) -> Result<Header, Refusal>
    ensures { result ≡ admitted_as header met }
{
    match met {
        Ok(()) => Ok(header),
        Err(NotAdmitted::Replay) => Err(Refusal::Replay),
        Err(NotAdmitted::Full) => Err(Refusal::Full),
    }
}

// Takes a header that was read to its session. Refusals 8 and 9 clear the plaintext; 8 counts a repeat in its session, and 9
// leaves the table as it was.
fn take_to_session(
    header: Header,
    clock: u64,
    peer: Peer,
    due: usize,
    table: &mut [u64],
    out: &mut [u8],
) -> Result<Header, Refusal>
    requires table_len { length table.old ≡ table_words }
    requires due_in_bounds { due ≤ length out.old }
    ensures value { result ≡ entered header table.old clock peer }
    ensures table_after { table.new
        ≡ keep (meet table.old clock peer header.session header.packet) table.old }
    ensures out_after { out.new ≡ settled (entered header table.old clock peer) due out.old }
{
    let met = session_table::admit(table, clock, header.session, header.packet, peer);
    let answer = admitted_as(header, met);
    clear_refused(answer, due, out);
    answer
}

fn open(
    method: u64,
    key: &[u8],
    side: Side,
    clock: u64,
    peer: Peer,
    s: &[u8],
    table: &mut [u64],
    out: &mut [u8],
) -> Result<Header, Refusal>
    ensures result_value { answer_of result
        ≡ open_answer method key.now (opener_of side) clock peer s.now table.old
        out.old }
    ensures out_after { out.new
        ≡ open_out method key.now (opener_of side) clock peer s.now table.old
        out.old }
    ensures table_after { table.new
        ≡ open_table method key.now (opener_of side) clock peer s.now table.old
        out.old }
{
    if !session_table::is_lawful(table) {
        return Err(Refusal::Settings);
    }
    let header = read_datagram(method, key, side, clock, s, out)?;
    let due = s.len() - overhead(protocol::cipher_of(method));
    take_to_session(header, clock, peer, due, table, out)
}

// Opens a client's datagram, for a server, into the lent buffer: its header, or a refusal in the order 1, 2, 3, 4, 5, 6, 7, 5,
// 8, 9. Nothing is written before the tag is good, and a refusal after that clears what the plaintext has filled. Of the
// table, refusal 8 changes its session's count of repeats, and no other refusal anything.
pub fn open_server(
    method: u64,
    key: &[u8],
    clock: u64,
    peer: Peer,
    s: &[u8],
    table: &mut [u64],
    out: &mut [u8],
) -> Result<Header, Refusal>
    ensures result_value { answer_of result
        ≡ open_answer method key.now None clock peer s.now table.old out.old }
    ensures out_after { out.new
        ≡ open_out method key.now None clock peer s.now table.old out.old }
    ensures table_after { table.new
        ≡ open_table method key.now None clock peer s.now table.old out.old }
{
    open(method, key, Side::Client, clock, peer, s, table, out)
}

// Opens a server's datagram, for the client of a session ID, with refusal 13 behind 7 for another client's.
pub fn open_client(
    method: u64,
    key: &[u8],
    clock: u64,
    client: u64,
    peer: Peer,
    s: &[u8],
    table: &mut [u64],
    out: &mut [u8],
) -> Result<Header, Refusal>
    ensures result_value { answer_of result
        ≡ open_answer method key.now (Some client) clock peer s.now table.old
        out.old }
    ensures out_after { out.new
        ≡ open_out method key.now (Some client) clock peer s.now table.old
        out.old }
    ensures table_after { table.new
        ≡ open_table method key.now (Some client) clock peer s.now table.old
        out.old }
{
    open(
        method,
        key,
        Side::Server(client),
        clock,
        peer,
        s,
        table,
        out,
    )
}

// The payload of an opened datagram: the plaintext from its place to its end. Past the end it is empty.
pub fn payload(plain: &[u8], place: usize) -> &[u8]
    ensures { result.now ≡ drop place plain.now }
{
    &plain[place.min(plain.len())..]
}
