// Session tables, sending sessions and datagrams.
ghost use Rattle.std.specs.Prelude.{◌≡◌, length, None, Some};
ghost use Rattle.session_table.specs.Table.{make_lawful, made};
ghost use Rattle.datagram_seal.specs.Sealing.{client_sender};
ghost use Rattle.reply_session.specs.Beginning.{reply_begun};
ghost use Rattle.datagram_open.specs.Deciding.{answer_of};
ghost use Rattle.words.specs.Answers.{answer_words};
ghost use Rattle.relay.specs.Datagrams.{settings_number, begins, seals_datagram, opened_number, opened_words, opens_datagram};
ghost use Rattle.relay.specs.Datagrams.{caller_of};

use super::SETTINGS;
use datagram_read::Header;
use datagram_seal::Sender;
use protocol::Refusal;
use session_table::Peer;
use words::{ANSWER, SESSION, header_words, is_session, session_in, session_words};

// Makes a session table of 833 words, with a retention of 60 to 3,600 seconds; 0 stands for 300.
pub fn relay_table_new(retention: u64, table: &mut [u64]) -> u64
    ensures value { result ≡ settings_number (make_lawful retention table.old) }
    ensures table_after { table.new ≡ made retention table.old }
{
    if session_table::make(retention, table) {
        return 0;
    }
    SETTINGS
}

// ---- sending sessions

fn begin(begun: Result<Sender, Refusal>, session: &mut [u64]) -> u64
    ensures { record { number = result; session = session.new } ≡ begins begun session.old }
{
    if session.len() != SESSION {
        return SETTINGS;
    }
    match begun {
        Ok(sender) => {
            records::write(session, 0, &session_words(sender));
            0
        }
        Err(refusal) => refusal.number(),
    }
}

// Begins a client's sending session, in 4 words.
pub fn relay_session_begin_client(id: u64, session: &mut [u64]) -> u64
    ensures { record { number = result; session = session.new }
        ≡ begins (Ok (client_sender id)) session.old }
{
    begin(Ok(Sender::client(id)), session)
}

// Begins a server's, in reply to a client's session: with an ID that no session alive in the table has, nor the client's. The table
// is only read.
pub fn relay_session_begin_server(
    id: u64,
    client: u64,
    clock: u64,
    table: &[u64],
    session: &mut [u64],
) -> u64
    ensures { record { number = result; session = session.new }
        ≡ begins (reply_begun table.now clock id client) session.old }
{
    begin(
        reply_session::begin_reply(id, client, clock, table),
        session,
    )
}

// ---- sealing

// Seals a datagram to the front of the lent buffer and moves the session one packet ID further. The answer is its length.
pub fn relay_datagram_seal(
    method: u64,
    key: &[u8],
    nonce: &[u8],
    session: &mut [u64],
    clock: u64,
    address: &[u8],
    padding: usize,
    payload: &[u8],
    out: &mut [u8],
    answer: &mut [u64],
) -> u64
    ensures { record { number = result; session = session.new; out = out.new; answer = answer.new }
        ≡ seals_datagram method key.now nonce.now session.old clock address.now padding
        payload.now out.old answer.old }
{
    if answer.len() != ANSWER || !is_session(session) {
        return SETTINGS;
    }
    let sender = session_in(session);
    let done = datagram_seal::seal(
        method, key, nonce, sender, clock, address, padding, payload, out,
    );
    match done.answer {
        Ok(n) => {
            session[3] = done.sender.packet;
            answer[0] = n as u64;
            0
        }
        Err(refusal) => refusal.number(),
    }
}

// ---- opening

// Gives an opened datagram's header to the caller.
fn write_opened(opened: Result<Header, Refusal>, answer: &mut [u64]) -> u64
    requires { length answer.old ≡ answer_words }
    ensures value { result ≡ opened_number (answer_of opened) }
    ensures answer_after { answer.new ≡ opened_words (answer_of opened) answer.old }
{
    match opened {
        Ok(header) => {
            records::write(answer, 0, &header_words(header));
            0
        }
        Err(refusal) => refusal.number(),
    }
}

// Opens a client's datagram, for a server, into the lent buffer.
pub fn relay_datagram_open_server(
    method: u64,
    key: &[u8],
    clock: u64,
    first: u64,
    second: u64,
    port: u16,
    datagram: &[u8],
    table: &mut [u64],
    out: &mut [u8],
    answer: &mut [u64],
) -> u64
    ensures { record { number = result; table = table.new; out = out.new; answer = answer.new }
        ≡ opens_datagram method key.now None clock (caller_of first second port) datagram.now
        table.old out.old answer.old }
{
    if answer.len() != ANSWER {
        return SETTINGS;
    }
    let caller = Peer {
        first,
        second,
        port,
    };
    let opened = datagram_open::open_server(method, key, clock, caller, datagram, table, out);
    write_opened(opened, answer)
}

// Opens a server's datagram, for the client of a session ID, into the lent buffer.
pub fn relay_datagram_open_client(
    method: u64,
    key: &[u8],
    clock: u64,
    client: u64,
    first: u64,
    second: u64,
    port: u16,
    datagram: &[u8],
    table: &mut [u64],
    out: &mut [u8],
    answer: &mut [u64],
) -> u64
    ensures { record { number = result; table = table.new; out = out.new; answer = answer.new }
        ≡ opens_datagram method key.now (Some client) clock (caller_of first second port) datagram.now
        table.old out.old answer.old }
{
    if answer.len() != ANSWER {
        return SETTINGS;
    }
    let caller = Peer {
        first,
        second,
        port,
    };
    let opened = datagram_open::open_client(
        method, key, clock, client, caller, datagram, table, out,
    );
    write_opened(opened, answer)
}
