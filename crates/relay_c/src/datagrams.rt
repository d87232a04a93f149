// Session tables, sending sessions and datagrams.
ghost use Rattle.std.specs.Prelude.{◌≡◌, None, Some};
ghost use Rattle.session_table.specs.Table.{make_lawful, made};
ghost use Rattle.datagram_seal.specs.Sealing.{client_sender};
ghost use Rattle.reply_session.specs.Beginning.{reply_begun};
ghost use Rattle.relay.specs.Datagrams.{settings_number, begins, seals_datagram, opens_datagram};
ghost use Rattle.relay.specs.Datagrams.{caller_of};

#[unsafe(no_mangle)]
pub extern "C" fn relay_table_new(retention: u64, table: &mut [u64]) -> u64
    ensures value { result ≡ settings_number (make_lawful retention table.old) }
    ensures table_after { table.new ≡ made retention table.old }
{
    relay::datagrams::relay_table_new(retention, table)
}

#[unsafe(no_mangle)]
pub extern "C" fn relay_session_begin_client(id: u64, session: &mut [u64]) -> u64
    ensures { record { number = result; session = session.new }
        ≡ begins (Ok (client_sender id)) session.old }
{
    relay::datagrams::relay_session_begin_client(id, session)
}

#[unsafe(no_mangle)]
pub extern "C" fn relay_session_begin_server(
    id: u64,
    client: u64,
    clock: u64,
    table: &[u64],
    session: &mut [u64],
) -> u64
    ensures { record { number = result; session = session.new }
        ≡ begins (reply_begun table.now clock id client) session.old }
{
    relay::datagrams::relay_session_begin_server(id, client, clock, table, session)
}

#[unsafe(no_mangle)]
pub extern "C" fn relay_datagram_seal(
    method: u64,
    key: &[u8],
    nonce: &[u8],
    session: &mut [u64],
    clock: u64,
    address: &[u8],
    padding: usize,
    payload: &[u8],
    out: &mut [u8],
    answer: &mut [u64],
) -> u64
    ensures { record { number = result; session = session.new; out = out.new; answer = answer.new }
        ≡ seals_datagram method key.now nonce.now session.old clock address.now padding
        payload.now out.old answer.old }
{
    relay::datagrams::relay_datagram_seal(
        method, key, nonce, session, clock, address, padding, payload, out, answer,
    )
}

#[unsafe(no_mangle)]
pub extern "C" fn relay_datagram_open_server(
    method: u64,
    key: &[u8],
    clock: u64,
    first: u64,
    second: u64,
    port: u16,
    datagram: &[u8],
    table: &mut [u64],
    out: &mut [u8],
    answer: &mut [u64],
) -> u64
    ensures { record { number = result; table = table.new; out = out.new; answer = answer.new }
        ≡ opens_datagram method key.now None clock (caller_of first second port) datagram.now
        table.old out.old answer.old }
{
    relay::datagrams::relay_datagram_open_server(
        method, key, clock, first, second, port, datagram, table, out, answer,
    )
}

#[unsafe(no_mangle)]
pub extern "C" fn relay_datagram_open_client(
    method: u64,
    key: &[u8],
    clock: u64,
    client: u64,
    first: u64,
    second: u64,
    port: u16,
    datagram: &[u8],
    table: &mut [u64],
    out: &mut [u8],
    answer: &mut [u64],
) -> u64
    ensures { record { number = result; table = table.new; out = out.new; answer = answer.new }
        ≡ opens_datagram method key.now (Some client) clock (caller_of first second port) datagram.now
        table.old out.old answer.old }
{
    relay::datagrams::relay_datagram_open_client(
        method, key, clock, client, first, second, port, datagram, table, out, answer,
    )
}
