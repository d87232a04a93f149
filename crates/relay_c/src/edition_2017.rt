// Datagrams and streams of SIP004, the 2017 edition.
ghost use Rattle.std.specs.Prelude.{◌≡◌};
ghost use Rattle.relay.specs.Sip004.{seals_datagram, opens_datagram, begins_sealing, begins_opening, seals_chunk, opens_chunk};

#[unsafe(no_mangle)]
pub extern "C" fn relay_sip004_datagram_seal(
    method: u64,
    key: &[u8],
    salt: &[u8],
    payload: &[u8],
    out: &mut [u8],
    answer: &mut [u64],
) -> u64
    ensures { record { number = result; out = out.new; answer = answer.new }
        ≡ seals_datagram method key.now salt.now payload.now out.old answer.old }
{
    relay::edition_2017::relay_sip004_datagram_seal(method, key, salt, payload, out, answer)
}

#[unsafe(no_mangle)]
pub extern "C" fn relay_sip004_datagram_open(
    method: u64,
    key: &[u8],
    datagram: &[u8],
    out: &mut [u8],
    answer: &mut [u64],
) -> u64
    ensures { record { number = result; out = out.new; answer = answer.new }
        ≡ opens_datagram method key.now datagram.now out.old answer.old }
{
    relay::edition_2017::relay_sip004_datagram_open(method, key, datagram, out, answer)
}

#[unsafe(no_mangle)]
pub extern "C" fn relay_sip004_stream_begin_seal(
    method: u64,
    key: &[u8],
    salt: &[u8],
    stream: &mut [u64],
) -> u64
    ensures { record { number = result; stream = stream.new }
        ≡ begins_sealing method key.now salt.now stream.old }
{
    relay::edition_2017::relay_sip004_stream_begin_seal(method, key, salt, stream)
}

#[unsafe(no_mangle)]
pub extern "C" fn relay_sip004_stream_begin_open(
    method: u64,
    key: &[u8],
    salt: &[u8],
    stream: &mut [u64],
) -> u64
    ensures { record { number = result; stream = stream.new }
        ≡ begins_opening method key.now salt.now stream.old }
{
    relay::edition_2017::relay_sip004_stream_begin_open(method, key, salt, stream)
}

#[unsafe(no_mangle)]
pub extern "C" fn relay_sip004_stream_seal_chunk(
    stream: &mut [u64],
    payload: &[u8],
    out: &mut [u8],
    answer: &mut [u64],
) -> u64
    ensures { record { number = result; out = out.new; stream = stream.new; answer = answer.new }
        ≡ seals_chunk stream.old payload.now out.old answer.old }
{
    relay::edition_2017::relay_sip004_stream_seal_chunk(stream, payload, out, answer)
}

#[unsafe(no_mangle)]
pub extern "C" fn relay_sip004_stream_open_chunk(
    stream: &mut [u64],
    bytes: &[u8],
    out: &mut [u8],
    answer: &mut [u64],
) -> u64
    ensures { record { number = result; out = out.new; stream = stream.new; answer = answer.new }
        ≡ opens_chunk stream.old bytes.now out.old answer.old }
{
    relay::edition_2017::relay_sip004_stream_open_chunk(stream, bytes, out, answer)
}
