// Salt pools and streams of SIP022.
ghost use Rattle.std.specs.Prelude.{◌≡◌};
ghost use Rattle.salt_pool.specs.Pool.{make_lawful, made};
ghost use Rattle.relay.specs.Datagrams.{settings_number};
ghost use Rattle.relay.specs.Streams.{seals_request, seals_response, seals_chunk};
ghost use Rattle.relay.specs.Streams.{opens_request, opens_variable, opens_response, opens_chunk};

#[unsafe(no_mangle)]
pub extern "C" fn relay_pool_new(method: u64, pool: &mut [u64]) -> u64
    ensures value { result ≡ settings_number (make_lawful method pool.old) }
    ensures pool_after { pool.new ≡ made method pool.old }
{
    relay::streams::relay_pool_new(method, pool)
}

#[unsafe(no_mangle)]
pub extern "C" fn relay_stream_seal_request(
    method: u64,
    key: &[u8],
    salt: &[u8],
    clock: u64,
    address: &[u8],
    padding: usize,
    payload: &[u8],
    out: &mut [u8],
    stream: &mut [u64],
    answer: &mut [u64],
) -> u64
    ensures { record { number = result; out = out.new; stream = stream.new; answer = answer.new }
        ≡ seals_request method key.now salt.now clock address.now padding
        payload.now out.old stream.old answer.old }
{
    relay::streams::relay_stream_seal_request(
        method, key, salt, clock, address, padding, payload, out, stream, answer,
    )
}

#[unsafe(no_mangle)]
pub extern "C" fn relay_stream_seal_response(
    method: u64,
    key: &[u8],
    salt: &[u8],
    request_salt: &[u8],
    clock: u64,
    payload: &[u8],
    out: &mut [u8],
    stream: &mut [u64],
    answer: &mut [u64],
) -> u64
    ensures { record { number = result; out = out.new; stream = stream.new; answer = answer.new }
        ≡ seals_response method key.now salt.now request_salt.now clock
        payload.now out.old stream.old answer.old }
{
    relay::streams::relay_stream_seal_response(
        method,
        key,
        salt,
        request_salt,
        clock,
        payload,
        out,
        stream,
        answer,
    )
}

#[unsafe(no_mangle)]
pub extern "C" fn relay_stream_seal_chunk(
    stream: &mut [u64],
    payload: &[u8],
    out: &mut [u8],
    answer: &mut [u64],
) -> u64
    ensures { record { number = result; out = out.new; stream = stream.new; answer = answer.new }
        ≡ seals_chunk stream.old payload.now out.old answer.old }
{
    relay::streams::relay_stream_seal_chunk(stream, payload, out, answer)
}

#[unsafe(no_mangle)]
pub extern "C" fn relay_stream_open_request(
    method: u64,
    key: &[u8],
    clock: u64,
    bytes: &[u8],
    pool: &mut [u64],
    stream: &mut [u64],
    answer: &mut [u64],
) -> u64
    ensures { record { number = result; pool = pool.new; stream = stream.new; answer = answer.new }
        ≡ opens_request method key.now clock bytes.now pool.old stream.old
        answer.old }
{
    relay::streams::relay_stream_open_request(method, key, clock, bytes, pool, stream, answer)
}

#[unsafe(no_mangle)]
pub extern "C" fn relay_stream_open_variable(
    stream: &mut [u64],
    bytes: &[u8],
    out: &mut [u8],
    answer: &mut [u64],
) -> u64
    ensures { record { number = result; out = out.new; stream = stream.new; answer = answer.new }
        ≡ opens_variable stream.old bytes.now out.old answer.old }
{
    relay::streams::relay_stream_open_variable(stream, bytes, out, answer)
}

#[unsafe(no_mangle)]
pub extern "C" fn relay_stream_open_response(
    method: u64,
    key: &[u8],
    clock: u64,
    request_salt: &[u8],
    bytes: &[u8],
    stream: &mut [u64],
    answer: &mut [u64],
) -> u64
    ensures { record { number = result; stream = stream.new; answer = answer.new }
        ≡ opens_response method key.now clock request_salt.now bytes.now
        stream.old answer.old }
{
    relay::streams::relay_stream_open_response(
        method,
        key,
        clock,
        request_salt,
        bytes,
        stream,
        answer,
    )
}

#[unsafe(no_mangle)]
pub extern "C" fn relay_stream_open_chunk(
    stream: &mut [u64],
    bytes: &[u8],
    out: &mut [u8],
    answer: &mut [u64],
) -> u64
    ensures { record { number = result; out = out.new; stream = stream.new; answer = answer.new }
        ≡ opens_chunk stream.old bytes.now out.old answer.old }
{
    relay::streams::relay_stream_open_chunk(stream, bytes, out, answer)
}
