// Recordings of datagrams.
ghost use Rattle.std.specs.Prelude.{◌≡◌};
ghost use Rattle.relay.specs.Recordings.{compares_recordings, mends_recording};

#[unsafe(no_mangle)]
pub extern "C" fn relay_recording_compare(
    first: &[u8],
    second: &[u8],
    out: &mut [u8],
    answer: &mut [u64],
) -> u64
    ensures { record { number = result; out = out.new; answer = answer.new }
        ≡ compares_recordings first.now second.now out.old answer.old }
{
    relay::recordings::relay_recording_compare(first, second, out, answer)
}

#[unsafe(no_mangle)]
pub extern "C" fn relay_recording_mend(
    file: &mut [u8],
    report: &mut [u64],
    answer: &mut [u64],
) -> u64
    ensures { record { number = result; file = file.new; report = report.new; answer = answer.new }
        ≡ mends_recording file.old report.old answer.old }
{
    relay::recordings::relay_recording_mend(file, report, answer)
}
