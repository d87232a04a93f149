// Recordings of datagrams.
ghost use Rattle.std.specs.Prelude.{◌≡◌};
ghost use Rattle.relay.specs.Recordings.{compares_recordings, mends_recording};

use super::SETTINGS;
use words::ANSWER;

// The number of refusal 3, as C is given it.
const ROOM: u64 = 3;

// Writes the text of two recordings side by side to the front of the lent buffer. The answer is its length.
pub fn relay_recording_compare(
    first: &[u8],
    second: &[u8],
    out: &mut [u8],
    answer: &mut [u64],
) -> u64
    ensures { record { number = result; out = out.new; answer = answer.new }
        ≡ compares_recordings first.now second.now out.old answer.old }
{
    if answer.len() != ANSWER {
        return SETTINGS;
    }
    let refused = comparison_text::refusal(first, second);
    if refused != 0 {
        return refused;
    }
    let due = comparison_text::text_length(first, second);
    if out.len() < due {
        return ROOM;
    }
    let length = comparison_text::write_text(first, second, out);
    answer[0] = length as u64;
    0
}

// Mends the recording in the lent file and writes what changed into the report. The answer is the number of changes.
pub fn relay_recording_mend(file: &mut [u8], report: &mut [u64], answer: &mut [u64]) -> u64
    ensures { record { number = result; file = file.new; report = report.new; answer = answer.new }
        ≡ mends_recording file.old report.old answer.old }
{
    if answer.len() != ANSWER {
        return SETTINGS;
    }
    let refused = mending::refusal(file, report.len());
    if refused != 0 {
        return refused;
    }
    let changes = mending::mend(file, report);
    answer[0] = changes as u64;
    0
}
