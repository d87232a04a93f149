// Settings files as a host reads and writes them: what is shown and answered, in lent words.
#![tactic(auto)]

ghost use Rattle.std.specs.Prelude.{◌≡◌, length};
ghost use Rattle.words.specs.Answers.{answer_words};
ghost use Rattle.settings_answers.specs.Told.{set_bits, settings_words, read_told, reads_settings, written_number, written_words, writes_settings};

use protocol::Refusal;
use settings_read::Settings;
use words::ANSWER;

// The number of refusal 1, as C is given it.
const SETTINGS: u64 = 1;

// Which are set: bit i for number i + 1.
#[tactic(auto, unfolding(crate::specs::Told::set_bits))]
fn set_bits(settings: Settings) -> u64
    ensures { result ≡ set_bits settings }
{
    let method = settings.method.is_some() as u64;
    let retention = settings.retention.is_some() as u64;
    let limit = settings.limit.is_some() as u64;
    let target = settings.target.is_some() as u64;
    method + 2 * retention + 4 * limit + 8 * target
}

#[tactic(auto, unfolding(crate::specs::Told::settings_words))]
fn settings_words(settings: Settings) -> [u64; ANSWER]
    ensures { result ≡ settings_words settings }
{
    [
        settings.edition as u64,
        set_bits(settings),
        settings.method.unwrap_or(0),
        settings.retention.unwrap_or(0),
        settings.limit.unwrap_or(0),
        settings.target.map_or(0, |(target, _)| words::kind(target)),
        settings
            .target
            .map_or(0, |(target, _)| words::first(target)),
        settings
            .target
            .map_or(0, |(target, _)| words::second(target)),
        settings.target.map_or(0, |(_, port)| port as u64),
    ]
}

// Gives what was read to the caller.
fn tell_read(read: Result<Settings, Refusal>, answer: &mut [u64]) -> u64
    requires { length answer.old ≡ answer_words }
    ensures { record { number = result; answer = answer.new } ≡ read_told read answer.old }
{
    match read {
        Ok(settings) => {
            records::write(answer, 0, &settings_words(settings));
            0
        }
        Err(refusal) => words::refuse(refusal, answer),
    }
}

// Gives a written file's length to the caller.
fn tell_written(written: Result<usize, Refusal>, answer: &mut [u64]) -> u64
    requires { length answer.old ≡ answer_words }
    ensures value { result ≡ written_number written }
    ensures answer_after { answer.new ≡ written_words written answer.old }
{
    match written {
        Ok(n) => {
            answer[0] = n as u64;
            0
        }
        Err(refusal) => refusal.number(),
    }
}

// Reads a file and shows its settings in the answer.
pub fn read(file: &[u8], answer: &mut [u64]) -> u64
    ensures { record { number = result; answer = answer.new }
        ≡ reads_settings file.now answer.old }
{
    if answer.len() != ANSWER {
        return SETTINGS;
    }
    tell_read(settings_read::read(file), answer)
}

// Writes a file to the front of the lent buffer. The answer is its length.
pub fn write(
    edition: u16,
    settings: &[u64],
    bodies: &[u8],
    out: &mut [u8],
    answer: &mut [u64],
) -> u64
    ensures { record { number = result; out = out.new; answer = answer.new }
        ≡ writes_settings edition settings.now bodies.now out.old answer.old }
{
    if answer.len() != ANSWER {
        return SETTINGS;
    }
    let written = settings_write::write(edition, settings, bodies, out);
    tell_written(written, answer)
}
