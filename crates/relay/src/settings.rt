// Files of settings.
ghost use Rattle.std.specs.Prelude.{◌≡◌};
ghost use Rattle.settings_answers.specs.Told.{reads_settings, writes_settings};

// Reads a file of settings. The answer is its edition, which settings it sets, and these.
pub fn relay_settings_read(file: &[u8], answer: &mut [u64]) -> u64
    ensures { record { number = result; answer = answer.new }
        ≡ reads_settings file.now answer.old }
{
    settings_answers::read(file, answer)
}

// Writes a file of settings, of which two words each give number and length, to the front of the lent buffer. The answer is its length.
pub fn relay_settings_write(
    edition: u16,
    settings: &[u64],
    bodies: &[u8],
    out: &mut [u8],
    answer: &mut [u64],
) -> u64
    ensures { record { number = result; out = out.new; answer = answer.new }
        ≡ writes_settings edition settings.now bodies.now out.old answer.old }
{
    settings_answers::write(edition, settings, bodies, out, answer)
}
