// Files of settings.
ghost use Rattle.std.specs.Prelude.{◌≡◌};
ghost use Rattle.settings_answers.specs.Told.{reads_settings, writes_settings};

#[unsafe(no_mangle)]
pub extern "C" fn relay_settings_read(file: &[u8], answer: &mut [u64]) -> u64
    ensures { record { number = result; answer = answer.new }
        ≡ reads_settings file.now answer.old }
{
    relay::settings::relay_settings_read(file, answer)
}

#[unsafe(no_mangle)]
pub extern "C" fn relay_settings_write(
    edition: u16,
    settings: &[u64],
    bodies: &[u8],
    out: &mut [u8],
    answer: &mut [u64],
) -> u64
    ensures { record { number = result; out = out.new; answer = answer.new }
        ≡ writes_settings edition settings.now bodies.now out.old answer.old }
{
    relay::settings::relay_settings_write(edition, settings, bodies, out, answer)
}
