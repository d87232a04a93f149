// Records in words that a host lends: whether one is current, writing one, and clearing them all.
#![tactic(auto)]

ghost use Rattle.std.specs.Prelude.{◌≡◌, ◌+◌, ◌≤◌, length, replicate};
ghost use Rattle.std.proofs.lemmas.List.Edits.{sets};
ghost use Rattle.records.specs.Records.{current};

mod admission;

pub use admission::NotAdmitted;

// Whether a record that was last written at a time is in use and not past it by more than the span. The sum of the two could
// wrap, so the difference is taken.
pub fn is_current(used: u64, time: u64, clock: u64, span: u64) -> bool
    ensures { result ≡ current span clock used time }
{
    used != 0 && clock.saturating_sub(time) <= span
}

// Writes words from a place on. Every other word stays.
pub fn write(words: &mut [u64], at: usize, from: &[u64])
    requires { at + length from.now ≤ length words.old }
    ensures { words.new ≡ sets words.old at from.now }
{
    words[at..at + from.len()].copy_from_slice(from);
}

pub fn clear(words: &mut [u64])
    ensures { words.new ≡ replicate (length words.old) 0 }
{
    words.fill(0);
}
