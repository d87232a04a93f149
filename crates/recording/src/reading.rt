// A reader keeps a recording and a place in it.
ghost use Rattle.std.specs.Prelude.{◌≡◌, ◌+◌, ◌≤◌, length};
ghost use Rattle.recording.specs.Format.{entry_at};

use super::{Entry, entry_at};

#[derive(Drop)]
pub struct Reader<'a> {
    pub recording: &'a [u8],
    pub at: usize,
}

impl<'a> Reader<'a> {
    // Stands at the first entry.
    pub fn new(recording: &'a [u8]) -> Reader<'a>
        ensures { (result.recording ≡ recording.entry) × (result.at ≡ 4) }
    {
        Reader { recording, at: 4 }
    }

    // The same recording at another place.
    pub fn seek(self, at: usize) -> Reader<'a>
        ensures { (result.recording ≡ self.entry.recording) × (result.at ≡ at) }
    {
        Reader {
            recording: self.recording,
            at,
        }
    }

    // The entry at the reader's place.
    pub fn read(self) -> Entry
        requires { self.at + 15 ≤ length self.recording.now }
        ensures { result ≡ entry_at self.entry.recording.now self.entry.at }
    {
        entry_at(self.recording, self.at)
    }
}

// The entry at a place of a recording, by a reader.
pub fn read_entry(s: &[u8], at: usize) -> Entry
    requires { at + 15 ≤ length s.now }
    ensures { result ≡ entry_at s.now at }
{
    Reader::new(s).seek(at).read()
}
