// The key of a stream's pieces, by which they are sealed and opened.
ghost use Rattle.aead.specs.Aead.{KeyFor};
ghost use Rattle.stream_pieces.specs.KeyFacts.{key-for-prop};

use super::{Subkey, nonce, subkey_bytes};
use protocol::Cipher;

// A cipher with a key of it: so many bytes of a subkey.
#[derive(Clone, Copy)]
pub struct PieceKey {
    pub cipher: Cipher,
    pub subkey: Subkey,
    pub length: usize,
    pub ghost key_for: { KeyFor cipher length } by { key-for-prop cipher length },
}

impl PieceKey {
    ghost use Rattle.std.specs.Prelude.{◌≡◌, ◌++◌, ◌+◌, ◌-◌, ◌*◌, ◌<◌, ◌≤◌, length, take, drop, cond};
    ghost use Rattle.octets.specs.Buffers.{put};
    ghost use Rattle.aead.specs.Aead.{text_of};
    ghost use Rattle.stream_pieces.specs.Pieces.{tag_length, seal_at, authentic_at, open_at, max_chunk, last_counter};
    ghost use Rattle.stream_pieces.specs.PieceKeys.{keyed_of};

    // Seals the two pieces of one call in place, the first up to a place and the second from there on; the last bytes of each
    // are room for its tag.
    pub fn seal_pair(self, counter: u64, at: usize, body: &mut [u8])
        requires counter_lt_last_counter { counter < last_counter }
        requires tag_length_le_at { tag_length ≤ at }
        requires tag_length_in_bounds { at + tag_length ≤ length body.old }
        requires body_len_bound { length body.old ≤ 2 * (max_chunk + tag_length) }
        ensures { body.new
            ≡ seal_at (keyed_of self) counter (text_of (take at body.old))
            ++ seal_at (keyed_of self) (counter + 1) (text_of (drop at body.old)) }
    {
        let key = subkey_bytes(self.subkey);
        let first = nonce(counter);
        let second = nonce(counter + 1);
        aead::seal_pair(self.cipher, &key[..self.length], &first, &second, at, body);
    }

    // Opens a piece to the front of a buffer: whether its tag is good; if not, nothing is written.
    pub fn open_piece(self, counter: u64, s: &[u8], out: &mut [u8]) -> bool
        requires tag_length_in_bounds { tag_length ≤ length s.now }
        requires s_len_bound { length s.now ≤ max_chunk + tag_length }
        requires tag_length_in_bounds_2 { length s.now - tag_length ≤ length out.old }
        ensures value { result ≡ authentic_at (keyed_of self) counter s.now }
        ensures out_after { out.new
            ≡ cond result (put out.old 0 (open_at (keyed_of self) counter s.now)) out.old }
    {
        let key = subkey_bytes(self.subkey);
        let n = nonce(counter);
        aead::open(self.cipher, &key[..self.length], &n, s, out)
    }
}
