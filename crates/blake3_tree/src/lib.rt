// BLAKE3's hash of an input of any length. A node gives the first eight words of its last compression: its chaining value, or
// with the root's flag the hash.
#![tactic(auto)]

ghost use Rattle.std.specs.Prelude.{◌≡◌, ◌++◌, ◌+◌, ◌^◌, ◌<◌, ◌≤◌, length};
ghost use Rattle.blake3_compression.specs.Compression.{first_eight, compressed, iv};
ghost use Rattle.blake3.specs.Words.{block_words};
ghost use Rattle.blake3.specs.Tree.{chunk, parent_node, tree, hash};
ghost use Rattle.blake3_tree.specs.Subtree.{flag, last_words, Left};

use blake3::{CHUNK_END, CHUNK_START, IV, ROOT, block_words, first_eight, write_words};
use blake3_compression::compress;
use blake3_lanes::{compress_chunks, value};

const PARENT: u32 = 4;

// Where a node stands in its tree.
#[derive(Clone, Copy)]
enum Place {
    Inner,
    Root,
}

impl Place {
    // What its last compression has beside the node's own flags.
    fn flag(self) -> u32
        ensures value { result ≡ flag self }
        ensures upper_bound { result ≤ 8 }
    {
        match self {
            Place::Inner => 0,
            Place::Root => ROOT,
        }
    }
}

// The chaining value behind a whole block of chunk t.
fn block_value(h: [u32; 8], t: u64, d: u32, block: &[u8]) -> [u32; 8]
    ensures { result ≡ first_eight (compressed h (block_words block.now) t 64 d) }
{
    first_eight(compress(h, block_words(block), t, 64, d))
}

// Chunk t.
fn chunk_words(t: u64, place: Place, s: &[u8]) -> [u32; 8]
    requires { length s.now ≤ 1024 }
    ensures { result ≡ last_words (chunk iv 0 t s.now) (flag place) }
{
    let mut h = IV;
    let mut d = CHUNK_START;
    let mut rest = s;
    while 64 < rest.len() {
        let (block, behind) = rest.split_at(64);
        let next = block_value(h, t, d, block);
        h = next;
        d = 0;
        rest = behind;
    }
    let words = block_words(rest);
    let length = rest.len() as u32;
    first_eight(compress(h, words, t, length, d + CHUNK_END + place.flag()))
}

// The words of two chaining values.
fn joined(left: [u32; 8], right: [u32; 8]) -> [u32; 16]
    ensures { result ≡ first_eight left ++ first_eight right }
{
    [
        left[0], left[1], left[2], left[3], left[4], left[5], left[6], left[7], right[0], right[1],
        right[2], right[3], right[4], right[5], right[6], right[7],
    ]
}

// The parent of two nodes, from their chaining values.
fn parent_words(left: [u32; 8], right: [u32; 8], place: Place) -> [u32; 8]
    ensures { result ≡ last_words (parent_node iv 0 left right) (flag place) }
{
    let flags = PARENT + place.flag();
    first_eight(compress(IV, joined(left, right), 0, 64, flags))
}

// The tree over four whole chunks, which are compressed side by side.
fn four_chunks(t: u64, place: Place, s: &[u8]) -> [u32; 8]
    requires s_len { length s.now ≡ 4096 }
    requires t_bound { t + 4 ≤ 2 ^ 64 }
    ensures { result ≡ last_words (tree 54 iv 0 t s.now) (flag place) }
{
    let mut x = [0u32; 128];
    compress_chunks(&mut x, s, t);
    let left = parent_words(value(&x, 0), value(&x, 1), Place::Inner);
    let right = parent_words(value(&x, 2), value(&x, 3), Place::Inner);
    parent_words(left, right, place)
}

// The bytes of the left part of n bytes.
fn left_length(n: usize) -> usize
    requires { (1024 < n) × (n < 2 ^ 63) }
    ensures { Left n result }
{
    let chunks = (n - 1) / 1024;
    let k = chunks.ilog2();
    1024 << k
}

// The tree over s, whose first chunk has the number t: it calls itself on the left and the right part.
fn subtree(t: u64, place: Place, s: &[u8]) -> [u32; 8]
    requires { t + length s.now < 2 ^ 64 }
    ensures { result ≡ last_words (tree 54 iv 0 t s.now) (flag place) }
{
    if s.len() <= 1024 {
        return chunk_words(t, place, s);
    }
    if s.len() == 4096 {
        return four_chunks(t, place, s);
    }
    let (front, back) = s.split_at(left_length(s.len()));
    let next = t + (front.len() / 1024) as u64;
    let left = subtree(t, Place::Inner, front);
    let right = subtree(next, Place::Inner, back);
    parent_words(left, right, place)
}

pub fn hash(s: &[u8]) -> [u8; 32]
    ensures { result ≡ hash s.now }
{
    let words = subtree(0, Place::Root, s);
    let mut out = [0u8; 32];
    write_words(&mut out, &words);
    out
}
