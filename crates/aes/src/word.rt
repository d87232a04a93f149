// A word of four bytes, the first one lowest.
ghost use Rattle.std.specs.Prelude.{◌≡◌, ◌∷◌, [], ◌/◌, ◌%◌, get_or};
ghost use Rattle.aes.specs.Words.{bytes, turned, entries, column_sum};

pub fn byte0(w: u32) -> u8
    ensures { result ≡ w % 256 }
{
    (w % 256) as u8
}

pub fn byte1(w: u32) -> u8
    ensures { result ≡ w / 256 % 256 }
{
    (w / 256 % 256) as u8
}

pub fn byte2(w: u32) -> u8
    ensures { result ≡ w / 65536 % 256 }
{
    (w / 65536 % 256) as u8
}

pub fn byte3(w: u32) -> u8
    ensures { result ≡ w / 16777216 % 256 }
{
    (w / 16777216 % 256) as u8
}

pub fn pack(a: u8, b: u8, c: u8, d: u8) -> u32
    ensures { bytes result ≡ a ∷ b ∷ c ∷ d ∷ [] }
{
    u32::from_le_bytes([a, b, c, d])
}

// Rotations: the last one, two and three bytes come to the front.
pub fn rotate1(w: u32) -> u32
    ensures { bytes result ≡ turned 1 (bytes w) }
{
    w.rotate_left(8)
}

pub fn rotate2(w: u32) -> u32
    ensures { bytes result ≡ turned 2 (bytes w) }
{
    w.rotate_left(16)
}

pub fn rotate3(w: u32) -> u32
    ensures { bytes result ≡ turned 3 (bytes w) }
{
    w.rotate_left(24)
}

fn byte_entry(t: &[u8; 256], x: u8) -> u8
    ensures { result ≡ get_or t.now x 0 }
{
    t[x as usize]
}

fn word_entry(t: &[u32; 256], x: u8) -> u32
    ensures { result ≡ get_or t.now x 0 }
{
    t[x as usize]
}

// Four bytes, each through a table of bytes.
pub fn substituted(t: &[u8; 256], a: u8, b: u8, c: u8, d: u8) -> u32
    ensures { bytes result ≡ entries t.now a b c d }
{
    pack(
        byte_entry(t, a),
        byte_entry(t, b),
        byte_entry(t, c),
        byte_entry(t, d),
    )
}

// The sum of four columns of a table for row 0, each turned to its row.
pub fn mixed(t: &[u32; 256], a: u8, b: u8, c: u8, d: u8) -> u32
    ensures { bytes result ≡ column_sum t.now a b c d }
{
    word_entry(t, a)
        ^ rotate1(word_entry(t, b))
        ^ rotate2(word_entry(t, c))
        ^ rotate3(word_entry(t, d))
}
