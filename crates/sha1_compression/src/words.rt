// The functions of SHA-1, on words of 32 bits.
ghost use Rattle.std.specs.Prelude.{◌≡◌};
ghost use Rattle.sha1_compression.specs.Functions.{Ch, Parity, Maj};

pub(crate) fn choose(x: u32, y: u32, z: u32) -> u32
    ensures { result ≡ Ch x y z }
{
    (x & y) ^ (!x & z)
}

pub(crate) fn parity(x: u32, y: u32, z: u32) -> u32
    ensures { result ≡ Parity x y z }
{
    x ^ y ^ z
}

pub(crate) fn majority(x: u32, y: u32, z: u32) -> u32
    ensures { result ≡ Maj x y z }
{
    (x & y) ^ (x & z) ^ (y & z)
}
