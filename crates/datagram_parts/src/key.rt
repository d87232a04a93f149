// The shared key with the cipher of its method. The clauses of the crate name this type, so it has a file with few imports.
ghost use Rattle.std.specs.Prelude.{◌<◌, length};
ghost use Rattle.aes.specs.Keyed.{nk_of};

use protocol::Cipher;

// A shared key of a length that its method has, so that AES has a key schedule for it.
#[derive(Clone, Copy)]
pub struct SharedKey<'a> {
    pub cipher: Cipher,
    pub bytes: &'a [u8],
    pub ghost usable: { 0 < nk_of (length bytes.now) },
}
