// Bytes: numbers from bytes and back. What is done to strings of bytes (crate buffers) is passed on.
#![tactic(auto)]

mod be;
mod bytes;
mod le;

pub use be::{load_u64_be, read_u16_be, read_u32_be, read_u64_be, write_u16_be, write_u64_be};
pub use buffers::{byte_or_zero, copy, equal, xor_into, zero};
pub use le::{read_u32_le, write_u32_le, write_u64_le};
