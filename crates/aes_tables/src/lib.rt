// The tables of AES (FIPS 197) as constants. A constant that is indexed inside a callee is copied at every look-up, so
// each function hands its table out once, for the caller to lend.
#![tactic(auto)]

ghost use Rattle.aes_tables.specs.SBox.{s_box, inv_sbox};
ghost use Rattle.aes_tables.specs.Tables.{IsTable, mix_entry, inv_mix_entry};

mod inv_mix_entries;
mod inv_sbox_entries;
mod mix_entries;
mod sbox_entries;

// SBOX.
pub fn sbox() -> [u8; 256]
    ensures { IsTable s_box result }
{
    sbox_entries::SBOX
}

// INVSBOX.
pub fn inv_sbox() -> [u8; 256]
    ensures { IsTable inv_sbox result }
{
    inv_sbox_entries::INV_SBOX
}

// The T-table: SBOX and MixColumns of a byte in row 0, a column for each byte.
pub fn mix_table() -> [u32; 256]
    ensures { IsTable mix_entry result }
{
    mix_entries::MIX
}

// InvMixColumns of a byte in row 0, a column for each byte.
pub fn inv_mix_table() -> [u32; 256]
    ensures { IsTable inv_mix_entry result }
{
    inv_mix_entries::INV_MIX
}
