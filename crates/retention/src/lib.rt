// The retention of a session table, in seconds.
#![tactic(auto)]

ghost use Rattle.std.specs.Prelude.{◌≡◌};
ghost use Rattle.retention.specs.Retention.{in_range, made_retention, lawful_retention};

const LEAST: u64 = 60;

const GREATEST: u64 = 3600;

// What 0 stands for when a table is made.
const DEFAULT: u64 = 300;

// Whether a table may have this retention.
pub fn in_range(retention: u64) -> bool
    ensures { result ≡ in_range retention }
{
    (LEAST..=GREATEST).contains(&retention)
}

// The retention of a table that is made with this one.
pub fn made(retention: u64) -> u64
    ensures { result ≡ made_retention retention }
{
    if retention == 0 { DEFAULT } else { retention }
}

// Whether a table can be made with this retention.
pub fn is_lawful(retention: u64) -> bool
    ensures { result ≡ lawful_retention retention }
{
    in_range(made(retention))
}
