// What a plan of a long report is reckoned from: the room of a datagram, one piece of the report, the number of datagrams. All
// of it is numbers; crate plan has the lent words.
#![tactic(auto)]

ghost use Rattle.std.specs.Prelude.{◌≡◌, ◌-◌, ◌<◌, ◌≤◌};
ghost use Rattle.plan_pieces.specs.Plans.{fewest, piece_fits, smaller};

// The difference, and 0 where it would be below that.
pub fn saturating_sub(a: u64, b: usize) -> u64
    ensures { result ≡ a - b }
{
    a.saturating_sub(b as u64)
}

// How many datagrams a report takes.
pub fn fewest_of(report: u64, most: u64) -> usize
    requires { 0 < report → 0 < most }
    ensures { result ≡ fewest report most }
{
    if report == 0 {
        return 0;
    }
    report.div_ceil(most) as usize
}

// Whether a piece with its padding fits a datagram and what is left of the report. The sum of the two could wrap.
pub fn piece_fits(most: u64, rest: u64, bytes: u64, padding: u64) -> bool
    ensures { result ≡ piece_fits most rest bytes padding }
{
    bytes != 0 && bytes <= rest && bytes <= most && padding <= most - bytes
}

pub fn smaller_of(a: u64, b: u64) -> u64
    ensures value { result ≡ smaller a b }
    ensures bound { result ≤ a }
{
    a.min(b)
}
