// Plans of a long report.
ghost use Rattle.std.specs.Prelude.{◌≡◌};
ghost use Rattle.relay.specs.Plans.{makes_plan, checks_plan};

use super::SETTINGS;
use plan::{write_checked, write_made};
use words::ANSWER;

// Plans a report of so many bytes under a path limit, in lent words: for each datagram the length of its piece and of its
// padding. The answer is the number of datagrams.
pub fn relay_plan_make(
    method: u64,
    address: &[u8],
    limit: u64,
    report: u64,
    plan: &mut [u64],
    answer: &mut [u64],
) -> u64
    ensures { record { number = result; plan = plan.new; answer = answer.new }
        ≡ makes_plan method address.now limit report plan.old answer.old }
{
    if answer.len() != ANSWER {
        return SETTINGS;
    }
    let made = plan::make(method, address, limit, report, plan);
    write_made(made, answer)
}

// Whether the lent words are a good plan of such a report. The answer is 1 if they are, and else 0.
pub fn relay_plan_check(
    method: u64,
    address: &[u8],
    limit: u64,
    report: u64,
    plan: &[u64],
    answer: &mut [u64],
) -> u64
    ensures { record { number = result; answer = answer.new }
        ≡ checks_plan method address.now limit report plan.now answer.old }
{
    if answer.len() != ANSWER {
        return SETTINGS;
    }
    let checked = plan::check(method, address, limit, report, plan);
    write_checked(checked, answer)
}
