// Plans of a long report.
ghost use Rattle.std.specs.Prelude.{◌≡◌};
ghost use Rattle.relay.specs.Plans.{makes_plan, checks_plan};

#[unsafe(no_mangle)]
pub extern "C" fn relay_plan_make(
    method: u64,
    address: &[u8],
    limit: u64,
    report: u64,
    plan: &mut [u64],
    answer: &mut [u64],
) -> u64
    ensures { record { number = result; plan = plan.new; answer = answer.new }
        ≡ makes_plan method address.now limit report plan.old answer.old }
{
    relay::plans::relay_plan_make(method, address, limit, report, plan, answer)
}

#[unsafe(no_mangle)]
pub extern "C" fn relay_plan_check(
    method: u64,
    address: &[u8],
    limit: u64,
    report: u64,
    plan: &[u64],
    answer: &mut [u64],
) -> u64
    ensures { record { number = result; answer = answer.new }
        ≡ checks_plan method address.now limit report plan.now answer.old }
{
    relay::plans::relay_plan_check(method, address, limit, report, plan, answer)
}
