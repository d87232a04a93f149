// Plans of a long report under a path limit: for each datagram a piece of the report and padding, two words in lent memory.
#![tactic(auto)]

ghost use Rattle.std.specs.Prelude.{◌≡◌, ◌+◌, ◌-◌, ◌*◌, ◌<◌, ◌≤◌, length};
ghost use Rattle.std.proofs.lemmas.List.Edits.{sets};
ghost use Rattle.plan_pieces.specs.Plans.{words, passes, made};
ghost use Rattle.plan.specs.Answers.{head_with, most_of, limit_answer, argument_answer, capacity_answer, check_answer, make_answer, make_out};

use datagram_parts::{MAX_DATAGRAM, Side, fixed_length, overhead_of};
use plan_pieces::{fewest_of, piece_fits, saturating_sub, smaller_of};
use protocol::Refusal;

mod told;

pub use told::{write_checked, write_made};

// ---- the arguments

// What a limit leaves to piece and padding; 0 where that is nothing. No sum could wrap.
fn most_of(limit: u64, overhead: usize, address: usize) -> u64
    ensures { result ≡ limit - head_with overhead address }
{
    let fixed = fixed_length(Side::Client);
    saturating_sub(
        saturating_sub(saturating_sub(limit, overhead), fixed),
        address,
    )
}

// Refusal 12 of a limit that is over the longest datagram, or has no room for one byte of a report that has any.
#[tactic(auto, unfolding(crate::specs::Answers::limit_answer))]
fn limit_answer(most: u64, limit: u64, report: u64) -> Result<u64, Refusal>
    ensures { result ≡ limit_answer most limit report }
{
    if (MAX_DATAGRAM as u64) < limit || (report != 0 && most == 0) {
        return Err(Refusal::Argument);
    }
    Ok(most)
}

#[tactic(auto, unfolding(crate::specs::Answers::argument_answer))]
fn argument_answer(overhead: usize, address: &[u8], limit: u64, report: u64) -> Result<u64, Refusal>
    ensures { result ≡ argument_answer overhead address.now limit report }
{
    if !socks5::is_address(address) {
        return Err(Refusal::Argument);
    }
    limit_answer(most_of(limit, overhead, address.len()), limit, report)
}

// Refusals 1 and 12, in this order, or what a datagram has room for.
#[tactic(auto, unfolding(crate::specs::Answers::capacity_answer))]
fn capacity_of(method: u64, address: &[u8], limit: u64, report: u64) -> Result<u64, Refusal>
    ensures { result ≡ capacity_answer method address.now limit report }
{
    let overhead = overhead_of(method);
    if overhead == 0 {
        return Err(Refusal::Settings);
    }
    argument_answer(overhead, address, limit, report)
}

// ---- checking

fn passes_words(most: u64, report: u64, plan: &[u64]) -> bool
    requires { 0 < report → 0 < most }
    ensures { result ≡ passes most report plan.now }
{
    let (pieces, odd) = plan.as_chunks::<2>();
    if !odd.is_empty() || pieces.len() != fewest_of(report, most) {
        return false;
    }
    let mut rest = report;
    for &[bytes, padding] in pieces {
        if !piece_fits(most, rest, bytes, padding) {
            return false;
        }
        rest -= bytes;
    }
    rest == 0
}

// Whether the words are those of a good plan for a report of so many bytes.
#[tactic(auto, unfolding(crate::specs::Answers::check_answer))]
pub fn check(
    method: u64,
    address: &[u8],
    limit: u64,
    report: u64,
    plan: &[u64],
) -> Result<bool, Refusal>
    ensures { result ≡ check_answer method address.now limit report plan.now }
{
    let most = capacity_of(method, address, limit, report)?;
    Ok(passes_words(most, report, plan))
}

// ---- planning

// Writes the plan of k datagrams.
fn write_plan(plan: &mut [u64], most: u64, report: u64, k: usize)
    requires { 2 * k ≤ length plan.old }
    ensures { plan.new ≡ sets plan.old 0 (words (made most report k)) }
{
    let mut rest = report;
    // An index: of two words beside each other, which pairs lent by an iterator say no plainer.
    for i in 0..k {
        let bytes = smaller_of(rest, most);
        plan[2 * i] = bytes;
        plan[2 * i + 1] = 0;
        rest -= bytes;
    }
}

// Writes a good plan to the front of the lent words, and answers how many datagrams it has. Words behind it stay, and all do
// where there is no plan.
#[tactic(auto, unfolding(crate::specs::Answers::make_answer, crate::specs::Answers::room_answer))]
pub fn make(
    method: u64,
    address: &[u8],
    limit: u64,
    report: u64,
    plan: &mut [u64],
) -> Result<usize, Refusal>
    ensures answer { result ≡ make_answer method address.now limit report (length plan.old) }
    ensures written { plan.new
        ≡ make_out result (most_of method address.now limit) report plan.old }
{
    let most = capacity_of(method, address, limit, report)?;
    let k = fewest_of(report, most);
    if plan.len() / 2 < k {
        return Err(Refusal::Room);
    }
    write_plan(plan, most, report, k);
    Ok(k)
}
