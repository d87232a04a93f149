// What a host is told of an answer: a number, and the first word of a lent answer.
ghost use Rattle.std.specs.Prelude.{◌≡◌, ◌<◌, length};
ghost use Rattle.plan.specs.Told.{made_number, made_words, checked_number, checked_words};

use protocol::Refusal;

// The number of datagrams.
pub fn write_made(made: Result<usize, Refusal>, answer: &mut [u64]) -> u64
    requires { 0 < length answer.old }
    ensures value { result ≡ made_number made }
    ensures answer_after { answer.new ≡ made_words made answer.old }
{
    match made {
        Ok(k) => {
            answer[0] = k as u64;
            0
        }
        Err(refusal) => refusal.number(),
    }
}

// 1 for a good plan, and else 0.
pub fn write_checked(checked: Result<bool, Refusal>, answer: &mut [u64]) -> u64
    requires { 0 < length answer.old }
    ensures value { result ≡ checked_number checked }
    ensures answer_after { answer.new ≡ checked_words checked answer.old }
{
    match checked {
        Ok(passed) => {
            answer[0] = passed as u64;
            0
        }
        Err(refusal) => refusal.number(),
    }
}
