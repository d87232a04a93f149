// Streams of SIP004, begun in words that a host lends.
ghost use Rattle.std.specs.Prelude.{◌≡◌};
ghost use Rattle.stream_answers.specs.Beginning.{begins, words_told, sender_told, receiver_told};

use super::SETTINGS;
use protocol::Refusal;
use stream_open::Receiver;
use stream_seal::Sender;
use words::{STREAM, receiver_words, sender_words};

// Gives the words of a stream that was begun to the caller.
fn write_begun(begun: Result<[u64; STREAM], Refusal>, stream: &mut [u64]) -> u64
    ensures { record { number = result; stream = stream.new }
        ≡ begins (words_told begun stream.old) stream.old }
{
    if stream.len() != STREAM {
        return SETTINGS;
    }
    match begun {
        Ok(words) => {
            records::write(stream, 0, &words);
            0
        }
        Err(refusal) => refusal.number(),
    }
}

// Gives a stream that seals to the caller.
pub fn write_sender(begun: Result<Sender, Refusal>, stream: &mut [u64]) -> u64
    ensures { record { number = result; stream = stream.new }
        ≡ begins (sender_told begun stream.old) stream.old }
{
    match begun {
        Ok(sender) => write_begun(Ok(sender_words(sender)), stream),
        Err(refusal) => write_begun(Err(refusal), stream),
    }
}

// Gives a stream that opens to the caller.
pub fn write_receiver(begun: Result<Receiver, Refusal>, stream: &mut [u64]) -> u64
    ensures { record { number = result; stream = stream.new }
        ≡ begins (receiver_told begun stream.old) stream.old }
{
    match begun {
        Ok(receiver) => write_begun(Ok(receiver_words(receiver)), stream),
        Err(refusal) => write_begun(Err(refusal), stream),
    }
}
