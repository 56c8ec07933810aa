// Making answers of bytes.
// A host gets no more than it asked for.
ghost use Rattle.std.specs.Prelude.{◌≡◌, ◌≤◌, length, take};

use crate::answer::{Answer, LONGEST_ANSWER};

// The front of `bytes`: no more than were wanted, and no more than an answer holds.
pub fn answer_from(bytes: &[u8], wanted: u16) -> Answer
    ensures value { result ≡ take LONGEST_ANSWER (take wanted bytes.now) }
    ensures whole { length bytes.now ≤ LONGEST_ANSWER → result ≡ take wanted bytes.now }
{
    let len = bytes.len().min(usize::from(wanted)).min(LONGEST_ANSWER);
    let mut answer = Answer::new();
    answer.add(&bytes[..len]);
    answer
}
