// An answer to a control transfer before its bytes go into the buffer: whole, or cut to what the host wants.
// Callers see an answer as the list of its bytes.
ghost use Rattle.std.specs.Prelude.{◌≡◌, ◌+◌, ◌≤◌, [], ◌++◌, length};

use crate::lock_data::BYTES_AROUND;
use lists::list::FixedList;
use model::limits::HINT_BYTES;
use std::marker::Model;

// The longest answer of all is Lock Data with the longest hint.
pub const LONGEST_ANSWER: usize = BYTES_AROUND + HINT_BYTES;

// A type of its own around the list: only this crate makes answers.
#[derive(Drop)]
pub struct Answer {
    bytes: FixedList<u8, LONGEST_ANSWER>,
}

impl Model for Answer {
    ghost use Rattle.std.specs.Prelude.{ℕ, List};

    ghost Value = { List ℕ };

    ghost view = { λ a. a.bytes };
}

impl Answer {
    // No bytes yet.
    pub(crate) fn new() -> Answer
        ensures { result ≡ [] }
    {
        Answer {
            bytes: FixedList::new(),
        }
    }

    // Puts bytes behind those that are there.
    pub(crate) fn add(&mut self, bytes: &[u8])
        requires { length self.old + length bytes.now ≤ LONGEST_ANSWER }
        ensures { self.new ≡ self.old ++ bytes.now }
    {
        self.bytes.extend_from_slice(bytes);
    }

    // The answer's bytes.
    pub fn as_slice(&self) -> &[u8]
        ensures bytes { result.now ≡ self.now }
        ensures bound { length result.now ≤ LONGEST_ANSWER }
    {
        &self.bytes
    }
}
