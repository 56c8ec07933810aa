// Lock Data: what a host is told of a unit, to the byte.
// A head of 18 bytes, then the hint and a last byte 00h. No passphrase is at hand here, so none can be told.
ghost use Rattle.std.specs.Prelude.{◌≡◌, ℕ, ◌^◌, ◌≤◌, List, length, take};
ghost use Rattle.model.specs.Units.{unit_record};
ghost use Rattle.model.specs.LockData.{state_number, steps_for, stepping, completing, shown_accepted, shown_hint, lock_data};
ghost use Rattle.model.specs.declared.sense.Sense.{Sense};
ghost use Rattle.answers.specs.Standings.{standing_by};
ghost use Rattle.answers.specs.Told.{told_head, told_standing};

use crate::answer::Answer;
use model::limits::{HINT_BYTES, LOCKABLE, PHRASE_BYTES, STEP_BLOCKS};
use model::lock::LockState;
use model::request::UnitAddress;

// What Lock Data tell of a unit besides its hint.
#[derive(Clone, Copy)]
pub struct LockFacts {
    pub blocks: u32,
    pub address: UnitAddress,
    pub state: LockState,
    // the accepted flag (bPutAccepted)
    pub accepted: bool,
}

// A work step takes 10 ms.
const STEP_MS: u32 = 10;

// The bytes before the hint.
const HEAD_BYTES: usize = 18;

// The bytes of Lock Data, and of the hint part in them, besides the hint itself.
pub(crate) const BYTES_AROUND: usize = HEAD_BYTES + 1;

const PART_BYTES_AROUND: u8 = 3;

// The byte that ends the hint part, whatever it came with.
const HINT_END: u8 = 0x00;

// The work steps that a unit needs.
fn steps_for(blocks: u32) -> u32
    ensures value { result ≡ steps_for blocks }
    ensures bound { result ≤ 2 ^ 28 }
{
    blocks.div_ceil(STEP_BLOCKS)
}

// A hint is cut to the longest that Lock Data hold.
fn cut_hint(hint: &[u8]) -> &[u8]
    ensures value { result.now ≡ take HINT_BYTES hint.now }
    ensures bound { length result.now ≤ HINT_BYTES }
{
    &hint[..hint.len().min(HINT_BYTES)]
}

impl LockFacts {
    fn state_number(&self) -> u8
        ensures { result ≡ state_number (told_standing self.now) }
    {
        match self.state {
            LockState::Impersonal => 1,
            LockState::Locked | LockState::Recovering { .. } => 2,
            LockState::Unlocked => 3,
        }
    }

    // How long a step takes while the unit is recovering.
    fn stepping_ms(&self) -> u32
        ensures { result ≡ stepping (told_standing self.now) }
    {
        match self.state {
            LockState::Recovering { .. } => STEP_MS,
            LockState::Impersonal | LockState::Locked | LockState::Unlocked => 0,
        }
    }

    // How long a recovery takes, or what is left of one under way.
    fn completing_ms(&self) -> u32
        ensures { result ≡ completing self.now.blocks (told_standing self.now) }
    {
        let steps = steps_for(self.blocks);
        let left = match self.state {
            LockState::Recovering { steps_done } => steps.saturating_sub(steps_done),
            LockState::Impersonal | LockState::Locked | LockState::Unlocked => steps,
        };
        STEP_MS * left
    }

    // A recovering unit shows neither the acceptance of a Put nor its hint.
    fn shown_accepted(&self) -> u8
        ensures { result ≡ shown_accepted (told_standing self.now) self.now.accepted }
    {
        match self.state {
            LockState::Recovering { .. } => 0,
            LockState::Impersonal | LockState::Locked | LockState::Unlocked => u8::from(
                self.accepted,
            ),
        }
    }

    fn shown_hint<'a>(&self, hint: &'a [u8]) -> &'a [u8]
        ensures value { result.now ≡ shown_hint (told_standing self.now) (take HINT_BYTES hint.now) }
        ensures bound { length result.now ≤ HINT_BYTES }
    {
        match self.state {
            LockState::Impersonal | LockState::Recovering { .. } => &[],
            LockState::Locked | LockState::Unlocked => cut_hint(hint),
        }
    }

    // The 18 bytes before the hint: each of the two lengths counts its own byte too.
    fn head(&self, hint_len: u8) -> [u8; HEAD_BYTES]
        requires { hint_len ≤ HINT_BYTES }
        ensures { result ≡ told_head self.now hint_len }
    {
        let [s0, s1, s2, s3] = self.stepping_ms().to_le_bytes();
        let [c0, c1, c2, c3] = self.completing_ms().to_le_bytes();
        [
            BYTES_AROUND as u8 + hint_len,
            LOCKABLE,
            // as numbers, how long a passphrase and a hint may be
            PHRASE_BYTES as u8,
            HINT_BYTES as u8,
            s0,
            s1,
            s2,
            s3,
            self.state_number(),
            self.address.interface,
            self.address.unit,
            self.shown_accepted(),
            c0,
            c1,
            c2,
            c3,
            PART_BYTES_AROUND + hint_len,
            LOCKABLE,
        ]
    }
}

// The Lock Data of a unit, for a hint cut to 100 bytes, whatever passphrase the unit holds.
pub fn lock_data(facts: LockFacts, hint: &[u8]) -> Answer
    ensures { (p : List ℕ) (misses : ℕ) (sense : Sense) → result ≡ lock_data facts.blocks facts.address.interface facts.address.unit (unit_record (standing_by facts.state p) (take HINT_BYTES hint.now) misses facts.accepted sense) }
{
    let shown = facts.shown_hint(hint);
    let mut answer = Answer::new();
    answer.add(&facts.head(shown.len() as u8));
    answer.add(shown);
    answer.add(&[HINT_END]);
    answer
}
