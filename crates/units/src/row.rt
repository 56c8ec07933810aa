// One unit's record: a plain row of fixed arrays. None can be copied: a copy would leave its passphrase behind.
// No invariant of its own: a transition changes a row field by field while it is lent, so the table bounds all rows.
ghost use Rattle.std.specs.Prelude.{◌≡◌, true};
ghost use Rattle.model.specs.Presence.{presented};
ghost use Rattle.model.specs.Units.{new_unit, powered, holds_phrase, is_locked};
ghost use Rattle.units.specs.Records.{record_of, sound_row};

use crate::stored::Stored;
use model::limits::{HINT_BYTES, PHRASE_BYTES};
use model::lock::LockState;
use model::sense::Sense;

#[derive(Drop)]
pub struct Row {
    pub(crate) state: LockState,
    pub(crate) phrase: Stored<PHRASE_BYTES>,
    pub(crate) hint: Stored<HINT_BYTES>,
    pub(crate) misses: u8,
    // the accepted flag (bPutAccepted)
    pub(crate) accepted: bool,
    pub(crate) sense: Sense,
}

impl Row {
    // A new unit: Impersonal, with no misses.
    pub(crate) fn new() -> Row
        ensures record { record_of result ≡ new_unit }
        ensures sound { sound_row result ≡ true }
    {
        Row {
            state: LockState::Impersonal,
            phrase: Stored::new(),
            hint: Stored::new(),
            misses: 0,
            accepted: false,
            sense: Sense::None,
        }
    }

    // Shown anew: nothing is told of the time before, and the unit stands as it stood.
    pub(crate) fn present(&mut self)
        ensures record { record_of self.new ≡ presented (record_of self.old) }
        ensures sound { sound_row self.new ≡ sound_row self.old }
    {
        self.accepted = false;
        self.sense = Sense::None;
    }

    // Power-up: a unit that holds a passphrase is locked, and each is shown anew.
    pub(crate) fn power_up(&mut self)
        ensures record { record_of self.new ≡ powered (record_of self.old) }
        ensures sound { sound_row self.new ≡ sound_row self.old }
    {
        if let LockState::Unlocked = self.state {
            self.state = LockState::Locked;
        }
        self.present();
    }

    // Whether the unit holds a passphrase.
    pub(crate) fn is_personal(&self) -> bool
        ensures { result ≡ holds_phrase (record_of self.now).standing }
    {
        !matches!(self.state, LockState::Impersonal)
    }

    // Whether the unit is Locked, as one that recovers is.
    pub(crate) fn is_locked(&self) -> bool
        ensures { result ≡ is_locked (record_of self.now).standing }
    {
        matches!(self.state, LockState::Locked | LockState::Recovering { .. })
    }
}
