// What a Put does to one row: the transition matches the row's own state and the Put together, in place.
// Everything is weighed before anything is stored, and what is erased is zeros.
ghost use Rattle.std.specs.Prelude.{◌≡◌, true, false, [], if◌then◌else◌, OnOk, OnErr};
ghost use Rattle.parts.specs.Carries.{fits_record, put_of};
ghost use Rattle.parts.specs.Secrets.{HasRoom};
ghost use Rattle.answers.specs.Standings.{standing_by};
ghost use Rattle.model.specs.Puts.{refused, missed, done, kept, turned};
ghost use Rattle.model.specs.Units.{impersonal, unlocked, unit_record};
ghost use Rattle.units.specs.Kept.{stored, tidy};
ghost use Rattle.units.specs.Records.{record_of, sound_row, turn_of, vacant, admits};

use crate::row::Row;
use model::limits::{HINT_BYTES, PHRASE_BYTES};
use model::lock::LockState;
use model::refusal::Refusal;
use model::request::Put;
use parts::put::{NewSecret, UnitPut};

const MOST_MISSES: u8 = 10;

// Whether a row has room for a passphrase and its hint.
fn has_room(secret: NewSecret<'_>) -> bool
    ensures { result ≡ fits_record secret.entry.phrase.now secret.entry.hint.now }
{
    secret.phrase.len() <= PHRASE_BYTES && secret.hint.len() <= HINT_BYTES
}

impl Row {
    // Turned down: the accepted flag is cleared.
    fn refuse(&mut self, refusal: Refusal) -> Result<(), Refusal>
        ensures turn { turn_of result self.new ≡ refused refusal (record_of self.old) }
        ensures sound { sound_row self.new ≡ sound_row self.old }
    {
        self.accepted = false;
        Err(refusal)
    }

    // An incorrect candidate: one miss more, up to ten.
    fn miss(&mut self) -> Result<(), Refusal>
        requires { sound_row self.old ≡ true }
        ensures turn { turn_of result self.new ≡ missed (record_of self.old) }
        ensures sound { sound_row self.new ≡ true }
    {
        if self.misses < MOST_MISSES {
            self.misses += 1;
        }
        self.refuse(Refusal::Incorrect)
    }

    // Whether a candidate equals the stored passphrase, with under ten misses. Both are looked at in any case.
    fn is_correct(&self, candidate: &[u8]) -> bool
        requires { sound_row self.now ≡ true }
        ensures { result ≡ admits self.now candidate.now }
    {
        let same = self.phrase.is_same(candidate);
        same & (self.misses < MOST_MISSES)
    }

    // A correct candidate changes nothing yet; an incorrect one is a miss.
    fn admit(&mut self, candidate: &[u8]) -> Result<(), Refusal>
        requires { sound_row self.old ≡ true }
        ensures ok { OnOk result ((self.new ≡ self.old) × (admits self.old candidate.now ≡ true)) }
        ensures err { OnErr result ((admits self.old candidate.now ≡ false) × (turn_of result self.new ≡ missed (record_of self.old))) }
        ensures sound { sound_row self.new ≡ true }
    {
        if self.is_correct(candidate) {
            Ok(())
        } else {
            self.miss()
        }
    }

    // Accepted, with another state; the record stays.
    fn accept(&mut self, state: LockState) -> Result<(), Refusal>
        requires { vacant state self.old.phrase.len self.old.hint.len ≡ true }
        ensures turn { turn_of result self.new ≡ kept (standing_by state (stored self.old.phrase)) (record_of self.old) }
        ensures sound { sound_row self.old ≡ true → sound_row self.new ≡ true }
    {
        self.state = state;
        self.accepted = true;
        Ok(())
    }

    // Accepted, and Unlocked: the misses are cleared too.
    fn open(&mut self) -> Result<(), Refusal>
        requires phrase { tidy self.old.phrase ≡ true }
        requires hint { tidy self.old.hint ≡ true }
        ensures turn { turn_of result self.new ≡ done (unlocked (stored self.old.phrase)) (record_of self.old).hint (record_of self.old) }
        ensures sound { sound_row self.new ≡ true }
    {
        self.state = LockState::Unlocked;
        self.misses = 0;
        self.accepted = true;
        Ok(())
    }

    // Keeps a new passphrase and hint, with zeros behind them, and no misses.
    fn keep(&mut self, secret: NewSecret<'_>) -> Result<(), Refusal>
        requires { HasRoom secret }
        ensures turn { turn_of result self.new ≡ done (unlocked secret.entry.phrase.now) secret.entry.hint.now (record_of self.old) }
        ensures sound { sound_row self.new ≡ true }
    {
        self.phrase.set(secret.phrase);
        self.hint.set(secret.hint);
        self.open()
    }

    // Wipes passphrase, hint and misses: the unit is Impersonal again, and what was asked of it is done: the accepted flag is set.
    pub(crate) fn wipe(&mut self)
        ensures wiped { record_of self.new ≡ unit_record impersonal [] 0 true self.old.sense }
        ensures sound { sound_row self.new ≡ true }
    {
        self.phrase.set(&[]);
        self.hint.set(&[]);
        self.misses = 0;
        self.state = LockState::Impersonal;
        self.accepted = true;
    }

    // With a correct candidate the unit is Unlocked.
    fn unlock(&mut self, candidate: &[u8]) -> Result<(), Refusal>
        requires { sound_row self.old ≡ true }
        ensures turn { turn_of result self.new ≡ (if admits self.old candidate.now then done (unlocked (stored self.old.phrase)) (record_of self.old).hint (record_of self.old) else missed (record_of self.old)) }
        ensures sound { sound_row self.new ≡ true }
    {
        self.admit(candidate)?;
        self.open()
    }

    // With a correct candidate another passphrase and hint are kept.
    fn change(&mut self, candidate: &[u8], secret: NewSecret<'_>) -> Result<(), Refusal>
        requires room { HasRoom secret }
        requires sound { sound_row self.old ≡ true }
        ensures turn { turn_of result self.new ≡ (if admits self.old candidate.now then done (unlocked secret.entry.phrase.now) secret.entry.hint.now (record_of self.old) else missed (record_of self.old)) }
        ensures sound { sound_row self.new ≡ true }
    {
        self.admit(candidate)?;
        self.keep(secret)
    }

    // With a correct candidate passphrase and hint are erased, and the misses.
    fn erase(&mut self, candidate: &[u8]) -> Result<(), Refusal>
        requires { sound_row self.old ≡ true }
        ensures turn { turn_of result self.new ≡ (if admits self.old candidate.now then done impersonal [] (record_of self.old) else missed (record_of self.old)) }
        ensures sound { sound_row self.new ≡ true }
    {
        self.admit(candidate)?;
        self.wipe();
        Ok(())
    }

    // The Put's transition: the earliest of the refusals 9, 10, 11, 12 and 13, or accepted.
    pub(crate) fn put(&mut self, put: UnitPut<'_>, negotiable: bool) -> Result<(), Refusal>
        requires { sound_row self.old ≡ true }
        ensures turn { turn_of result self.new ≡ turned negotiable (put_of put.entry) (record_of self.old) }
        ensures sound { sound_row self.new ≡ true }
    {
        match (self.state, put) {
            (
                _,
                UnitPut::Misfit
                | UnitPut::Malformed(
                    Put::EraseForgottenPassphrase | Put::LockAgain | Put::ChangeInterfaceAccess,
                ),
            ) => self.refuse(Refusal::WrongLength),
            (LockState::Recovering { .. }, _) => Err(Refusal::Recovering),
            (LockState::Impersonal, UnitPut::Store(secret)) if has_room(secret) => self.keep(
                secret,
            ),
            (LockState::Locked, UnitPut::Match { candidate }) => self.unlock(candidate),
            (LockState::Locked, UnitPut::EraseForgotten) => self.accept(LockState::Recovering {
                steps_done: 0,
            }),
            (LockState::Unlocked, UnitPut::Change { candidate, secret }) if has_room(secret) => {
                self.change(candidate, secret)
            }
            (LockState::Unlocked, UnitPut::Erase { candidate }) => self.erase(candidate),
            (LockState::Unlocked, UnitPut::LockAgain) if negotiable => self.accept(
                LockState::Locked,
            ),
            (LockState::Impersonal, UnitPut::Store(_) | UnitPut::Malformed(Put::StorePassphrase))
            | (LockState::Locked, UnitPut::Malformed(Put::MatchPassphrase))
            | (
                LockState::Unlocked,
                UnitPut::Change { .. }
                | UnitPut::Malformed(Put::ChangePassphrase | Put::ErasePassphrase),
            ) => self.refuse(Refusal::Malformed),
            (LockState::Impersonal, _) => self.refuse(Refusal::WrongState),
            (LockState::Locked, _) => self.refuse(Refusal::WrongState),
            (LockState::Unlocked, _) => self.refuse(Refusal::WrongState),
        }
    }
}
