// What a control transfer asks for, as its setup bytes say.
// Whether there is such an interface or unit is not known here.

ghost use Rattle.std.specs.Prelude.{◌≡◌, ok_or, IfOk};
ghost use Rattle.model.specs.Requests.{put_number, put_told};
ghost use Rattle.model.specs.declared.refusal.Refusal.TheVariants.{Unlisted};

use crate::refusal::Refusal;

// The Puts of the locking protocol.
#[derive(Clone, Copy, PartialEq, Eq, Debug)]
pub enum Put {
    StorePassphrase,
    MatchPassphrase,
    ChangePassphrase,
    ErasePassphrase,
    EraseForgottenPassphrase,
    LockAgain,
    ChangeInterfaceAccess,
}

// The Put that the low byte of wValue tells.
impl TryFrom<u8> for Put {
    type Error = Refusal;

    ghost try_from_gives = { λ n r. (r ≡ ok_or (put_told n) Unlisted) × IfOk r (λ p. put_number p ≡ n) };

    fn try_from(code: u8) -> Result<Put, Refusal> {
        match code {
            0x01 => Ok(Put::StorePassphrase),
            0x02 => Ok(Put::MatchPassphrase),
            0x03 => Ok(Put::ChangePassphrase),
            0x04 => Ok(Put::ErasePassphrase),
            0x05 => Ok(Put::EraseForgottenPassphrase),
            0x06 => Ok(Put::LockAgain),
            0x07 => Ok(Put::ChangeInterfaceAccess),
            _ => Err(Refusal::Unlisted),
        }
    }
}

// A unit by the numbers that a request gives: its interface's, and its own in that interface.
#[derive(Clone, Copy, PartialEq, Eq, Debug)]
pub struct UnitAddress {
    pub interface: u8,
    pub unit: u8,
}

#[derive(Clone, Copy)]
pub enum Request {
    DeviceDescriptor,
    // the configuration descriptor with all that belongs to it
    Bundle,
    LockData { address: UnitAddress },
    HighestUnit { interface: u8 },
    ClearJam { interface: u8 },
    PutTo { put: Put, address: UnitAddress },
}

// A listed request with the length that its setup gives.
#[derive(Clone, Copy)]
pub struct Asked {
    pub request: Request,
    pub length: u16,
}
