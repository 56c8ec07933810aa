// Why a call is turned down, each reason with its number.
// Calls hand on the reason itself; the number is made at the edge: in a record line, in a message, and for C.
ghost use Rattle.std.specs.Prelude.{◌≡◌};
ghost use Rattle.model.specs.Refusals.{refusal_number, number_of, fault_refusal};

#[derive(Clone, Copy, PartialEq, Eq, Debug)]
pub enum Refusal {
    // layout bytes break a rule
    Layout,
    // memory and bad runs break a rule
    Medium,
    // the block lies past the medium's end, or the buffer has not 512 bytes
    OutsideMedium,
    // the block is bad
    BadBlock,
    // the stick idles before an interface change
    Idle,
    // the stick is gone in an interface change
    Gone,
    // the setup has not 8 bytes, or is unlisted in more than its wLength
    Unlisted,
    // no such interface or unit
    Absent,
    // wLength is not allowed, or not the arriving length
    WrongLength,
    // a Put to a unit that is recovering
    Recovering,
    // the unit or the interface is in the wrong state
    WrongState,
    // a part or access data are malformed
    Malformed,
    // the candidate is incorrect
    Incorrect,
    // the buffer is shorter than the answer, or than the transfer length
    ShortBuffer,
    // the interface is jammed
    Jammed,
    // the command block wrapper is not in order; this jams the interface
    BadWrapper,
}

// The number that is reported for a refusal.
impl From<Refusal> for u8 {
    ghost from_gives = { λ r n. n ≡ refusal_number r };

    fn from(refusal: Refusal) -> u8 {
        match refusal {
            Refusal::Layout => 1,
            Refusal::Medium => 2,
            Refusal::OutsideMedium => 3,
            Refusal::BadBlock => 4,
            Refusal::Idle => 5,
            Refusal::Gone => 6,
            Refusal::Unlisted => 7,
            Refusal::Absent => 8,
            Refusal::WrongLength => 9,
            Refusal::Recovering => 10,
            Refusal::WrongState => 11,
            Refusal::Malformed => 12,
            Refusal::Incorrect => 13,
            Refusal::ShortBuffer => 14,
            Refusal::Jammed => 15,
            Refusal::BadWrapper => 16,
        }
    }
}

// The number that a call is answered with: 0 where it is accepted.
pub fn number_of(answer: Result<(), Refusal>) -> u8
    ensures { result ≡ number_of answer }
{
    answer.map_or_else(u8::from, |()| 0)
}

// Why a medium turns a read or a write down.
#[derive(Clone, Copy, PartialEq, Eq, Debug)]
pub enum Fault {
    // the block lies past the end, or the buffer has not 512 bytes
    Outside,
    // the block is bad
    Bad,
}

impl From<Fault> for Refusal {
    ghost from_gives = { λ f r. r ≡ fault_refusal f };

    fn from(fault: Fault) -> Refusal {
        match fault {
            Fault::Outside => Refusal::OutsideMedium,
            Fault::Bad => Refusal::BadBlock,
        }
    }
}
