// The identity that an interface presents to the host, and what else changes of an interface.
// IDs change when power comes and when an interface change ends, and at no other time.
ghost use Rattle.std.specs.Prelude.{◌≡◌, ok_or};
ghost use Rattle.model.specs.Identities.{ids_subclass, is_negotiable};
ghost use Rattle.model.specs.Parts.{target_in};
ghost use Rattle.model.specs.declared.refusal.Refusal.TheVariants.{Malformed};

use crate::refusal::Refusal;

// Class, subclass and protocol are 08 07 50 (Negotiable) or 08 06 50 (SCSI over Bulk-Only Transport).
#[derive(Clone, Copy, PartialEq, Eq, Debug, Default)]
pub enum Ids {
    Negotiable,
    #[default]
    ScsiBbb,
}

impl Ids {
    // Whether these are Negotiable IDs: of all requests Lock Again alone needs an interface that presents them.
    pub fn is_negotiable(self) -> bool
        ensures { result ≡ is_negotiable self }
    {
        self == Ids::Negotiable
    }
}

// The interface subclass, the one byte in which the two identities differ.
impl From<Ids> for u8 {
    ghost from_gives = { λ ids n. n ≡ ids_subclass ids };

    fn from(ids: Ids) -> u8 {
        match ids {
            Ids::Negotiable => 0x07,
            Ids::ScsiBbb => 0x06,
        }
    }
}

// The identity that access data name by an interface subclass.
impl TryFrom<u8> for Ids {
    type Error = Refusal;

    ghost try_from_gives = { λ n r. r ≡ ok_or (target_in n) Malformed };

    fn try_from(subclass: u8) -> Result<Ids, Refusal> {
        match subclass {
            0x07 => Ok(Ids::Negotiable),
            0x06 => Ok(Ids::ScsiBbb),
            _ => Err(Refusal::Malformed),
        }
    }
}

// One interface of a running stick.
#[derive(Clone, Copy, Default)]
pub struct Interface {
    pub ids: Ids,
    // a jammed interface takes no bulk command until the jam is cleared
    pub jammed: bool,
}

// An interface change under way: the stick idles, then is gone, then presents the target.
// Interface, target and times stand in the cases themselves, with no struct around them: they are the phase, and the clock alone takes it apart.
#[derive(Clone, Copy)]
pub enum Phase {
    Present,
    Idle {
        interface: u8,
        target: Ids,
        idle_ms: u32,
        gone_ms: u32,
    },
    Gone {
        interface: u8,
        target: Ids,
        gone_ms: u32,
    },
}
