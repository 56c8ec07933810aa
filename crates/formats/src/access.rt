// Access data, which Change Interface Access carries: the identity to present, and how long the change takes.
// All 12 bytes are taken apart by one pattern.
ghost use Rattle.std.specs.Prelude.{◌≡◌, IfErr, option_map};
ghost use Rattle.std.specs.Result.{result_ok};
ghost use Rattle.model.specs.Parts.{access_in};
ghost use Rattle.model.specs.declared.refusal.Refusal.TheVariants.{Malformed};
ghost use Rattle.formats.specs.Accesses.{access_of};

use model::ids::Ids;
use model::limits::{BULK_ONLY, LOCKABLE};
use model::refusal::Refusal;

// How many bytes access data have.
pub const ACCESS_BYTES: usize = 12;

// Their first byte, bLength, says so.
const ACCESS_LENGTH: u8 = ACCESS_BYTES as u8;

#[derive(Clone, Copy)]
pub struct Access {
    pub target: Ids,
    // how long the stick idles, and then is gone, before the interface presents the target
    pub idle_ms: u32,
    pub gone_ms: u32,
}

// What the data of a Change Interface Access say; they may be malformed.
pub fn read_access(data: &[u8]) -> Result<Access, Refusal>
    ensures access { option_map access_of (result_ok result) ≡ access_in «data».now }
    ensures refusal { IfErr result (λ r. r ≡ Malformed) }
{
    let [
        ACCESS_LENGTH,
        LOCKABLE,
        subclass,
        BULK_ONLY,
        i0,
        i1,
        i2,
        i3,
        g0,
        g1,
        g2,
        g3,
    ] = *data
    else {
        return Err(Refusal::Malformed);
    };
    Ok(Access {
        target: Ids::try_from(subclass)?,
        idle_ms: u32::from_le_bytes([i0, i1, i2, i3]),
        gone_ms: u32::from_le_bytes([g0, g1, g2, g3]),
    })
}
