// The command status wrapper (CSW), which ends every bulk command: signature, tag, residue and status.
// The tag is the host's own number for the command, handed back as it came.
ghost use Rattle.std.specs.Prelude.{◌≡◌};
ghost use Rattle.model.specs.Wrappers.{csw as csw_of};

use model::command::Status;

pub const CSW_LENGTH: usize = 13;

const CSW_SIGNATURE: [u8; 4] = *b"USBS";

// The CSW of the command that came with this tag; the residue is what of the transfer length did not move.
pub fn csw(tag: u32, residue: u32, status: Status) -> [u8; CSW_LENGTH]
    ensures { result ≡ csw_of tag residue status }
{
    let [s0, s1, s2, s3] = CSW_SIGNATURE;
    let [t0, t1, t2, t3] = tag.to_le_bytes();
    let [r0, r1, r2, r3] = residue.to_le_bytes();
    [
        s0,
        s1,
        s2,
        s3,
        t0,
        t1,
        t2,
        t3,
        r0,
        r1,
        r2,
        r3,
        u8::from(status),
    ]
}
