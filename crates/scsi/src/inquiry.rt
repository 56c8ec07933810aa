// What INQUIRY answers: the kind of device that a unit is. All units of all sticks answer the same,
// so that nothing of a unit shows here, open or not.
ghost use Rattle.std.specs.Prelude.{◌≡◌};
ghost use Rattle.model.specs.Commands.{inquiry_data};

// A direct access device whose medium cannot be taken out, of SPC-3, with the response format that belongs to it.
const DIRECT_ACCESS: u8 = 0x00;

const FIXED_MEDIUM: u8 = 0x00;

const SPC_3: u8 = 0x05;

const RESPONSE_FORMAT: u8 = 0x02;

// The bytes that follow the fifth.
const MORE_BYTES: u8 = 0x1F;

// The bytes before the names.
const HEAD_BYTES: usize = 8;

const INQUIRY_HEAD: [u8; HEAD_BYTES] = [
    DIRECT_ACCESS,
    FIXED_MEDIUM,
    SPC_3,
    RESPONSE_FORMAT,
    MORE_BYTES,
    0x00,
    0x00,
    0x00,
];

const BLANK: u8 = b' ';

pub(crate) const INQUIRY_LENGTH: usize = 36;

// The answer to INQUIRY: names of vendor and product and a revision would follow the head, and are left blank.
pub fn inquiry_data() -> [u8; INQUIRY_LENGTH]
    ensures { result ≡ inquiry_data }
{
    let mut answer = [BLANK; INQUIRY_LENGTH];
    answer[..HEAD_BYTES].copy_from_slice(&INQUIRY_HEAD);
    answer
}
