// Sense data: why the last command for a unit failed, as REQUEST SENSE answers it.
// 18 bytes in fixed form; what no reason here fills is zeros.
ghost use Rattle.std.specs.Prelude.{◌≡◌};
ghost use Rattle.model.specs.Senses.{sense_values, sense_data, response_code};
ghost use Rattle.scsi.specs.Values.{values_of};

use model::sense::Sense;

// What REQUEST SENSE tells of a sense.
#[derive(Clone, Copy)]
struct SenseValues {
    key: u8,
    // the additional sense code and its qualifier
    code: u8,
    qualifier: u8,
    // INFORMATION: the address in the unit of the block that failed
    information: Option<u32>,
}

// Sense keys
const NO_SENSE: u8 = 0x00;

const NOT_READY: u8 = 0x02;

const MEDIUM_ERROR: u8 = 0x03;

const ILLEGAL_REQUEST: u8 = 0x05;

const DATA_PROTECT: u8 = 0x07;

// Each reason, with its key, code and qualifier
const NO_REASON: SenseValues = SenseValues {
    key: NO_SENSE,
    code: 0x00,
    qualifier: 0x00,
    information: None,
};

const FORMAT_IN_PROGRESS: SenseValues = SenseValues {
    key: NOT_READY,
    code: 0x04,
    qualifier: 0x04,
    information: None,
};

const ACCESS_DENIED: SenseValues = SenseValues {
    key: DATA_PROTECT,
    code: 0x20,
    qualifier: 0x02,
    information: None,
};

const ADDRESS_OUT_OF_RANGE: SenseValues = SenseValues {
    key: ILLEGAL_REQUEST,
    code: 0x21,
    qualifier: 0x00,
    information: None,
};

const INVALID_OPERATION_CODE: SenseValues = SenseValues {
    key: ILLEGAL_REQUEST,
    code: 0x20,
    qualifier: 0x00,
    information: None,
};

const INVALID_FIELD: SenseValues = SenseValues {
    key: ILLEGAL_REQUEST,
    code: 0x24,
    qualifier: 0x00,
    information: None,
};

const READ_ERROR: SenseValues = SenseValues {
    key: MEDIUM_ERROR,
    code: 0x11,
    qualifier: 0x00,
    information: None,
};

const WRITE_ERROR: SenseValues = SenseValues {
    key: MEDIUM_ERROR,
    code: 0x0C,
    qualifier: 0x00,
    information: None,
};

// The first byte: current sense data in fixed form; VALID says that INFORMATION is given.
const FIXED_FORM: u8 = 0x70;

const FIXED_FORM_VALID: u8 = 0xF0;

// The bytes of sense data, and how many of them follow the eighth.
pub(crate) const SENSE_LENGTH: usize = 18;

const MORE_BYTES: u8 = 10;

fn sense_values(sense: Sense) -> SenseValues
    ensures { values_of result ≡ sense_values sense }
{
    match sense {
        Sense::None => NO_REASON,
        Sense::Recovering => FORMAT_IN_PROGRESS,
        Sense::Locked => ACCESS_DENIED,
        Sense::OutOfRange => ADDRESS_OUT_OF_RANGE,
        Sense::UnlistedCommand => INVALID_OPERATION_CODE,
        Sense::InvalidField => INVALID_FIELD,
        Sense::ReadFault { address } => SenseValues {
            information: Some(address),
            ..READ_ERROR
        },
        Sense::WriteFault { address } => SenseValues {
            information: Some(address),
            ..WRITE_ERROR
        },
    }
}

fn response_code(information: Option<u32>) -> u8
    ensures { result ≡ response_code information }
{
    match information {
        None => FIXED_FORM,
        Some(_) => FIXED_FORM_VALID,
    }
}

// What REQUEST SENSE answers where this is stored.
pub fn sense_data(sense: Sense) -> [u8; SENSE_LENGTH]
    ensures { result ≡ sense_data sense }
{
    let values = sense_values(sense);
    let [i0, i1, i2, i3] = values.information.unwrap_or(0).to_be_bytes();
    [
        response_code(values.information),
        0,
        values.key,
        i0,
        i1,
        i2,
        i3,
        MORE_BYTES,
        0,
        0,
        0,
        0,
        values.code,
        values.qualifier,
        0,
        0,
        0,
        0,
    ]
}
