// A Put to a unit with what it carries, borrowed from the bytes that arrived.
// The types alone, so that definitions may name them.
use model::request::Put;

// A new passphrase with its hint. No bound of its own: a row turns a longer one down.
#[derive(Clone, Copy)]
pub struct NewSecret<'a> {
    pub phrase: &'a [u8],
    pub hint: &'a [u8],
}

// What does not fit is a case beside the others, and no error: which refusal it is depends on the unit's state and on the Put.
#[derive(Clone, Copy)]
pub enum UnitPut<'a> {
    // wLength is not allowed, or is not the arriving length
    Misfit,
    // the data are not what this Put carries
    Malformed(Put),
    Store(NewSecret<'a>),
    Match {
        candidate: &'a [u8],
    },
    Change {
        candidate: &'a [u8],
        secret: NewSecret<'a>,
    },
    Erase {
        candidate: &'a [u8],
    },
    EraseForgotten,
    LockAgain,
}
