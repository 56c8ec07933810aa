// Bytes at the front of a fixed array, with zeros behind them.
// Not a list of `lists`, which keeps its memory to itself: a candidate is compared with the array to its own end, past what is stored too.
ghost use Rattle.std.specs.Prelude.{◌≡◌, ◌≤◌, true, length, replicate};

pub struct Stored<const N: usize> {
    pub(crate) bytes: [u8; N],
    pub(crate) len: u8,
}

// Takes bytes that nothing keeps, and asks that they are zeros.
fn let_go<const N: usize>(bytes: [u8; N])
    requires { bytes ≡ replicate N 0 }
{
    let _ = bytes;
}

// Where one goes, its bytes are zeroed first. `let_go` asks for that: of a value that goes, a clause of `drop` could only say what it was.
// It says nothing of the machine's memory: a compiler may leave out what is stored where nobody reads any more, and LLVM does today.
impl<const N: usize> Drop for Stored<N> {
    fn drop(mut self) {
        self.bytes[..].fill(0);
        let Stored { bytes, len: _ } = self;
        let_go(bytes);
    }
}

// That it is tidy is asked in clauses: a row is changed field by field while it is lent, and the table bounds all rows.
impl<const N: usize> Stored<N> {
    ghost use Rattle.units.specs.Kept.{stored, tidy};

    // Nothing is stored.
    pub(crate) fn new() -> Self
        ensures bytes { result.bytes ≡ replicate N 0 }
        ensures len { result.len ≡ 0 }
    {
        Stored {
            bytes: [0; N],
            len: 0,
        }
    }

    // Stores bytes, with zeros behind them, so that nothing is left of what was there.
    pub(crate) fn set(&mut self, bytes: &[u8])
        requires small { N ≤ 255 }
        requires room { length bytes.now ≤ N }
        ensures front { stored self.new ≡ bytes.now }
        ensures len { self.new.len ≡ length bytes.now }
        ensures tidy { tidy self.new ≡ true }
    {
        let len = bytes.len();
        self.bytes.fill(0);
        self.bytes[..len].copy_from_slice(bytes);
        self.len = len as u8;
    }

    // The bytes that are stored.
    pub(crate) fn as_slice(&self) -> &[u8]
        requires { tidy self.now ≡ true }
        ensures { result.now ≡ stored self.now }
    {
        &self.bytes[..usize::from(self.len)]
    }
}
