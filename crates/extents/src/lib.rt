// One order check and one search, for everything that has a start and a length.
// The check is true exactly where the predicate holds; the search answers which element holds a position.
#![tactic(auto)]

mod kinds;

ghost use Rattle.std.specs.Prelude.{◌≡◌, ℕ, ◌+◌, Decides};
ghost use Rattle.model.specs.Extents.{fitting, sound, Sound, holds, found, Finds};

// What has a start and a length: a bad run, a unit's place, a part of a Put.
pub trait Extent {
    ghost from: { Self → ℕ };

    ghost size: { Self → ℕ };

    fn start(&self) -> u32
        ensures { result ≡ from self.now };

    fn length(&self) -> u32
        ensures { result ≡ size self.now };
}

// Ends are 64 bits wide, so that no sum wraps.
fn end_of<E: Extent>(extent: &E) -> u64
    ensures { result ≡ E.from extent.now + E.size extent.now }
{
    u64::from(extent.start()) + u64::from(extent.length())
}

fn is_fitting<E: Extent>(extent: &E, low: u64, end: u32) -> bool
    ensures { result ≡ fitting E.from E.size low end extent.now }
{
    extent.length() > 0 && low <= u64::from(extent.start()) && end_of(extent) <= u64::from(end)
}

fn is_held<E: Extent>(extent: &E, position: u32) -> bool
    ensures { result ≡ holds E.from E.size position extent.now }
{
    extent.start() <= position && u64::from(position) < end_of(extent)
}

// Whether none is empty, all are sorted by start, none overlap and all end by `end`.
pub fn is_sound<E: Extent>(extents: &[E], end: u32) -> bool
    ensures value { result ≡ sound E.from E.size 0 end extents.now }
    ensures decides { Decides result (Sound E.from E.size end extents.now) }
{
    let mut low = 0;
    for extent in extents {
        if !is_fitting(extent, low, end) {
            return false;
        }
        low = end_of(extent);
    }
    true
}

// The index of the first element that holds `position`, or none; over a list that passes the check, of the only one.
pub fn find<E: Extent>(extents: &[E], position: u32) -> Option<usize>
    ensures value { result ≡ found E.from E.size 0 position extents.now }
    ensures finds { Finds E.from E.size position extents.now result }
{
    extents.iter().position(|extent| is_held(extent, position))
}
