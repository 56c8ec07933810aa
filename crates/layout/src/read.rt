// Layout bytes: idVendor, product base, bcdDevice, the number of interfaces, a unit count for each, a place for each unit.
// A layout that breaks a rule is refused by inspection, and fitted as a stick with no interface.
ghost use Rattle.std.specs.Prelude.{◌≡◌, ◌*◌, ◌/◌, ◌≤◌, true, ◌&&◌, length, if◌then◌else◌, Ok, Err, IsTrue, Some, None, nat_lt};
ghost use Rattle.model.specs.Bytes.{le32};
ghost use Rattle.model.specs.Extents.{sound};
ghost use Rattle.model.specs.Layouts.{place, place_start, place_count, pairs, sum, all_between, own_rules, layout_rules, said_layout, no_layout, fitted_layout};

use crate::places::units_of;
use crate::table::Layout;
use extents::is_sound;
use lists::list::FixedList;
use model::layout::Place;
use model::limits::MOST_UNITS;
use model::refusal::Refusal;

// The bytes of a place, its first block and its number of blocks, 4 bytes each.
const PLACE_BYTES: usize = 8;

// The units that one interface may have.
const MOST_UNITS_EACH: u8 = 4;

// The product bases leave idProduct a bit for each interface.
const PRODUCT_STEP: u16 = 16;

fn place_of(bytes: &[u8; PLACE_BYTES]) -> Place
    ensures { result ≡ place (le32 bytes.now 0) (le32 bytes.now 4) }
{
    let [s0, s1, s2, s3, c0, c1, c2, c3] = *bytes;
    Place {
        start: u32::from_le_bytes([s0, s1, s2, s3]),
        count: u32::from_le_bytes([c0, c1, c2, c3]),
    }
}

// The places that the bytes say; bytes behind the last whole place say nothing.
fn read_places(bytes: &[u8]) -> FixedList<Place, MOST_UNITS>
    requires { length bytes.now / PLACE_BYTES ≤ MOST_UNITS }
    ensures value { result ≡ pairs (length bytes.now / PLACE_BYTES) bytes.now }
    ensures len { length result ≡ length bytes.now / PLACE_BYTES }
{
    let (pairs, _) = bytes.as_chunks::<PLACE_BYTES>();
    let mut places = FixedList::new();
    for pair in pairs {
        places.push(place_of(pair));
    }
    places
}

// Whether there is an interface, and each has a unit, but not too many.
fn are_served(counts: &[u8]) -> bool
    ensures value { result ≡ (nat_lt 0 (length counts.now) && all_between 1 4 counts.now) }
    ensures few { IsTrue result → sum counts.now ≤ 4 * length counts.now }
{
    !counts.is_empty()
        && counts
            .iter()
            .all(|count| (1..=MOST_UNITS_EACH).contains(count))
}

// The layout that the bytes say, where they keep the rules that need no medium.
fn said_layout(bytes: &[u8]) -> Option<Layout>
    ensures { result ≡ (if own_rules bytes.now then Some (said_layout bytes.now) else None) }
{
    let [v0, v1, b0, b1, r0, r1, n, rest @ ..] = bytes else {
        return None;
    };
    let (counts, pairs) = rest.split_at_checked(usize::from(*n))?;
    if !are_served(counts) {
        return None;
    }
    let unit_counts = FixedList::from_slice(counts)?;
    let product_base = u16::from_le_bytes([*b0, *b1]);
    if product_base % PRODUCT_STEP != 0 || pairs.len() != PLACE_BYTES * units_of(counts) {
        return None;
    }
    Some(Layout {
        vendor: u16::from_le_bytes([*v0, *v1]),
        product_base,
        release: u16::from_le_bytes([*r0, *r1]),
        unit_counts,
        places: read_places(pairs),
    })
}

// The layout that the bytes say, or a refusal where they break a rule on a medium of so many blocks.
fn read_layout(bytes: &[u8], blocks: u32) -> Result<Layout, Refusal>
    ensures { result ≡ (if layout_rules bytes.now blocks then Ok (said_layout bytes.now) else Err Refusal.Layout) }
{
    match said_layout(bytes) {
        Some(layout) if is_sound(&layout.places, blocks) => Ok(layout),
        _ => Err(Refusal::Layout),
    }
}

// Inspects layout bytes for a medium of so many blocks.
pub fn inspect(bytes: &[u8], blocks: u32) -> Result<(), Refusal>
    ensures { result ≡ (if layout_rules bytes.now blocks then Ok tt else Err Refusal.Layout) }
{
    read_layout(bytes, blocks).map(|_| ())
}

impl Layout {
    // A stick without interfaces: what layout bytes that break a rule are fitted as.
    fn bare() -> Layout
        ensures { result ≡ no_layout }
    {
        Layout {
            vendor: 0,
            product_base: 0,
            release: 0,
            unit_counts: FixedList::new(),
            places: FixedList::new(),
        }
    }

    // Fits a layout, whatever the bytes: against a rule there is no interface, and zeros.
    pub fn fit(bytes: &[u8], blocks: u32) -> Layout
        ensures layout { result ≡ fitted_layout bytes.now blocks }
        ensures placed { sound place_start place_count 0 blocks result.places ≡ true }
    {
        read_layout(bytes, blocks).unwrap_or_else(|_| Layout::bare())
    }
}
