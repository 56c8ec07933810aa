// The layout as a fitted stick keeps it: its value is the model's layout.
// Fixed memory holds what it tables, and its invariant bounds that.
ghost use Rattle.std.specs.Prelude.{◌≡◌, ◌%◌, ◌≤◌, length, nat_lt};
ghost use Rattle.model.specs.Bulk.{place_at};
ghost use Rattle.model.specs.Layouts.{sum};

use lists::list::FixedList;
use model::layout::Place;
use model::limits::{MOST_INTERFACES, MOST_UNITS};
use std::marker::Model;

#[derive(Drop)]
pub struct Layout {
    pub(crate) vendor: u16,
    pub(crate) product_base: u16,
    pub(crate) release: u16,
    pub(crate) unit_counts: FixedList<u8, MOST_INTERFACES>,
    pub(crate) places: FixedList<Place, MOST_UNITS>,
}

// What the invariant bounds is said in clauses too: outside this crate a proof sees the value, and not what is behind it.
impl Model for Layout {
    ghost use Rattle.std.specs.Prelude.{◌≡◌, ◌%◌, ◌≤◌, length};
    ghost use Rattle.model.specs.Layouts.{Layout as Tables, layout, sum};

    ghost Value = { Tables };

    ghost view = { λ l. layout l.vendor l.product_base l.release l.unit_counts l.places };

    ghost invariant = { λ l. (l.product_base % 16 ≡ 0) × (length l.places ≡ sum l.unit_counts)
        × (length l.unit_counts ≤ 4) × (length l.places ≤ 16) };
}

impl Layout {
    // idVendor
    pub fn vendor(&self) -> u16
        ensures { result ≡ self.now.vendor }
    {
        self.vendor
    }

    // What idProduct is while no interface is Negotiable.
    pub fn product_base(&self) -> u16
        ensures value { result ≡ self.now.base }
        ensures aligned { result % 16 ≡ 0 }
    {
        self.product_base
    }

    // bcdDevice
    pub fn release(&self) -> u16
        ensures { result ≡ self.now.release }
    {
        self.release
    }

    // Whether there is an interface with this number.
    pub fn has_interface(&self, interface: u8) -> bool
        ensures { result ≡ nat_lt interface (length self.now.counts) }
    {
        self.unit_counts.get(usize::from(interface)).is_some()
    }

    // How many units each interface has.
    pub fn unit_counts(&self) -> &[u8]
        ensures value { result.now ≡ self.now.counts }
        ensures few { length result.now ≤ 4 }
        ensures total { sum result.now ≡ length self.now.places }
        ensures bound { sum result.now ≤ 16 }
    {
        &self.unit_counts
    }

    // The units of all interfaces.
    pub fn unit_count(&self) -> usize
        ensures value { result ≡ length self.now.places }
        ensures total { result ≡ sum self.now.counts }
        ensures few { result ≤ 16 }
    {
        self.places.iter().len()
    }

    // Where a unit lies, by its number in the whole stick; past the last unit there are no blocks.
    pub fn place(&self, unit: usize) -> Place
        ensures { result ≡ place_at self.now unit }
    {
        self.places.get(unit).copied().unwrap_or_default()
    }
}
