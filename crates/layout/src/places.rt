// Units in the whole stick: numbered through, interface 0 first.
// By its address a unit is found, and by a block of the medium the unit that holds it.
ghost use Rattle.std.specs.Prelude.{◌≡◌, ◌<◌, ◌≤◌, length, IfSome};
ghost use Rattle.model.specs.Extents.{found, Finds};
ghost use Rattle.model.specs.Control.{find_unit};
ghost use Rattle.model.specs.Layouts.{place_start, place_count, sum};
ghost use Rattle.layout.specs.Ranges.{range_of};

use crate::table::Layout;
use extents::find;
use model::request::UnitAddress;
use std::ops::Range;

// The units of interfaces with these counts.
pub(crate) fn units_of(counts: &[u8]) -> usize
    requires { length counts.now ≤ 4 }
    ensures { result ≡ sum counts.now }
{
    counts.iter().map(|count| usize::from(*count)).sum()
}

impl Layout {
    // The unit that holds a block, by its number in the whole stick, or none.
    pub fn unit_holding(&self, block: u32) -> Option<usize>
        ensures value { result ≡ found place_start place_count 0 block self.now.places }
        ensures finds { Finds place_start place_count block self.now.places result }
    {
        find(&self.places, block)
    }

    // The number in the whole stick of the unit at this address, if there is one.
    pub fn find_unit(&self, address: UnitAddress) -> Option<usize>
        ensures value { result ≡ find_unit self.now address.interface address.unit }
        ensures bound { IfSome result (λ v. (v < length self.now.places) × (address.interface < length self.now.counts)) }
        ensures few { IfSome result (λ v. v < 16) }
    {
        let units = self.unit_range(address.interface)?;
        let number = units.start + usize::from(address.unit);
        (number < units.end).then_some(number)
    }

    // The numbers of an interface's units in the whole stick.
    pub fn unit_range(&self, interface: u8) -> Option<Range<usize>>
        ensures value { result ≡ range_of self.now interface }
        ensures bound { IfSome result (λ r. (r.end ≤ length self.now.places) × (r.start ≤ r.end)) }
        ensures few { IfSome result (λ r. r.end ≤ 16) }
    {
        let (before, rest) = self.unit_counts().split_at_checked(usize::from(interface))?;
        let count = rest.first()?;
        let start = units_of(before);
        Some(start..start + usize::from(*count))
    }
}
