// Power: what a stick is when power comes, and what is left when it goes.
// Layout, units' records and medium stay; interfaces are made anew, and an interface change is dropped.
ghost use Rattle.std.specs.Prelude.{◌≡◌, map, length, if◌then◌else◌};
ghost use Rattle.std.specs.List.{range_with_len};
ghost use Rattle.model.specs.Layouts.{fitted_layout};
ghost use Rattle.model.specs.Sticks.{interface_up, powered_up, repowered, fitted_units, first};
ghost use Rattle.model.specs.declared.ids.Ids.TheVariants.{Negotiable, ScsiBbb};
ghost use Rattle.stick.specs.Meaning.{units_in, stick_of};

use super::{Running, Unpowered};
use interfaces::table::Interfaces;
use layout::table::Layout;
use medium::Medium;
use model::ids::{Ids, Interface, Phase};
use units::rows::Rows;

// The identity at power-up: Negotiable exactly if one of an interface's units holds a passphrase.
fn ids_up(is_personal: bool) -> Ids
    ensures { result ≡ (if is_personal then Negotiable else ScsiBbb) }
{
    if is_personal {
        Ids::Negotiable
    } else {
        Ids::ScsiBbb
    }
}

// The interfaces at power-up. Units are numbered through, interface 0 first: the sum goes along, where a chain over the layout's ranges would
// sum up anew for each interface.
fn interfaces_up(layout: &Layout, units: &Rows) -> Interfaces
    ensures list { result ≡ map (interface_up layout.now (units_in layout.now units.now)) (range_with_len 0 (length layout.now.counts)) }
    ensures count { length result ≡ length layout.now.counts }
{
    let mut interfaces = Interfaces::new();
    let mut first = 0;
    for count in layout.unit_counts() {
        let end = first + usize::from(*count);
        interfaces.push(Interface {
            ids: ids_up(units.is_any_personal(first..end)),
            jammed: false,
        });
        first = end;
    }
    interfaces
}

impl<M: Medium> Unpowered<M> {
    // Fits a stick to a medium by layout bytes, whatever they are: against a rule it has no interface. Its units are new.
    pub fn fit(medium: M, layout_bytes: &[u8]) -> Unpowered<M>
        ensures layout { result.layout ≡ fitted_layout layout_bytes.now (length (M.meaning medium)) }
        ensures units { units_in result.layout result.units ≡ fitted_units (fitted_layout layout_bytes.now (length (M.meaning medium))) }
        ensures medium { M.meaning result.medium ≡ M.meaning medium }
        ensures same { result.medium ≡ «medium» }
    {
        let end = medium.blocks();
        let layout = Layout::fit(layout_bytes, end);
        Unpowered {
            layout,
            units: Rows::new(),
            medium,
        }
    }

    // Power-up: no interface change is under way, units that hold a passphrase are Locked, flags, sense and jams are cleared.
    pub fn power_up(self) -> Running<M>
        ensures stick { stick_of M.meaning result ≡ powered_up self.layout (units_in self.layout self.units) (M.meaning self.medium) }
        ensures layout { result.layout ≡ self.layout }
        ensures same { result.medium ≡ self.medium }
    {
        let Unpowered {
            layout,
            mut units,
            medium,
        } = self;
        let interfaces = interfaces_up(&layout, &units);
        units.power_up();
        Running {
            layout,
            units,
            interfaces,
            phase: Phase::Present,
            medium,
        }
    }
}

impl<M: Medium> Running<M> {
    // Power-down keeps the layout, the units' records and the medium, and nothing else.
    pub fn power_down(self) -> Unpowered<M>
        ensures layout { result.layout ≡ self.layout }
        ensures units { units_in result.layout result.units ≡ (stick_of M.meaning self).units }
        ensures medium { M.meaning result.medium ≡ (stick_of M.meaning self).blocks }
        ensures same { result.medium ≡ self.medium }
    {
        let Running {
            layout,
            units,
            interfaces: _,
            phase: _,
            medium,
        } = self;
        Unpowered {
            layout,
            units,
            medium,
        }
    }

    // A power cycle: power-down and the next power-up together.
    pub fn power_cycle(self) -> Running<M>
        ensures stick { stick_of M.meaning result ≡ repowered self.layout (stick_of M.meaning self) }
        ensures layout { result.layout ≡ self.layout }
        ensures same { result.medium ≡ self.medium }
    {
        self.power_down().power_up()
    }

    // The same for a stick that stays where it is, so that it need not be moved.
    pub fn cycle_power(&mut self)
        ensures stick { stick_of M.meaning self.new ≡ repowered self.old.layout (stick_of M.meaning self.old) }
        ensures layout { self.new.layout ≡ self.old.layout }
        ensures same { self.new.medium ≡ self.old.medium }
    {
        self.interfaces = interfaces_up(&self.layout, &self.units);
        self.units.power_up();
        self.phase = Phase::Present;
    }
}

// Fits a stick and powers it up for the first time.
pub fn start<M: Medium>(medium: M, layout_bytes: &[u8]) -> Running<M>
    ensures stick { stick_of M.meaning result ≡ first (fitted_layout layout_bytes.now (length (M.meaning medium))) (M.meaning medium) }
    ensures layout { result.layout ≡ fitted_layout layout_bytes.now (length (M.meaning medium)) }
    ensures same { result.medium ≡ «medium» }
{
    Unpowered::fit(medium, layout_bytes).power_up()
}
