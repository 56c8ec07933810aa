// What control transfers change of a running stick: a unit's record, an interface's jam, or the identity to come.
// Each asks first whether the interface or unit is there, then for the length, and then for what arrived.
ghost use Rattle.std.specs.Prelude.{◌≡◌, length};
ghost use Rattle.model.specs.Control.{access_sized, clear_jam, find_unit, interface_at, put as put_request, put_to_unit, sized, with_interface};
ghost use Rattle.model.specs.Identities.{is_negotiable};
ghost use Rattle.model.specs.Sticks.{units_of_interface};
ghost use Rattle.model.specs.Units.{any_locked};
ghost use Rattle.stick.specs.Meaning.{stick_of};
ghost use Rattle.stick.specs.Outcomes.{done_of};

use super::Running;
use super::stage::DataStage;
use formats::access::{ACCESS_BYTES, read_access};
use medium::Medium;
use model::ids::Phase;
use model::refusal::Refusal;
use model::request::{Put, UnitAddress};

impl<M: Medium> Running<M> {
    // Clears the jam of one interface. Nothing may arrive with it.
    pub(super) fn clear_jam(&mut self, interface: u8, stage: DataStage<'_>) -> Result<(), Refusal>
        ensures outcome { done_of result (stick_of M.meaning self.new) ≡ with_interface self.old.layout interface (stick_of M.meaning self.old) (clear_jam interface stage.entry.length (length stage.entry.data.now) (stick_of M.meaning self.old)) }
        ensures layout { self.new.layout ≡ self.old.layout }
    {
        if !self.layout.has_interface(interface) {
            return Err(Refusal::Absent);
        }
        if stage.length != 0 || !stage.data.is_empty() {
            return Err(Refusal::WrongLength);
        }
        self.interfaces.clear_jam(interface);
        Ok(())
    }

    // Whether a unit of an interface is Locked.
    fn is_any_locked(&self, interface: u8) -> bool
        ensures { result ≡ any_locked (units_of_interface self.now.layout interface (stick_of M.meaning self.now).units) }
    {
        self.layout
            .unit_range(interface)
            .is_some_and(|units| self.units.is_any_locked(units))
    }

    // Begins an interface change.
    fn change_access(&mut self, interface: u8, stage: DataStage<'_>) -> Result<(), Refusal>
        ensures outcome { done_of result (stick_of M.meaning self.new) ≡ with_interface self.old.layout interface (stick_of M.meaning self.old) (access_sized self.old.layout interface stage.entry.length stage.entry.data.now (stick_of M.meaning self.old)) }
        ensures layout { self.new.layout ≡ self.old.layout }
    {
        if !self.layout.has_interface(interface) {
            return Err(Refusal::Absent);
        }
        if usize::from(stage.length) != ACCESS_BYTES || stage.data.len() != ACCESS_BYTES {
            return Err(Refusal::WrongLength);
        }
        let access = read_access(stage.data)?;
        if !access.target.is_negotiable() && self.is_any_locked(interface) {
            return Err(Refusal::WrongState);
        }
        self.phase = Phase::Idle {
            interface,
            target: access.target,
            idle_ms: access.idle_ms,
            gone_ms: access.gone_ms,
        };
        Ok(())
    }

    // A Put to a unit.
    fn put_to_unit(
        &mut self,
        put: Put,
        address: UnitAddress,
        stage: DataStage<'_>,
    ) -> Result<(), Refusal>
        ensures outcome { done_of result (stick_of M.meaning self.new) ≡ put_to_unit (find_unit self.old.layout address.interface address.unit) (is_negotiable (interface_at address.interface (stick_of M.meaning self.old)).ids) (sized put stage.entry.length stage.entry.data.now) (stick_of M.meaning self.old) }
        ensures layout { self.new.layout ≡ self.old.layout }
    {
        let index = self.layout.find_unit(address).ok_or(Refusal::Absent)?;
        let negotiable = self.interfaces.ids(address.interface).is_negotiable();
        self.units.put_to(index, stage.unit_put(put), negotiable)
    }

    // A Put, to a unit or to an interface.
    pub(super) fn put(
        &mut self,
        put: Put,
        address: UnitAddress,
        stage: DataStage<'_>,
    ) -> Result<(), Refusal>
        ensures outcome { done_of result (stick_of M.meaning self.new) ≡ put_request self.old.layout put address.interface address.unit stage.entry.length stage.entry.data.now (stick_of M.meaning self.old) }
        ensures layout { self.new.layout ≡ self.old.layout }
    {
        match put {
            Put::ChangeInterfaceAccess => self.change_access(address.interface, stage),
            _ => self.put_to_unit(put, address, stage),
        }
    }
}
