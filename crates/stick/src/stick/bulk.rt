// Bulk commands of a running stick.
// A command is weighed before anything is touched; a wrapper that is not in order jams its interface, and nothing else does.
ghost use Rattle.std.specs.Prelude.{◌≡◌, ◌<◌, ◌≤◌, length, IfOk};
ghost use Rattle.model.specs.Bulk.{addressed, bulked, jam, on_interface, wrapped};
ghost use Rattle.model.specs.Control.{find_unit};
ghost use Rattle.model.specs.Wrappers.{cbw_in};
ghost use Rattle.model.specs.declared.refusal.Refusal.TheVariants.{BadWrapper};
ghost use Rattle.stick.specs.Completions.{bulk_of, handed_back, unit_commanded};
ghost use Rattle.stick.specs.Meaning.{stick_of};

use super::Running;
use crate::completion::Completion;
use commands::ended::Target;
use commands::perform::perform;
use medium::Medium;
use model::command::Cbw;
use model::refusal::Refusal;
use model::request::UnitAddress;
use scsi::status::csw;
use scsi::wrapper::read_cbw;

// A call narrows its own three parameters down step by step, so they stay apart. That no more is answered than the buffer holds is a fact
// of two values, which no type of one can say, as in control transfers.
impl<M: Medium> Running<M> {
    // The command for the unit with this number, and the sense that it leaves there.
    fn command(&mut self, index: usize, cbw: Cbw, buffer: &mut [u8]) -> Result<Completion, Refusal>
        requires { index < length self.old.layout.places }
        ensures bulk { bulk_of result buffer.new (stick_of M.meaning self.new) ≡ handed_back buffer.old (unit_commanded self.old.layout index cbw buffer.old (stick_of M.meaning self.old)) }
        ensures layout { self.new.layout ≡ self.old.layout }
        ensures bound { IfOk result (λ c. c.answered ≤ length buffer.new) }
    {
        let target = Target {
            place: self.layout.place(index),
            closed: self.units.barrier(index),
            sense: self.units.sense(index),
        };
        let ended = perform(&mut self.medium, target, cbw, buffer)?;
        self.units.set_sense(index, ended.sense);
        let residue = cbw.total.saturating_sub(ended.moved);
        Ok(Completion {
            csw: csw(cbw.tag, residue, ended.status),
            answered: ended.answered,
        })
    }

    // Jams the interface of a wrapper that is not in order, and gives the refusal.
    fn jam(&mut self, interface: u8) -> Refusal
        ensures refusal { result ≡ BadWrapper }
        ensures stick { stick_of M.meaning self.new ≡ (jam interface (stick_of M.meaning self.old)).next }
        ensures layout { self.new.layout ≡ self.old.layout }
    {
        self.interfaces.jam(interface);
        Refusal::BadWrapper
    }

    // A wrapper that is in order, by the unit that it names. An absent unit makes it one that is not.
    fn address(&mut self, interface: u8, cbw: Cbw, buffer: &mut [u8]) -> Result<Completion, Refusal>
        ensures bulk { bulk_of result buffer.new (stick_of M.meaning self.new) ≡ handed_back buffer.old (addressed self.old.layout interface (find_unit self.old.layout interface cbw.unit) cbw buffer.old (stick_of M.meaning self.old)) }
        ensures layout { self.new.layout ≡ self.old.layout }
        ensures bound { IfOk result (λ c. c.answered ≤ length buffer.new) }
    {
        let address = UnitAddress {
            interface,
            unit: cbw.unit,
        };
        match self.layout.find_unit(address) {
            Some(index) => self.command(index, cbw, buffer),
            None => Err(self.jam(interface)),
        }
    }

    // The wrapper for an interface that there is and that is not jammed.
    fn open_wrapper(
        &mut self,
        interface: u8,
        cbw: &[u8],
        buffer: &mut [u8],
    ) -> Result<Completion, Refusal>
        ensures bulk { bulk_of result buffer.new (stick_of M.meaning self.new) ≡ handed_back buffer.old (wrapped self.old.layout interface (cbw_in cbw.now) buffer.old (stick_of M.meaning self.old)) }
        ensures layout { self.new.layout ≡ self.old.layout }
        ensures bound { IfOk result (λ c. c.answered ≤ length buffer.new) }
    {
        match read_cbw(cbw) {
            Ok(cbw) => self.address(interface, cbw, buffer),
            Err(_) => Err(self.jam(interface)),
        }
    }

    // A command of a stick that is present.
    fn reach(&mut self, interface: u8, cbw: &[u8], buffer: &mut [u8]) -> Result<Completion, Refusal>
        ensures bulk { bulk_of result buffer.new (stick_of M.meaning self.new) ≡ handed_back buffer.old (on_interface self.old.layout interface cbw.now buffer.old (stick_of M.meaning self.old)) }
        ensures layout { self.new.layout ≡ self.old.layout }
        ensures bound { IfOk result (λ c. c.answered ≤ length buffer.new) }
    {
        if !self.layout.has_interface(interface) {
            return Err(Refusal::Absent);
        }
        if self.interfaces.is_jammed(interface) {
            return Err(Refusal::Jammed);
        }
        self.open_wrapper(interface, cbw, buffer)
    }

    // A bulk command with an interface number, a CBW and a data buffer: the CSW, and how many bytes are answered at the buffer's front.
    pub fn bulk(
        &mut self,
        interface: u8,
        cbw: &[u8],
        buffer: &mut [u8],
    ) -> Result<Completion, Refusal>
        ensures bulk { bulk_of result buffer.new (stick_of M.meaning self.new) ≡ bulked self.old.layout interface cbw.now buffer.old (stick_of M.meaning self.old) }
        ensures layout { self.new.layout ≡ self.old.layout }
        ensures bound { IfOk result (λ c. c.answered ≤ length buffer.new) }
    {
        self.presence()?;
        self.reach(interface, cbw, buffer)
    }
}
