// How the interfaces change while power is on: they jam, jams are cleared, and one interface presents other IDs.
// A change of an interface that the stick has not changes nothing.
ghost use Rattle.std.specs.Prelude.{◌≡◌, false, length, map};
ghost use Rattle.std.specs.Fn.{FnOnceReturnsAtMut};
ghost use Rattle.model.specs.Bulk.{jammed};
ghost use Rattle.model.specs.Control.{alter, unjammed};
ghost use Rattle.model.specs.Sticks.{interface as interface_with};
ghost use Rattle.model.specs.declared.ids.Interface.{Interface};

use crate::table::Interfaces;
use lists::list::FixedList;
use model::ids::{Ids, Interface};

// How many there are is said beside each list: the stick's invariant has as many as the layout.
impl Interfaces {
    // Changes one interface; the others stay.
    fn alter<F: FnOnce(&mut Interface)>(&mut self, interface: u8, change: F)
        requires { F.IsAlwaysCallable change }
        ensures list { (f : Interface → Interface) → ((x y : Interface) → FnOnceReturnsAtMut F.FnOnce change x tt y → y ≡ f x) → self.new ≡ alter interface f self.old }
        ensures count { length self.new ≡ length self.old }
    {
        let at = usize::from(interface);
        if let Some(mut presented) = self.list.get(at).copied() {
            change(&mut presented);
            self.list.set(at, presented);
        }
    }

    // Jams one interface.
    pub fn jam(&mut self, interface: u8)
        ensures list { self.new ≡ alter interface jammed self.old }
        ensures count { length self.new ≡ length self.old }
    {
        self.alter(interface, |presented| presented.jammed = true);
    }

    // Clears the jam of one interface.
    pub fn clear_jam(&mut self, interface: u8)
        ensures list { self.new ≡ alter interface unjammed self.old }
        ensures count { length self.new ≡ length self.old }
    {
        self.alter(interface, |presented| presented.jammed = false);
    }

    // Clears every jam.
    pub fn unjam(&mut self)
        ensures list { self.new ≡ map unjammed self.old }
        ensures count { length self.new ≡ length self.old }
    {
        let mut cleared = FixedList::new();
        for interface in self.list.iter() {
            let mut unjammed = *interface;
            unjammed.jammed = false;
            cleared.push(unjammed);
        }
        self.list = cleared;
    }

    // One interface presents the target, with no jam; the others stay.
    pub fn present(&mut self, interface: u8, target: Ids)
        ensures list { self.new ≡ alter interface (λ x. interface_with target false) self.old }
        ensures count { length self.new ≡ length self.old }
    {
        self.alter(interface, |presented| {
            *presented = Interface {
                ids: target,
                jammed: false,
            };
        });
    }
}
