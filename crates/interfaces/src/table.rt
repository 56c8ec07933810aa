// The interfaces of a stick: their value is the list of those that the layout has.
// In fixed memory, which has room for as many as a layout may have.
ghost use Rattle.std.specs.Prelude.{◌≡◌, [], ◌∷◌, ◌++◌, false, take, slice_index_or};
ghost use Rattle.model.specs.Sticks.{interface as interface_with};
ghost use Rattle.model.specs.declared.ids.Ids.TheVariants.{ScsiBbb};

use lists::list::FixedList;
use model::ids::{Ids, Interface};
use model::limits::MOST_INTERFACES;
use std::marker::Model;

// A type of its own around the list: what is read of an interface that there is not stands here.
#[derive(Drop)]
pub struct Interfaces {
    pub(crate) list: FixedList<Interface, MOST_INTERFACES>,
}

impl Model for Interfaces {
    ghost use Rattle.std.specs.Prelude.{List};
    ghost use Rattle.model.specs.declared.ids.Interface.{Interface};

    ghost Value = { List Interface };

    ghost view = { λ t. t.list };
}

impl Interfaces {
    // No interface.
    pub fn new() -> Interfaces
        ensures { result ≡ [] }
    {
        Interfaces {
            list: FixedList::new(),
        }
    }

    // One interface more, behind the others, of no more than a stick may have.
    pub fn push(&mut self, interface: Interface)
        ensures { self.new ≡ take 4 (self.old ++ interface ∷ []) }
    {
        self.list.push(interface);
    }

    // What an interface presents; one that the stick has not is told as a new one.
    pub fn ids(&self, interface: u8) -> Ids
        ensures { result ≡ (slice_index_or self.now interface (interface_with ScsiBbb false)).ids }
    {
        self.list
            .get(usize::from(interface))
            .map_or(Ids::ScsiBbb, |presented| presented.ids)
    }

    // Whether an interface is jammed.
    pub fn is_jammed(&self, interface: u8) -> bool
        ensures { result ≡ (slice_index_or self.now interface (interface_with ScsiBbb false)).jammed }
    {
        self.list
            .get(usize::from(interface))
            .is_some_and(|presented| presented.jammed)
    }
}
