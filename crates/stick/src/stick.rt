// A stick over any medium, without power and running.
// The two are types of their own, and each becomes the other: power-up takes one and yields the other, power-down takes it back.
ghost use Rattle.std.specs.Prelude.{◌≡◌, length};

mod bulk;
mod changes;
mod clock;
mod control;
pub mod power;
mod readings;
mod stage;
mod work;

use interfaces::table::Interfaces;
use layout::table::Layout;
use medium::Medium;
use model::ids::Phase;
use units::rows::Rows;

#[derive(Drop)]
pub struct Unpowered<M: Medium> {
    layout: Layout,
    units: Rows,
    medium: M,
}

// No call changes the layout, and each says so: that a call leaves a field is a fact of two values, which no type of one can say.
#[derive(Drop)]
pub struct Running<M: Medium> {
    layout: Layout,
    units: Rows,
    interfaces: Interfaces,
    phase: Phase,
    medium: M,
    ghost paired: { length interfaces ≡ length layout.counts },
}
