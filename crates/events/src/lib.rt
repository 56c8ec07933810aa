// What can happen to a running stick.
// The bytes are the event's own, so that an answer can be stored in them.
#![tactic(auto)]

ghost use Rattle.std.specs.Prelude.{◌≡◌};

#[derive(Drop)]
pub enum Event {
    // a control transfer: its setup bytes, and the data that arrive with it
    Control {
        setup: Vec<u8>,
        data: Vec<u8>,
    },
    // a command block wrapper to an interface, and the data that arrive with it
    Bulk {
        interface: u8,
        cbw: Vec<u8>,
        data: Vec<u8>,
    },
    // a step of the work that the stick does by itself
    Work,
    // so many milliseconds go by
    Clock {
        milliseconds: u32,
    },
    BusReset,
    BusSuspend,
    BusResume,
    PowerCycle,
}

impl Event {
    ghost use Rattle.events.specs.Happenings.{buffer_of};

    // The buffer that the event hands, as it stands; one that hands none has no bytes.
    pub fn buffer(&self) -> &[u8]
        ensures { result.now ≡ buffer_of self.now }
    {
        match self {
            Event::Control { data, .. } | Event::Bulk { data, .. } => data.as_slice(),
            _ => &[],
        }
    }
}
