// The clock and the bus of a running stick.
// An interface change takes its time by clock calls: the stick idles, is gone, and then presents the target.
ghost use Rattle.std.specs.Prelude.{◌≡◌};
ghost use Rattle.model.specs.Presence.{bus_reset, gone_on, passed, presenting};
ghost use Rattle.stick.specs.Meaning.{stick_of};

use super::Running;
use medium::Medium;
use model::ids::{Ids, Phase};

impl<M: Medium> Running<M> {
    // The interface presents the target, and nothing is told any more of the time before.
    fn present(&mut self, interface: u8, target: Ids)
        ensures stick { stick_of M.meaning self.new ≡ presenting interface target (stick_of M.meaning self.old) }
        ensures layout { self.new.layout ≡ self.old.layout }
    {
        self.units.present();
        self.interfaces.unjam();
        self.interfaces.present(interface, target);
        self.phase = Phase::Present;
    }

    // Time passes while the stick is gone.
    fn stay_gone(&mut self, milliseconds: u32, interface: u8, target: Ids, gone_ms: u32)
        ensures stick { stick_of M.meaning self.new ≡ gone_on milliseconds interface target gone_ms (stick_of M.meaning self.old) }
        ensures layout { self.new.layout ≡ self.old.layout }
    {
        if gone_ms <= milliseconds {
            self.present(interface, target);
        } else {
            self.phase = Phase::Gone {
                interface,
                target,
                gone_ms: gone_ms - milliseconds,
            };
        }
    }

    // A clock call: a phase ends when nothing of it is left, and what is over is lost.
    pub fn clock(&mut self, milliseconds: u32)
        ensures stick { stick_of M.meaning self.new ≡ passed milliseconds (stick_of M.meaning self.old).phase (stick_of M.meaning self.old) }
        ensures layout { self.new.layout ≡ self.old.layout }
    {
        match self.phase {
            Phase::Present => {}
            Phase::Idle {
                interface,
                target,
                idle_ms,
                gone_ms,
            } => {
                if idle_ms <= milliseconds {
                    self.stay_gone(milliseconds - idle_ms, interface, target, gone_ms);
                } else {
                    self.phase = Phase::Idle {
                        interface,
                        target,
                        idle_ms: idle_ms - milliseconds,
                        gone_ms,
                    };
                }
            }
            Phase::Gone {
                interface,
                target,
                gone_ms,
            } => self.stay_gone(milliseconds, interface, target, gone_ms),
        }
    }

    // A bus reset clears every jam, and nothing else.
    pub fn bus_reset(&mut self)
        ensures stick { stick_of M.meaning self.new ≡ bus_reset (stick_of M.meaning self.old) }
        ensures layout { self.new.layout ≡ self.old.layout }
    {
        self.interfaces.unjam(); // an interface change goes on
    }

    // A suspended bus changes nothing of the stick.
    pub fn bus_suspend(&mut self)
        ensures stick { stick_of M.meaning self.new ≡ stick_of M.meaning self.old }
        ensures layout { self.new.layout ≡ self.old.layout }
    {
        // no unit locks, and an interface change goes on: the clock alone moves it
    }

    // Nor does a bus that resumes.
    pub fn bus_resume(&mut self)
        ensures stick { stick_of M.meaning self.new ≡ stick_of M.meaning self.old }
        ensures layout { self.new.layout ≡ self.old.layout }
    {
        // there is nothing to take up again
    }
}
