// Two sticks side by side, over any two mediums: what is private stays private.
// Nothing is assumed of what came before: the sticks are fitted here, and live through their histories here.
ghost use Rattle.std.specs.Prelude.{map};
ghost use Rattle.privacy.specs.Instances.{Instances};
ghost use Rattle.privacy.specs.Whole.{Private};
ghost use Rattle.stick.specs.Meaning.{stick_of};
ghost use Rattle.trial.specs.Lives.{Life, Secret};
ghost use Rattle.trial.specs.Turns.{event_in, reply_in};

use crate::run::run;
use crate::turn::Turn;
use medium::Medium;
use privacy::{keeps_secrets, premises_met};
use stick::stick::Running;
use stick::stick::power::start;

// Fits a stick, powers it up, and runs it through its history and further events.
fn live<M: Medium>(
    medium: M,
    layout: &[u8],
    history: &mut Vec<Turn>,
    further: &mut Vec<Turn>,
) -> Running<M>
    ensures { Life layout.now (M.meaning medium) (map event_in history.old.items) (map event_in further.old.items) (map reply_in history.new.items) (map reply_in further.new.items) (stick_of M.meaning result) }
{
    let stick = run(start(medium, layout), history);
    run(stick, further)
}

// Two sticks, each fitted, powered up and run through a history of its own, and both through further events: every event gets the reply
// that is defined for it. Where both were handed the same further events and stand alike but for a Locked unit's secret, it shows in no reply
// before the first event in which either accepts a candidate for that unit.
// The lists are lent one by one, since each is written to: behind a struct of lent lists a clause would tell what they hold afterwards as nested
// pairs, by no name, and a struct that owns them would ask callers to give theirs up.
pub fn side_by_side<M: Medium, N: Medium>(
    first: M,
    first_layout: &[u8],
    first_history: &mut Vec<Turn>,
    first_further: &mut Vec<Turn>,
    second: N,
    second_layout: &[u8],
    second_history: &mut Vec<Turn>,
    second_further: &mut Vec<Turn>,
) -> (Running<M>, Running<N>)
    ensures first { Life first_layout.now (M.Medium.meaning «first») (map event_in first_history.old.items) (map event_in first_further.old.items) (map reply_in first_history.new.items) (map reply_in first_further.new.items) (stick_of M.Medium.meaning result.0) }
    ensures second { Life second_layout.now (N.Medium.meaning «second») (map event_in second_history.old.items) (map event_in second_further.old.items) (map reply_in second_history.new.items) (map reply_in second_further.new.items) (stick_of N.Medium.meaning result.1) }
    ensures secret { Secret first_layout.now (M.Medium.meaning «first») (map event_in first_history.old.items) (map event_in first_further.old.items) (map reply_in first_further.new.items) second_layout.now (N.Medium.meaning «second») (map event_in second_history.old.items) (map event_in second_further.old.items) (map reply_in second_further.new.items) }
    ensures private { Private }
    ensures met { Instances }
{
    let one = live(first, first_layout, first_history, first_further);
    let other = live(second, second_layout, second_history, second_further);
    keeps_secrets();
    premises_met();
    (one, other)
}
