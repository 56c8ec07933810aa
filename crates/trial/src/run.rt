// Events performed on a running stick, one and a list.
// What an event is answered and leaves is the model's step, and a list is that step again and again.
ghost use Rattle.std.specs.Prelude.{◌≡◌, ℕ, ◌≤◌, List, map, length, IfOk};
ghost use Rattle.events.specs.Happenings.{buffer_of, event_of, unhanded};
ghost use Rattle.model.specs.Events.{after_bulk, after_control, replies, run as run_on, step, stepped};
ghost use Rattle.model.specs.Sticks.{Stick};
ghost use Rattle.stick.specs.Completions.{bulk_of};
ghost use Rattle.stick.specs.Meaning.{stick_of};
ghost use Rattle.stick.specs.Outcomes.{transfer_of};
ghost use Rattle.trial.specs.Turns.{count_of, event_in, reply_in, reply_of};

use crate::turn::{Done, NOTHING, Reply, Turn};
use events::Event;
use medium::Medium;
use model::refusal::Refusal;
use stick::completion::Completion;
use stick::stick::Running;

// Two functions, not one over both answers: each is said in its own call's words, and no word is common to them.
fn control_reply(res: Result<usize, Refusal>) -> Reply
    ensures step { (buf : List ℕ) (s : Stick) → stepped (reply_of result buf) s ≡ after_control (transfer_of res buf s) }
    ensures bound { (k : ℕ) → IfOk res (λ n. n ≤ k) → count_of result ≤ k }
{
    res.map(Done::from)
}

fn bulk_reply(res: Result<Completion, Refusal>) -> Reply
    ensures step { (buf : List ℕ) (s : Stick) → stepped (reply_of result buf) s ≡ after_bulk (bulk_of res buf s) }
    ensures bound { (k : ℕ) → IfOk res (λ c. c.answered ≤ k) → count_of result ≤ k }
{
    res.map(Done::from)
}

// Performs an event on a stick where it stands; its buffer holds afterwards what the stick left in it, and nothing else of it is changed.
// What stays of an event or a list is said in each clause `kept`: it is a fact of two values, which no type of one can say.
pub fn perform_on<M: Medium>(stick: &mut Running<M>, event: &mut Event) -> Reply
    ensures bound { count_of result ≤ length (buffer_of event.new) }
    ensures kept { unhanded (event_of event.new) ≡ unhanded (event_of event.old) }
    ensures step { stepped (reply_of result (buffer_of event.new)) (stick_of M.meaning stick.new) ≡ step stick.old.layout (stick_of M.meaning stick.old) (event_of event.old) }
    ensures layout { stick.new.layout ≡ stick.old.layout }
{
    match event {
        Event::Control { setup, data } => {
            let result = stick.control(setup.as_slice(), data.as_mut_slice());
            control_reply(result)
        }
        Event::Bulk {
            interface,
            cbw,
            data,
        } => {
            let result = stick.bulk(*interface, cbw.as_slice(), data.as_mut_slice());
            bulk_reply(result)
        }
        Event::Work => {
            stick.work();
            NOTHING
        }
        Event::Clock { milliseconds } => {
            stick.clock(*milliseconds);
            NOTHING
        }
        Event::BusReset => {
            stick.bus_reset();
            NOTHING
        }
        Event::BusSuspend => {
            stick.bus_suspend();
            NOTHING
        }
        Event::BusResume => {
            stick.bus_resume();
            NOTHING
        }
        Event::PowerCycle => {
            stick.cycle_power();
            NOTHING
        }
    }
}

// The same for a stick that is handed over, and handed back.
pub fn perform<M: Medium>(mut stick: Running<M>, event: &mut Event) -> (Running<M>, Reply)
    ensures bound { count_of result.1 ≤ length (buffer_of event.new) }
    ensures kept { unhanded (event_of event.new) ≡ unhanded (event_of event.old) }
    ensures step { stepped (reply_of result.1 (buffer_of event.new)) (stick_of M.meaning result.0) ≡ step stick.layout (stick_of M.meaning stick) (event_of event.old) }
    ensures layout { result.0.layout ≡ stick.layout }
{
    let reply = perform_on(&mut stick, event);
    (stick, reply)
}

// Performs the event of a turn on a stick where it stands, and keeps the reply beside the event.
pub fn take_turn_on<M: Medium>(stick: &mut Running<M>, turn: &mut Turn)
    ensures kept { unhanded (event_in turn.new) ≡ unhanded (event_in turn.old) }
    ensures step { stepped (reply_in turn.new) (stick_of M.meaning stick.new) ≡ step stick.old.layout (stick_of M.meaning stick.old) (event_in turn.old) }
    ensures layout { stick.new.layout ≡ stick.old.layout }
{
    turn.reply = perform_on(stick, &mut turn.event);
}

// The same for a stick that is handed over, and handed back.
pub fn take_turn<M: Medium>(stick: Running<M>, turn: &mut Turn) -> Running<M>
    ensures kept { unhanded (event_in turn.new) ≡ unhanded (event_in turn.old) }
    ensures step { stepped (reply_in turn.new) (stick_of M.meaning result) ≡ step stick.layout (stick_of M.meaning stick) (event_in turn.old) }
    ensures layout { result.layout ≡ stick.layout }
{
    let (next, reply) = perform(stick, &mut turn.event);
    turn.reply = reply;
    next
}

// Runs a list of events, oldest first: each turn has its reply afterwards.
pub fn run<M: Medium>(mut stick: Running<M>, turns: &mut Vec<Turn>) -> Running<M>
    ensures kept { map unhanded (map event_in turns.new.items) ≡ map unhanded (map event_in turns.old.items) }
    ensures end { stick_of M.meaning result ≡ run_on stick.layout (stick_of M.meaning stick) (map event_in turns.old.items) }
    ensures replies { map reply_in turns.new.items ≡ replies stick.layout (stick_of M.meaning stick) (map event_in turns.old.items) }
    ensures layout { result.layout ≡ stick.layout }
{
    for turn in turns.iter_mut() {
        take_turn_on(&mut stick, turn);
    }
    stick
}
