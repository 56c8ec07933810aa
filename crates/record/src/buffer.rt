// The buffer that is handed over with an event.
// Where data go to the host there is room for an answer; in every other transfer the data arrive.
ghost use Rattle.std.specs.Prelude.{◌≡◌, true, false, Ok, replicate, IfOk};
ghost use Rattle.model.specs.Requests.{is_reading};
ghost use Rattle.events.specs.Happenings.{event_of};
ghost use Rattle.record.specs.Buffers.{answer_room, says_in, handed_event};

use events::Event;
use formats::setup::is_reading;
use model::command::Direction;
use std::alloc::{AllocError, Global};

const ROOM: usize = 1024;

// Where the flags of a CBW stand.
const FLAGS: usize = 12;

// Zeros to be filled with an answer.
fn zeros(heap: Global) -> Result<Vec<u8>, AllocError>
    ensures { IfOk result (λ v. v.items ≡ answer_room) }
{
    vec![in heap; 0; ROOM]
}

// Whether a CBW, in order or not, says that data go to the host.
fn says_in(cbw: &[u8]) -> bool
    ensures { result ≡ says_in cbw.now }
{
    cbw.get(FLAGS)
        .is_some_and(|flags| Direction::try_from(*flags) == Ok(Direction::In))
}

// Zeros to be filled with an answer, else the data themselves.
fn buffer_for(heap: Global, answered: bool, data: Vec<u8>) -> Result<Vec<u8>, AllocError>
    ensures zeros { answered ≡ true → IfOk result (λ v. v.items ≡ answer_room) }
    ensures kept { answered ≡ false → result ≡ Ok «data» }
{
    if answered { zeros(heap) } else { Ok(data) }
}

// The buffer of a control transfer: zeros to be filled by a reading, else the data themselves.
pub fn handed_buffer(heap: Global, setup: &[u8], data: Vec<u8>) -> Result<Vec<u8>, AllocError>
    ensures zeros { is_reading setup.now ≡ true → IfOk result (λ v. v.items ≡ replicate 1024 0) }
    ensures kept { is_reading setup.now ≡ false → result ≡ Ok «data» }
{
    buffer_for(heap, is_reading(setup), data)
}

// The event with the buffer that it is handed.
pub fn handed(heap: Global, event: Event) -> Result<Event, AllocError>
    ensures { IfOk result (λ e. event_of e ≡ handed_event (event_of event)) }
{
    match event {
        Event::Control { setup, data } => {
            let data = handed_buffer(heap, setup.as_slice(), data)?;
            Ok(Event::Control { setup, data })
        }
        Event::Bulk {
            interface,
            cbw,
            data,
        } => {
            let data = buffer_for(heap, says_in(cbw.as_slice()), data)?;
            Ok(Event::Bulk {
                interface,
                cbw,
                data,
            })
        }
        other => Ok(other),
    }
}
