// Reads a line of the script: a letter, then hexadecimal fields, with blanks between them.
// Every line is blank, an event or a mistake of one named kind.
ghost use Rattle.std.specs.Prelude.{◌≡◌, [], None, Ok, OnOk};
ghost use Rattle.std.specs.Option.{option_map};
ghost use Rattle.events.specs.Happenings.{event_of};
ghost use Rattle.fields.specs.Words.{words};
ghost use Rattle.fields.specs.Readings.{Reads, wants_memory};
ghost use Rattle.lines.specs.Lines.{end_said, optional, control_said, interface_said, bulk_said, milliseconds_said, clock_said, plain_said, event_said, line_said};

use events::Event;
use fields::digits::read_field;
use fields::error::LineError;
use fields::words::first_word;
use std::alloc::Global;

// Where no field may follow.
fn ended(fields: &[u8]) -> Result<(), LineError>
    ensures said { result ≡ end_said (words fields.now) }
    ensures none { OnOk result (words fields.now ≡ []) }
{
    first_word(fields).map_or(Ok(()), |_| Err(LineError::TooManyFields))
}

// The last field of an event that may be left out; it is empty then.
fn optional_field(fields: &[u8]) -> Result<&[u8], LineError>
    ensures { Reads wants_memory (λ x. x.now) result (optional (words fields.now)) }
{
    let Some((field, rest)) = first_word(fields) else {
        return Ok(&[]);
    };
    ended(rest)?;
    Ok(field)
}

// `C setup [data]`
fn read_control(heap: Global, fields: &[u8]) -> Result<Event, LineError>
    ensures { Reads wants_memory event_of result (control_said (words fields.now)) }
{
    let (setup, rest) = first_word(fields).ok_or(LineError::MissingField)?;
    let data = optional_field(rest)?;
    let setup = read_field(heap, setup)?;
    let data = read_field(heap, data)?;
    Ok(Event::Control { setup, data })
}

// The interface, which is one byte.
fn read_interface(heap: Global, field: &[u8]) -> Result<u8, LineError>
    ensures { Reads wants_memory (λ i. i) result (interface_said field.now) }
{
    match read_field(heap, field)?.as_slice() {
        [interface] => Ok(*interface),
        _ => Err(LineError::InterfaceWidth),
    }
}

// `B interface cbw [data]`
fn read_bulk(heap: Global, fields: &[u8]) -> Result<Event, LineError>
    ensures { Reads wants_memory event_of result (bulk_said (words fields.now)) }
{
    let (interface, rest) = first_word(fields).ok_or(LineError::MissingField)?;
    let (cbw, rest) = first_word(rest).ok_or(LineError::MissingField)?;
    let data = optional_field(rest)?;
    let interface = read_interface(heap, interface)?;
    let cbw = read_field(heap, cbw)?;
    let data = read_field(heap, data)?;
    Ok(Event::Bulk {
        interface,
        cbw,
        data,
    })
}

// The clock, which is eight digits, the highest first.
fn read_milliseconds(heap: Global, field: &[u8]) -> Result<u32, LineError>
    ensures { Reads wants_memory (λ n. n) result (milliseconds_said field.now) }
{
    match read_field(heap, field)?.as_slice() {
        [a, b, c, d] => Ok(u32::from_be_bytes([*a, *b, *c, *d])),
        _ => Err(LineError::ClockWidth),
    }
}

// `T dddddddd`
fn read_clock(heap: Global, fields: &[u8]) -> Result<Event, LineError>
    ensures { Reads wants_memory event_of result (clock_said (words fields.now)) }
{
    let (clock, rest) = first_word(fields).ok_or(LineError::MissingField)?;
    ended(rest)?;
    let milliseconds = read_milliseconds(heap, clock)?;
    Ok(Event::Clock { milliseconds })
}

// An event that has no field.
fn read_plain(event: Event, fields: &[u8]) -> Result<Event, LineError>
    ensures { Reads wants_memory event_of result (plain_said (event_of event) (words fields.now)) }
{
    ended(fields)?;
    Ok(event)
}

// The event of a letter, with the fields that follow it.
fn read_event(heap: Global, letter: char, fields: &[u8]) -> Result<Event, LineError>
    ensures { Reads wants_memory event_of result (event_said letter (words fields.now)) }
{
    match letter {
        'C' => read_control(heap, fields),
        'B' => read_bulk(heap, fields),
        'W' => read_plain(Event::Work, fields),
        'T' => read_clock(heap, fields),
        'R' => read_plain(Event::BusReset, fields),
        'S' => read_plain(Event::BusSuspend, fields),
        'U' => read_plain(Event::BusResume, fields),
        'P' => read_plain(Event::PowerCycle, fields),
        _ => Err(LineError::UnknownLetter),
    }
}

// The event that a line says, none where it is blank; its newline is not part of it.
pub fn read_line(heap: Global, line: &[u8]) -> Result<Option<Event>, LineError>
    ensures said { Reads wants_memory (option_map event_of) result (line_said line.now) }
    ensures blank { line_said line.now ≡ Ok None → result ≡ Ok None }
{
    let Some((word, fields)) = first_word(line) else {
        return Ok(None);
    };
    match word {
        [letter] => Ok(Some(read_event(heap, char::from(*letter), fields)?)),
        _ => Err(LineError::UnknownLetter),
    }
}
