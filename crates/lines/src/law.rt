// The law of the script's lines, as a contract: an event that is written as a line is read as it was meant.
// The function computes nothing; it is there for the statement that it ensures.
ghost use Rattle.lines.specs.Laws.{EventsReadBack};

pub fn events_read_back()
    ensures { EventsReadBack }
{}
