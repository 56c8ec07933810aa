// Worked examples of the definitions, as one statement for single transfers and one for all kinds of event.
// Each starts from bytes and tells what they give, so that a reader can hold the definitions against cases.
ghost use Rattle.laws.specs.EventExamples.{EventExamples};
ghost use Rattle.laws.specs.Examples.{Examples};

pub fn examples_hold()
    ensures { Examples }
{}

pub fn event_examples_hold()
    ensures { EventExamples }
{}
