// The judgement of a setup by its bytes alone agrees with what a control transfer refuses.
// Of the refusals only 7 and 9 play a part: all others need more than the bytes of a setup.
ghost use Rattle.laws.specs.Agreement.{JudgementAgrees};

pub fn judgement_agrees()
    ensures { JudgementAgrees }
{}
