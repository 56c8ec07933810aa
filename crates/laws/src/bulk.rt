// What holds of every bulk command, whatever the stick and whatever arrives.
// The laws speak of the definitions alone: the contract of `Running::bulk` ties the code to them.
ghost use Rattle.laws.specs.BulkLaws.{CbwJudgementAgrees, TagEchoed, WrittenIsRead, FailedBeforeData, PhaseErrorKeeps};

pub fn cbw_judgement_agrees()
    ensures { CbwJudgementAgrees }
{}

pub fn tag_echoed()
    ensures { TagEchoed }
{}

pub fn written_is_read()
    ensures { WrittenIsRead }
{}

pub fn failed_before_data()
    ensures { FailedBeforeData }
{}

pub fn phase_error_keeps()
    ensures { PhaseErrorKeeps }
{}
