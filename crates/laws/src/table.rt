// The table of lock states: which Put leads from which state to which.
// A refused Put leads nowhere: it leaves how the unit stands, its passphrase and its hint.
ghost use Rattle.laws.specs.StateTable.{StateTable};

pub fn state_table_holds()
    ensures { StateTable }
{}
