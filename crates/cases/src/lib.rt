// Worked cases, over the same definitions that the engine's contracts have.
#![tactic(auto)]

ghost use Rattle.cases.specs.Table.{EveryRow};

// Every row of the table comes out as it should.
pub fn cases_stand()
    ensures { EveryRow }
{}
