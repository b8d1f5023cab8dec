// What drafts promise as a whole.
#![tactic(auto)]

ghost use Rattle.promise.specs.Canonical.{Canonical};
ghost use Rattle.promise.specs.Examples.{WorkedRuns};

// Forms decide sameness, loads decide sameness, runs reload, edits commute.
pub fn drafts_are_canonical() -> u8
    ensures { Canonical }
{
    0
}

// The definitions at runs of calls on a small draft.
pub fn worked_runs() -> u8
    ensures { WorkedRuns }
{
    0
}
