ghost use Rattle.us_load.specs.Grammar.{LoadsAreSchedules};
ghost use Rattle.us_load.specs.Rows.{WorkedLoads};

/// The text of each load is in the schedule's grammar: behind the configuration, each line is one that it allows.
pub fn loads_are_schedules()
    ensures { LoadsAreSchedules }
{}

/// The definitions give what was worked by hand.
pub fn worked_loads()
    ensures { WorkedLoads }
{}
