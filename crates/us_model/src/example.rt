ghost use Rattle.std.specs.Prelude.{◌≡◌};
ghost use Rattle.us_model.specs.Worlds.{run, start};
ghost use Rattle.us_model.specs.Executions.{execution_of};
ghost use Rattle.us_model.specs.Example.{example, example_settings, example_execution};

/// The definitions compute: the worked run comes to the execution that was worked by hand.
pub fn worked_example()
    ensures { execution_of (run example (start example_settings)).notes ≡ example_execution }
{}
