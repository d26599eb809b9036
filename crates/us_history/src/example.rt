ghost use Rattle.std.specs.Prelude.{◌≡◌, ◌∷◌, []};
ghost use Rattle.us_history.specs.Pasts.{direct_past, past_of};
ghost use Rattle.us_history.specs.Executions.{execution_by};
ghost use Rattle.us_history.specs.Example.{counts, example, example_execution, late, seer, writer};

/// The definitions compute: the worked history tells the execution that was worked by hand.
pub fn worked_example()
    ensures { execution_by past_of example ≡ example_execution }
{}

/// In one step less is counted: a transaction that is linked to by the one whose write is seen is missing.
pub fn one_step_is_less()
    ensures { direct_past example seer ≡ counts writer.session 1 (counts late.session 1 []) }
{}
