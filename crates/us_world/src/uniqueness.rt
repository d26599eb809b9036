//! Lines lead to one outcome.
ghost use Rattle.us_world.specs.Limits.{OutcomesAreOne};

/// The same lines have one world, or pass one limit at one line.
pub fn outcomes_are_one()
    ensures { OutcomesAreOne }
{}
