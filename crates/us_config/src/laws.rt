ghost use Rattle.us_config.specs.Rows.{WorkedConfigurations};

/// The definitions give what was worked by hand.
pub fn worked_configurations()
    ensures { WorkedConfigurations }
{}
