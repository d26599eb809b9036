ghost use Rattle.std.specs.Prelude.{◌≡◌};
ghost use Rattle.us_report.specs.Rows.{
  no_report,
  no_report_text,
  two_report,
  two_report_text,
  every_line_report,
  every_line_text,
};
ghost use Rattle.us_report.specs.Text.{report_text, short_text};

/// The definitions compute: the text of each report that was worked by hand.
pub fn worked_reports()
    ensures nothing { report_text no_report ≡ no_report_text }
    ensures two { report_text two_report ≡ two_report_text }
    ensures every_line { report_text every_line_report ≡ every_line_text }
    ensures short { short_text no_report ≡ no_report_text }
{}
