ghost use Rattle.us_base.specs.Shape.{IsShape};

use crate::{read_line, write_line};
use std::alloc::Global;
use std::process::Abort;
use std::test::Fail;
use us_base::Shape;

/// Three sites, two partitions.
pub(crate) const THREE: Shape = Shape { f: 1, parts: 2 };

/// The line's text as it is written again, or the fault, or `-` where the line is skipped.
pub(crate) fn outcome(alloc: Global, text: &[u8], shape: Shape) -> Result<String, Fail>
    requires { IsShape shape }
{
    Ok(match read_line(alloc, text, shape) {
        Ok(None) => String::from_str(alloc, "-")?,
        Ok(Some(line)) => String::from_utf8(write_line(alloc, &line)?)?,
        Err(fault) => fault.to_string(alloc)?,
    })
}

/// Each case's line says what stands behind the bar, or is refused so.
pub(crate) fn all_told(
    rt: &impl Abort,
    alloc: Global,
    cases: &str,
    shape: Shape,
) -> Result<(), Fail>
    requires { IsShape shape }
{
    for case in cases.lines() {
        let (line, want) = case.split_once('|').ok_or("no bar")?;
        let shown = outcome(alloc, line.as_bytes(), shape)?;
        assert_eq!(rt; shown.as_str(), want, "{case:?}");
    }
    Ok(())
}
