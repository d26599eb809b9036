use crate::{Config, read};
use std::alloc::Global;
use std::process::Abort;
use std::test::Fail;
use us_value::Class;

/// The numbers of spaces that the texts name.
const NUMBERS: [u8; 5] = [1, 2, 3, 254, 255];

const CLASSES: [Class; 8] = [
    Class::Read,
    Class::Write,
    Class::Give,
    Class::Take,
    Class::Add,
    Class::Remove,
    Class::Enable,
    Class::Disable,
];

/// The classes that conflict in a space, in both orders.
fn conflicts_told(alloc: Global, config: &Config, space: u8) -> Result<String, Fail> {
    let mut shown = String::new(alloc);
    for one in CLASSES {
        for other in CLASSES {
            if config.conflicts.declared(space, one, other) {
                shown.push_str(format!(in alloc; " {one:?}-{other:?}")?.as_str())?;
            }
        }
    }
    Ok(shown)
}

/// The f, partitions and spaces of a text, or its fault.
pub(crate) fn told(alloc: Global, text: &str) -> Result<String, Fail> {
    let config = match read(alloc, text.as_bytes()) {
        Ok(config) => config.copy()?,
        Err(fault) => return Ok(fault.to_string(alloc)?),
    };
    let (f, parts) = (config.shape.f, config.shape.parts);
    let mut shown = format!(in alloc; "f {f} parts {parts}")?;
    for number in NUMBERS {
        if let Some(kind) = config.catalog.kind_of(number) {
            shown.push_str(format!(in alloc; ", {number} {kind:?}")?.as_str())?;
            shown.push_str(conflicts_told(alloc, &config, number)?.as_str())?;
        }
    }
    Ok(shown)
}

/// Each case's text says what stands behind the bar.
pub(crate) fn all_told(rt: &impl Abort, alloc: Global, cases: &str) -> Result<(), Fail> {
    for case in cases.lines() {
        let (text, want) = case.split_once('|').ok_or("no bar")?;
        let text = text_of(alloc, text)?;
        assert_eq!(rt; told(alloc, text.as_str())?.as_str(), want, "{case}");
    }
    Ok(())
}

/// The text with its ends of lines.
fn text_of(alloc: Global, case: &str) -> Result<String, Fail> {
    let mut text = String::new(alloc);
    for c in case.chars() {
        text.push(if c == ';' { '\n' } else { c })?;
    }
    Ok(text)
}
