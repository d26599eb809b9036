use std::env;
use std::io::ErrorKind;
use us_kind::Memory;

/// The words behind the program's name: none where a word isn't UTF-8, which is no form.
pub fn arguments_of(rt: &HostRuntime) -> Result<Vec<String>, Memory> {
    match env::args(rt) {
        Ok(all) => Ok(all.skip(1).collect(rt.alloc())?),
        Err(error) => match error.kind() {
            ErrorKind::OutOfMemory => Err(Memory),
            _ => Ok(Vec::new(rt.alloc())),
        },
    }
}
