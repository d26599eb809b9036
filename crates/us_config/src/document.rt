ghost use Rattle.toml.specs.View.{table_view};
ghost use Rattle.us_config.specs.Document.{or_not_toml};
ghost use Rattle.us_config.specs.Meaning.{document_of};
ghost use Rattle.us_config.specs.Values.{Shows};

use crate::fault::{ConfigFault, Key, ReadFault};
use std::alloc::Global;
use toml::Table;

/// The table of a text.
///
/// # Errors
///
/// `NotToml` where the text is no TOML, or `Memory`.
pub fn parsed(alloc: Global, text: &[u8]) -> Result<Table, ReadFault>
    ensures { Shows (λ table. table_view table) result (or_not_toml (document_of text.now)) }
{
    match toml::table_from_slice(alloc, text) {
        Ok(table) => Ok(table),
        Err(error) => {
            if error.is_memory() {
                return Err(ReadFault::Memory);
            }
            Err(ReadFault::Refused {
                key: Key::Top,
                fault: ConfigFault::NotToml,
            })
        }
    }
}
