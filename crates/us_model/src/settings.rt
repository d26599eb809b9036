ghost use Rattle.std.specs.Prelude.{◌≡◌, IfOk};

use us_base::Shape;
use us_conflict::Conflicts;
use us_kind::Memory;
use us_value::Catalog;

/// What all actors of a store are configured with: its shape, the spaces with their kinds, and the declared conflicts.
#[derive(Drop)]
pub struct Settings {
    pub shape: Shape,
    pub catalog: Catalog,
    pub conflicts: Conflicts,
}

impl Settings {
    /// A copy of the settings.
    pub fn copy(&self) -> Result<Settings, Memory>
        ensures { IfOk result (λ copy. copy ≡ self.now) }
    {
        Ok(Settings {
            shape: self.shape,
            catalog: self.catalog.copy()?,
            conflicts: self.conflicts.copy()?,
        })
    }
}
