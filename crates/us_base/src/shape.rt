ghost use Rattle.std.specs.Prelude.{◌≡◌, ◌≤◌};

/// How many sites and partitions there are: 2f + 1 sites, of which f may be lost, and `parts` partitions.
///
/// Sites are numbered 1 to `sites()`, partitions 1 to `parts`.
#[derive(Clone, Copy, Debug, PartialEq, Eq, Hash)]
pub struct Shape {
    pub f: u8,
    pub parts: u8,
}

impl Shape {
    ghost use Rattle.us_base.specs.Shape.{sites_of};

    /// The number of sites.
    pub fn sites(&self) -> u8
        requires { self.now.f ≤ 4 }
        ensures { result ≡ sites_of self.now }
    {
        2 * self.f + 1
    }
}
