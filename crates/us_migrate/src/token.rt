ghost use Rattle.std.specs.Prelude.{◌≡◌, ◌<◌, ◌≤◌, ◌↔◌, IsTrue};
ghost use Rattle.us_base.specs.Vector.{entry, AtMost};

use us_base::Vector;

/// What a client takes from one site to another: `count` transactions of the session that `site`, `coord` and
/// `session` name are committed, and `vector` is at least the vector of each of them.
#[derive(Clone, Copy, Debug, PartialEq, Eq, Hash)]
pub struct Token {
    pub site: u8,
    pub coord: u8,
    pub session: u64,
    pub count: u64,
    pub vector: Vector,
}

/// Whether a coordinator whose base is this one has all that the token tells of: each entry of the token's vector is
/// at most that of `base`.
pub fn covers(base: &Vector, token: &Token) -> bool
    ensures { IsTrue result ↔ AtMost token.now.vector base.now }
{
    token.vector.at_most(base)
}

/// Whether what `past` tells of this site is uniform: its entry is at most that of `uniform`.
pub fn passed(past: &Vector, uniform: &Vector, site: u8) -> bool
    requires { site < 10 }
    ensures { IsTrue result ↔ (entry past.now site ≤ entry uniform.now site) }
{
    past.get(site) <= uniform.get(site)
}
