ghost use Rattle.std.specs.Prelude.{◌≡◌, ◌<◌, ◌≤◌};
ghost use Rattle.us_load.specs.Transactions.{site_of, coord_of};

/// How many sessions a load has, numbered from 0: one at each of the four coordinators of each of the three sites.
pub const SESSIONS: u64 = 12;

/// The number that each session has at its coordinator.
pub const FIRST: u64 = 1;

/// The site of a session, from 1.
pub fn site_of(session: u64) -> u8
    requires { session < SESSIONS }
    ensures { result ≡ site_of session }
{
    1 + (session / 4) as u8
}

/// The coordinator of a session, from 1.
pub fn coord_of(session: u64) -> u8
    ensures { result ≡ coord_of session }
{
    1 + (session % 4) as u8
}
