ghost use Rattle.std.specs.Prelude.{◌≡◌};
ghost use Rattle.us_kind.specs.Comparison.{tag_of, tid_eq};

/// A transaction: the site and the coordinator that began it, and its number there.
///
/// Sites are 1 to the number of sites, coordinators 1 to the number of partitions, and numbers count from 1.
#[derive(Clone, Copy, Debug, PartialEq, Eq, PartialOrd, Ord, Hash)]
pub struct Tid {
    pub site: u8,
    pub coord: u8,
    pub seq: u64,
}

impl Tid {
    /// Whether the two are the same transaction.
    pub fn same(&self, other: &Tid) -> bool
        ensures { result ≡ tid_eq self.now other.now }
    {
        self.site == other.site && self.coord == other.coord && self.seq == other.seq
    }
}

/// An update: its transaction, and the place of its operation there, from 1.
#[derive(Clone, Copy, Debug, PartialEq, Eq, PartialOrd, Ord, Hash)]
pub struct Tag {
    pub tid: Tid,
    pub place: u8,
}

/// The arbitration key of an update: the sum of its commit vector's entries, then its transaction and place.
#[derive(Clone, Copy, Debug, PartialEq, Eq, PartialOrd, Ord, Hash)]
pub struct Stamp {
    pub sum: u128,
    pub tid: Tid,
    pub place: u8,
}

impl Stamp {
    /// The update that the stamp is of.
    pub fn tag(&self) -> Tag
        ensures { result ≡ tag_of self.now }
    {
        Tag {
            tid: self.tid,
            place: self.place,
        }
    }
}
