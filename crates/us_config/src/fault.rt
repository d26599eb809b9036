ghost use Rattle.std.specs.Prelude.{◌≡◌};
ghost use Rattle.us_config.specs.Fault.{key_text, fault_text};
ghost use Rattle.us_config.specs.declared.fault.ReadFault.TheVariants.{Memory};

use std::alloc::AllocError;
use std::fmt;
use thiserror::Error;

/// A key of the configuration, or `Top` for the text as a whole.
#[derive(Clone, Copy, Debug, PartialEq, Eq, Hash)]
pub enum Key {
    Top,
    Sites,
    Partitions,
    Space,
    SpaceNumber,
    SpaceKind,
    SpaceConflicts,
    Node,
    NodePeers,
    NodeClients,
    NodeTick,
    NodeSuspect,
}

impl Key {
    /// The key as it is printed, such as `top` and `space.number`.
    pub fn name(&self) -> &'static str
        ensures { result.now ≡ key_text self.now }
    {
        match self {
            Key::Top => "top",
            Key::Sites => "sites",
            Key::Partitions => "partitions",
            Key::Space => "space",
            Key::SpaceNumber => "space.number",
            Key::SpaceKind => "space.kind",
            Key::SpaceConflicts => "space.conflicts",
            Key::Node => "node",
            Key::NodePeers => "node.peers",
            Key::NodeClients => "node.clients",
            Key::NodeTick => "node.tick",
            Key::NodeSuspect => "node.suspect",
        }
    }
}

impl fmt::Display for Key {
    ghost use Rattle.std.specs.Prelude.{Some};
    ghost use Rattle.us_config.specs.Fault.{key_text};

    ghost output = { λ key. Some (key_text key) };

    fn fmt<W: fmt::Write>(&self, f: &mut fmt::Formatter<W>) -> fmt::Result {
        f.write_str(self.name())
    }
}

/// What is wrong at a key.
#[derive(Clone, Copy, Debug, PartialEq, Eq, Hash, Error)]
pub enum ConfigFault {
    /// The text is no TOML.
    #[error("NotToml")]
    NotToml,
    /// A table has a key that is none of its own.
    #[error("WrongKey")]
    WrongKey,
    /// Another TOML type, no value where one is needed, an unknown word, a class that the kind lacks, a space's number
    /// for the second time, a list of another length, or no address.
    #[error("WrongValue")]
    WrongValue,
    /// A whole number outside its range.
    #[error("OutOfLimit")]
    OutOfLimit,
}

impl ConfigFault {
    /// The fault as it is printed.
    pub fn name(&self) -> &'static str
        ensures { result.now ≡ fault_text self.now }
    {
        match self {
            ConfigFault::NotToml => "NotToml",
            ConfigFault::WrongKey => "WrongKey",
            ConfigFault::WrongValue => "WrongValue",
            ConfigFault::OutOfLimit => "OutOfLimit",
        }
    }
}

/// Why a configuration is not read.
#[derive(Clone, Copy, Debug, PartialEq, Eq, Hash, Error)]
pub enum ReadFault {
    /// An allocation failed.
    #[error("out of memory")]
    Memory,
    /// The first check that fails.
    #[error("{key} {fault}")]
    Refused { key: Key, fault: ConfigFault },
}

/// A value that is none for its key.
pub fn wrong_value(key: Key) -> ReadFault
    ensures { result ≡ ReadFault.Refused key ConfigFault.WrongValue }
{
    ReadFault::Refused {
        key,
        fault: ConfigFault::WrongValue,
    }
}

impl From<us_kind::Memory> for ReadFault {
    ghost from_gives = { λ _ e. e ≡ Memory };

    fn from(_error: us_kind::Memory) -> ReadFault {
        ReadFault::Memory
    }
}

impl From<AllocError> for ReadFault {
    ghost from_gives = { λ _ e. e ≡ Memory };

    fn from(_error: AllocError) -> ReadFault {
        ReadFault::Memory
    }
}
