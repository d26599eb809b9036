//! Laws of the definitions that the contracts cite: each is a function whose contract says it.
ghost use Rattle.std.specs.Prelude.{◌≡◌, ◌^◌};
ghost use Rattle.us_base.specs.Lattice.{IsLattice, ChangesOneEntry};

use crate::Limits;

/// Vectors of one length, ordered by "each entry is at most the other's", are a lattice with `join` and `meet`.
pub fn vectors_are_a_lattice()
    ensures { IsLattice }
{}

/// `with_entry` changes the entry that it names and no other.
pub fn one_entry_is_changed()
    ensures { ChangesOneEntry }
{}

/// What may be held, encoded and asked for at a site.
pub fn limits_of_a_site()
    ensures sites { Limits.SITES ≡ 7 }
    ensures partitions { Limits.PARTITIONS ≡ 16 }
    ensures value { Limits.VALUE ≡ 1024 }
    ensures item_id { Limits.ITEM_ID ≡ 64 }
    ensures operations { Limits.OPERATIONS ≡ 64 }
    ensures writes { Limits.WRITES ≡ 65536 }
    ensures answer { Limits.ANSWER ≡ 65000 }
    ensures client_frame { Limits.CLIENT_FRAME ≡ 65536 }
    ensures peer_frame { Limits.PEER_FRAME ≡ 1048576 }
    ensures open_sessions { Limits.OPEN_SESSIONS ≡ 4096 }
    ensures requests { Limits.REQUESTS ≡ 64 }
    ensures slots { Limits.SLOTS ≡ 8 }
    ensures replicated { Limits.REPLICATED ≡ 8 }
    ensures clock { Limits.CLOCK ≡ 2 ^ 59 }
    ensures number { Limits.NUMBER ≡ 2 ^ 62 }
{}

/// What may be handed to the program, and how long it runs.
pub fn limits_of_a_run()
    ensures text { Limits.TEXT ≡ 2 ^ 28 }
    ensures sessions { Limits.RUN_SESSIONS ≡ 512 }
    ensures transactions { Limits.RUN_TRANSACTIONS ≡ 20000 }
    ensures events { Limits.RUN_EVENTS ≡ 1000000 }
    ensures packet_bytes { Limits.RUN_PACKET_BYTES ≡ 2 ^ 30 }
    ensures load { Limits.LOAD ≡ 5000 }
    ensures rounds { Limits.ROUNDS ≡ 100000 }
    ensures turns { Limits.TURNS ≡ 2 ^ 30 }
{}
