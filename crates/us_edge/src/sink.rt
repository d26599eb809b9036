ghost use Rattle.std.specs.Prelude.{◌≡◌, ◌<◌, ◌≤◌, ℕ, List, Option, IfOk, OnErr, length, take};
ghost use Rattle.us_edge.specs.Faults.{Rose};
ghost use Rattle.us_edge.specs.Streams.{Appends};

use crate::Failed;

/// Where output goes.
pub trait Sink {
    // The bytes written so far, where the sink tells them.
    ghost written: { Self → Option (List ℕ) };

    // How many of its calls failed, which never falls.
    ghost faults: { Self → ℕ };

    /// Takes bytes from the front of the piece, at least one if there is one, and says how many.
    ///
    /// After `Failed` nothing was taken.
    fn write(&mut self, piece: &[u8]) -> Result<usize, Failed>
        ensures bound { IfOk result (λ n. n ≤ length piece.now) }
        ensures some { IfOk result (λ n. 0 < length piece.now → 0 < n) }
        ensures bytes { IfOk result (λ n. Appends (written self.old) (written self.new) (take n piece.now)) }
        ensures err { OnErr result (written self.new ≡ written self.old) }
        ensures cause { OnErr result (Rose (faults self.old) (faults self.new)) }
        ensures counts { faults self.old ≤ faults self.new };
}
