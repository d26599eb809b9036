use crate::{Memory, Stamp, Tag};
use std::alloc::Global;

/// A type of which each site holds a copy: updates are prepared at one site and applied at every site, in any order.
///
/// `initial` is the state before any update. `answer` says what an operation answers at a state. `prepare` gives the
/// effect of an update at the state that it meets, and `None` for a reading operation. `apply` makes an effect part of
/// a state under the stamp of its update; after a failed allocation the state is as before.
pub trait Replicated {
    ghost use Rattle.std.specs.Prelude.{◌≡◌, ℕ, ◌^◌, ◌<◌, ◌↔◌, Bool, true, List, Option, None, IfOk, OnOk, OnErr};
    ghost use Rattle.us_kind.specs.declared.identity.Tag.{Tag};
    ghost use Rattle.us_kind.specs.declared.identity.Stamp.{Stamp};
    ghost use Rattle.us_kind.specs.Updates.{Update, Stamped, Commutes, CountsUpdates, AnswersInOrder};

    type Op;

    type Effect;

    type Answer;

    type State;

    /// The state before any update.
    ghost initially: { Self.State };

    /// The state after an effect, under its stamp.
    ghost updated: { Self.State → Self.Effect → Stamp → Self.State };

    /// What an operation answers at a state.
    ghost answered: { Self.Op → Self.State → Self.Answer };

    /// The effect of an operation at a state, where it is an update.
    ghost prepared: { Tag → Self.Op → Self.State → Option Self.Effect };

    /// Whether an operation only reads.
    ghost is_reading: { Self.Op → Bool };

    /// How many updates a state counts, of those that were applied.
    ghost update_count: { Self.State → ℕ };

    /// The definition: what an operation answers over these updates in arbitration order, under the relation "after".
    ghost value: { Self.Op → List (Update Self.Op) → (Tag → Tag → Bool) → Self.Answer };

    fn initial(alloc: Global) -> Result<Self::State, Memory>
        ensures { IfOk result (λ s. s ≡ initially) };

    fn answer(alloc: Global, state: &Self::State, op: &Self::Op) -> Result<Self::Answer, Memory>
        ensures { IfOk result (λ a. a ≡ answered op.now state.now) };

    fn prepare(
        alloc: Global,
        state: &Self::State,
        op: &Self::Op,
        tag: Tag,
    ) -> Result<Option<Self::Effect>, Memory>
        ensures { IfOk result (λ e. e ≡ prepared tag op.now state.now) };

    /// A state takes fewer than 2^60 updates.
    fn apply(
        alloc: Global,
        state: &mut Self::State,
        effect: &Self::Effect,
        stamp: Stamp,
    ) -> Result<(), Memory>
        requires { update_count state.old < 2 ^ 60 }
        ensures ok { OnOk result (state.new ≡ updated state.old effect.now stamp) }
        ensures err { OnErr result (state.new ≡ state.old) };

    /// Two effects give one state in either order, whatever their stamps.
    ghost commutes: { Commutes updated };

    /// Exactly the reading operations have no effect.
    ghost reads: { (tag : Tag) (op : Self.Op) (s : Self.State) → (prepared tag op s ≡ None) ↔ (is_reading op ≡ true) };

    /// A state counts no more updates than were applied to it.
    ghost counts: { CountsUpdates initially updated update_count };

    /// A history, applied in arbitration order, answers each operation as the definition.
    ghost in_order: { AnswersInOrder initially updated answered prepared value };
}
