use crate::DecodeFault;
use std::alloc::Global;
use us_base::Shape;
use us_kind::Memory;

/// A field of which frames hold lists.
pub trait Field: Sized + Drop {
    ghost use Rattle.std.specs.Prelude.{◌≡◌, ℕ, List, ◌++◌, Option, IfOk};
    ghost use Rattle.us_base.specs.declared.shape.Shape.{Shape};
    ghost use Rattle.us_base.specs.Shape.{IsShape};
    ghost use Rattle.us_value.specs.Lengths.{capped};
    ghost use Rattle.us_fields.specs.DecodeResult.{Tells};

    /// Whether a value has an encoding in a store of this shape.
    ghost fits: { Shape → Self → Type 0 };

    /// How a value is encoded.
    ghost encoding: { Shape → Self → List ℕ };

    /// Which value stands at a place of an input, and the place behind it.
    ghost decoder: { Shape → List ℕ → ℕ → Option (Self × ℕ) };

    /// How many bytes encode a value.
    ghost size: { Shape → Self → ℕ };

    /// The value that stands at the place, and the place behind it.
    fn take(
        alloc: Global,
        input: &[u8],
        at: usize,
        shape: Shape,
    ) -> Result<(Self, usize), DecodeFault>
        requires { IsShape shape }
        ensures { Tells result (decoder shape input.now at) };

    /// The bytes, and the value behind them.
    fn put(&self, out: Vec<u8>, shape: Shape) -> Result<Vec<u8>, Memory>
        requires shape { IsShape shape }
        requires fits { fits shape self.now }
        ensures { IfOk result (λ new. new.items ≡ out.items ++ encoding shape self.now) };

    /// How many bytes encode the value.
    fn encoded_len(&self, shape: Shape) -> usize
        requires { IsShape shape }
        ensures { result ≡ capped (size shape self.now) };

    /// A copy, which is the same value.
    fn copied(&self) -> Result<Self, Memory>
        ensures { IfOk result (λ copy. copy ≡ self.now) };
}
