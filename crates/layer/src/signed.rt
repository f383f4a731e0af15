// Signed layer numbers: the Rust's layer/signed.rs.
ghost use Rattle.layer.specs.Bounds.{IsLayer};

use crate::unsigned::Layer;

// A layer counted from the shallowest (1 on) or, negative, from the deepest (-1 on). Sign and magnitude instead of the
// Rust's `NonZeroI16`: the prover does arithmetic on unsigned numbers by itself, on signed ones not.
#[derive(Clone, Copy)]
pub struct SignedLayer {
    pub negative: bool,
    pub layer: Layer,
    pub ghost real: { IsLayer layer.0 },
}

impl SignedLayer {
    ghost use Rattle.std.specs.Prelude.{◌≡◌};
    ghost use Rattle.layer.specs.Meaning as meaning;

    // Whether the layer is counted from the shallowest.
    pub fn is_positive(self) -> bool
        ensures { result ≡ meaning.is_positive (meaning.signed self) }
    {
        !self.negative
    }
}
