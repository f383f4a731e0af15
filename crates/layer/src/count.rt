// The layers of an axis: the Rust's layer/count.rs.
ghost use Rattle.std.specs.Prelude.{◌≤◌};
ghost use Rattle.notation.specs.Layers.{MAX-LAYER};

use crate::range::LayerRange;
use crate::signed::SignedLayer;
use crate::unsigned::Layer;

#[derive(Clone, Copy)]
pub struct AxisLayersInfo {
    // How many layers the axis has: its deepest layer.
    pub max_layer: u16,
    // Whether negative layers, which count from the deepest, are allowed.
    pub allow_negatives: bool,
    pub ghost real: { max_layer ≤ MAX-LAYER },
}

// An end of a range, before it is brought inside the axis.
#[derive(Clone, Copy)]
pub enum UnclampedLayer {
    BeyondShallowest,
    Concrete(Layer),
    BeyondDeepest,
    // Negative where negatives are not allowed.
    Invalid,
}

impl AxisLayersInfo {
    ghost use Rattle.std.specs.Prelude.{◌≡◌};
    ghost use Rattle.notation.specs.Layers as rule;
    ghost use Rattle.layer.specs.Meaning as meaning;

    // The layer counted from the shallowest, or none where the axis has no such layer.
    pub fn resolve(self, layer: SignedLayer) -> Option<Layer>
        ensures result_value { meaning.layer_option result
            ≡ rule.resolve self.max_layer self.allow_negatives (meaning.signed layer) }
        ensures each { meaning.Each (meaning.LayerUpTo self.max_layer) (meaning.layer_option result) }
    {
        let SignedLayer { negative, layer } = layer;
        if self.max_layer < layer.0 || (negative && !self.allow_negatives) {
            return None;
        }
        Some(if negative {
            Layer(self.max_layer - (layer.0 - 1))
        } else {
            layer
        })
    }

    // The layer counted from the shallowest, or by which side the axis has no such layer.
    pub fn resolve_unclamped(self, layer: SignedLayer) -> UnclampedLayer
        ensures value { result ≡ meaning.resolve_unclamped self.max_layer self.allow_negatives (meaning.signed layer) }
        ensures concrete_up_to { meaning.ConcreteUpTo self.max_layer result }
    {
        match self.resolve(layer) {
            Some(i) => UnclampedLayer::Concrete(i),
            None if layer.is_positive() => UnclampedLayer::BeyondDeepest,
            None if self.allow_negatives => UnclampedLayer::BeyondShallowest,
            None => UnclampedLayer::Invalid,
        }
    }

    // The range between two layers as far as the axis has it; none where both ends lie beyond the same side or one is
    // invalid.
    pub fn resolve_range(self, a: SignedLayer, b: SignedLayer) -> Option<LayerRange>
        requires layer { meaning.IsLayer self.max_layer }
        ensures result_value { meaning.range_option result
            ≡ rule.resolve_range self.max_layer self.allow_negatives (meaning.signed a) (meaning.signed b) }
        ensures each { meaning.Each (meaning.RangeUpTo self.max_layer) (meaning.range_option result) }
    {
        let from = self.resolve_unclamped(a);
        let to = self.resolve_unclamped(b);
        if from.beyond_same_side(to) {
            return None;
        }
        let i = self.clamp(from)?;
        let j = self.clamp(to)?;
        Some(LayerRange::new(i, j))
    }

    // The layer of the axis that is nearest to an end; none for an invalid one.
    fn clamp(self, end: UnclampedLayer) -> Option<Layer>
        requires layer { meaning.IsLayer self.max_layer }
        requires concrete_up_to { meaning.ConcreteUpTo self.max_layer end }
        ensures result_value { meaning.layer_option result ≡ meaning.nearest self.max_layer end }
        ensures each { meaning.Each (meaning.LayerUpTo self.max_layer) (meaning.layer_option result) }
    {
        match end {
            UnclampedLayer::BeyondShallowest => Some(Layer::SHALLOWEST),
            UnclampedLayer::Concrete(layer) => Some(layer),
            UnclampedLayer::BeyondDeepest => Some(Layer::new_clamped(self.max_layer)),
            UnclampedLayer::Invalid => None,
        }
    }
}

impl UnclampedLayer {
    ghost use Rattle.std.specs.Prelude.{◌≡◌};
    ghost use Rattle.layer.specs.Meaning as meaning;

    // Whether no layer of the axis lies between the two ends.
    fn beyond_same_side(self, other: UnclampedLayer) -> bool
        ensures { result ≡ meaning.same_side self other }
    {
        matches!(
            (self, other),
            (
                UnclampedLayer::BeyondShallowest,
                UnclampedLayer::BeyondShallowest
            ) | (UnclampedLayer::BeyondDeepest, UnclampedLayer::BeyondDeepest)
        )
    }
}
