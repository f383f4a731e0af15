// Ranges of layers: the Rust's layer/range.rs.
ghost use Rattle.std.specs.Prelude.{◌≡◌, min};
ghost use Rattle.notation.specs.Layers as rule;
ghost use Rattle.layer.specs.Meaning as meaning;

use crate::unsigned::Layer;

// The layers from `min` to `max`, both included; `min` is not above `max`.
#[derive(Clone, Copy)]
pub struct LayerRange {
    pub min: Layer,
    pub max: Layer,
}

impl From<Layer> for LayerRange {
    // The layer alone.
    ghost from_gives = { λ layer range. (range.min ≡ layer) × (range.max ≡ layer) };

    fn from(layer: Layer) -> LayerRange {
        LayerRange {
            min: layer,
            max: layer,
        }
    }
}

impl LayerRange {
    // The range from one layer to the other, in either order.
    pub fn new(a: Layer, b: Layer) -> LayerRange
        requires layer { meaning.IsLayer (meaning.layer a) }
        requires layer_2 { meaning.IsLayer (meaning.layer b) }
        ensures result_value { meaning.range result ≡ rule.range_of (meaning.layer a) (meaning.layer b) }
        ensures range { meaning.IsRange (meaning.range result) }
    {
        LayerRange {
            min: a.min(b),
            max: a.max(b),
        }
    }

    // The range within layers 1 to `layer_count`, or none where it lies beyond them.
    pub fn clamp_to_layer_count(self, layer_count: u16) -> Option<LayerRange>
        requires { meaning.IsRange (meaning.range self) }
        ensures result_value { meaning.range_option result ≡ rule.clamp_to_layer_count layer_count (meaning.range self) }
        ensures each { meaning.Each (meaning.RangeUpTo (min layer_count rule.MAX-LAYER)) (meaning.range_option result) }
    {
        let LayerRange { min, max } = self;
        if layer_count < min.0 {
            return None;
        }
        let max = max.clamp_to_layer_count(layer_count)?;
        Some(LayerRange { min, max })
    }
}
