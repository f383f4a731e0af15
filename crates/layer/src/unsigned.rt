// Layer numbers: the Rust's layer/unsigned.rs.
ghost use Rattle.std.specs.Prelude.{◌≡◌, min};
ghost use Rattle.notation.specs.Layers.{MAX-LAYER};
ghost use Rattle.layer.specs.Meaning as meaning;

use notation::limits::MAX_LAYER;

// A layer's number, from 1 (the shallowest) to 32,767. The functions below make no other, and ask for no other. That is no
// fact of the type, nor of `LayerRange`: the public `ranges::simplify` is lent ranges in which any numbers may stand.
#[derive(Clone, Copy, PartialEq, Eq, PartialOrd, Ord)]
pub struct Layer(pub u16);

impl Layer {
    pub const MIN: Layer = Layer(1);

    pub const MAX: Layer = Layer(MAX_LAYER);
    // The shallowest layer of any axis.
    pub const SHALLOWEST: Layer = Layer(1);

    // The layer with the number `i`, or none unless `i` is from 1 to 32,767.
    pub fn new(i: u16) -> Option<Layer>
        ensures result_value { meaning.layer_option result ≡ meaning.new_layer i }
        ensures each { meaning.Each meaning.IsLayer (meaning.layer_option result) }
    {
        (1..=MAX_LAYER).contains(&i).then_some(Layer(i))
    }

    // The layer nearest to `i`. At 0 the Rust takes `NonZeroI16::MIN`, which is -32,768, against its own comment; this
    // gives 1.
    pub fn new_clamped(i: u16) -> Layer
        ensures result_value { meaning.layer result ≡ meaning.clamp_layer i }
        ensures layer { meaning.IsLayer (meaning.layer result) }
    {
        Layer(i).clamp(Layer::MIN, Layer::MAX)
    }

    // The layer, or the deepest of `layer_count` layers where it lies below that; none where there are no layers.
    pub fn clamp_to_layer_count(self, layer_count: u16) -> Option<Layer>
        requires { meaning.IsLayer (meaning.layer self) }
        ensures result_value { meaning.layer_option result ≡ meaning.clamp_layer_to_count layer_count (meaning.layer self) }
        ensures each { meaning.Each (meaning.LayerUpTo (min layer_count MAX-LAYER)) (meaning.layer_option result) }
    {
        Layer::new(self.0.min(layer_count))
    }
}
