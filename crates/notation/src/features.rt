// Which parts of the notation a reader admits: `Features` and `LayerFeatures` of the Rust's lib.rs.
ghost use Rattle.std.specs.Prelude.{◌≡◌};
ghost use Rattle.notation.specs.Features as rule;

// Features of layer prefixes.
#[derive(Clone, Copy)]
pub struct LayerFeatures {
    // `~` before a layer prefix.
    pub inverted_layers: bool,
    // Layer sets, as `{1..3, 5}R`.
    pub layer_sets: bool,
    // `i-j` in a layer set, as `{1-3, 5}R`; of no effect without `layer_sets`.
    pub hsc1_layer_ranges: bool,
}

#[derive(Clone, Copy)]
pub struct Features {
    pub layers: LayerFeatures,
    // Rotations written with `@`.
    pub generalized_rotations: bool,
    // Constraints, as `U{R->F, I->P}`.
    pub transform_constraints: bool,
    // `R++`, `R--`, `D++`, `D--`.
    pub megaminx: bool,
    // `/` and `(u,d)`.
    pub sq1: bool,
    // The signs U+2019 and U+2032 in a multiplier, as `'`. The Rust has no such feature, and no named setting has it on.
    pub curly_primes: bool,
}

impl LayerFeatures {
    pub const SIMPLE: LayerFeatures = LayerFeatures {
        inverted_layers: false,
        layer_sets: false,
        hsc1_layer_ranges: false,
    };

    pub const HYPERCUBING: LayerFeatures = LayerFeatures {
        inverted_layers: true,
        layer_sets: true,
        hsc1_layer_ranges: true,
    };
}

impl Features {
    pub const MINIMAL: Features = Features {
        layers: LayerFeatures::SIMPLE,
        generalized_rotations: false,
        transform_constraints: false,
        megaminx: false,
        sq1: false,
        curly_primes: false,
    };

    pub const WCA: Features = Features {
        layers: LayerFeatures::SIMPLE,
        generalized_rotations: false,
        transform_constraints: false,
        megaminx: true,
        sq1: true,
        curly_primes: false,
    };

    pub const MAXIMAL: Features = Features {
        layers: LayerFeatures::HYPERCUBING,
        generalized_rotations: true,
        transform_constraints: true,
        megaminx: true,
        sq1: true,
        curly_primes: false,
    };
}

// The setting MINIMAL. The named settings are functions too, since an associated constant has no contract that would tie
// it to its rule.
pub fn minimal() -> Features
    ensures { result ≡ rule.MINIMAL }
{
    Features::MINIMAL
}

// The setting WCA.
pub fn wca() -> Features
    ensures { result ≡ rule.WCA }
{
    Features::WCA
}

// The setting MAXIMAL: every feature of the Rust.
pub fn maximal() -> Features
    ensures { result ≡ rule.MAXIMAL }
{
    Features::MAXIMAL
}

// The features that the low eight bits name; higher bits are ignored, so that every number that C hands over names features.
pub fn from_bits(bits: u32) -> Features
    ensures { result ≡ rule.of_bits bits }
{
    let layers = LayerFeatures {
        inverted_layers: bits % 2 == 1,
        layer_sets: bits / 2 % 2 == 1,
        hsc1_layer_ranges: bits / 4 % 2 == 1,
    };
    Features {
        layers,
        generalized_rotations: bits / 8 % 2 == 1,
        transform_constraints: bits / 16 % 2 == 1,
        megaminx: bits / 32 % 2 == 1,
        sq1: bits / 64 % 2 == 1,
        curly_primes: bits / 128 % 2 == 1,
    }
}
