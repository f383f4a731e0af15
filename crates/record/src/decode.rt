// The first record of a slice, read by its kind.
ghost use Rattle.std.specs.Prelude.{◌≡◌, ◌≤◌, length};
ghost use Rattle.notation.specs.Packed.{RECORD, family_at, leaf_head};
ghost use Rattle.record.specs.Meaning as meaning;
ghost use Rattle.record.specs.Range.{FitsSpan};

use crate::fields;
use crate::kinds::LayerForm;
use crate::spanned::{LayerPrefixContents, Move, NOWHERE, Rotation, Span};

// What a record of a rotation says.
pub fn rotation(t: &[u8]) -> Rotation
    requires { RECORD ≤ length t.now }
    ensures { leaf_head (meaning.rotation_leaf result) ≡ meaning.rotation_at t.now }
{
    Rotation {
        family: family_of(t),
        constraints: constraints_of(t),
        multiplier: fields::number(t),
    }
}

// What a record of a move says.
pub fn layered_move(t: &[u8]) -> Move
    requires { RECORD ≤ length t.now }
    ensures { leaf_head (meaning.move_leaf result) ≡ meaning.move_at t.now }
{
    Move {
        inverted: fields::tilde(t),
        layers: layers(t),
        family: family_of(t),
        constraints: constraints_of(t),
        multiplier: fields::number(t),
    }
}

// A family as the rules have it: an empty one stands nowhere.
fn family_at(p: Span) -> Span
    requires { FitsSpan (meaning.span p) }
    ensures result_value { meaning.span result ≡ family_at p.offset p.size }
    ensures fits_span { FitsSpan (meaning.span result) }
{
    if p.size == 0 { NOWHERE } else { p }
}

// The family of a move or a rotation.
pub fn family_of(t: &[u8]) -> Span
    requires { RECORD ≤ length t.now }
    ensures result_value { meaning.span result
        ≡ family_at (meaning.field meaning.FAMILY t.now) (meaning.field meaning.FAMILY-SIZE t.now) }
    ensures fits_span { FitsSpan (meaning.span result) }
{
    family_at(fields::family(t))
}

// The constraints of a move or a rotation, if it has any.
fn constraints_of(t: &[u8]) -> Option<Span>
    requires { RECORD ≤ length t.now }
    ensures { meaning.span_option result ≡ meaning.constraints_at t.now }
{
    if fields::constraints_present(t) {
        Some(fields::constraints(t))
    } else {
        None
    }
}

// The layers of a move.
pub fn layers(t: &[u8]) -> LayerPrefixContents
    requires { RECORD ≤ length t.now }
    ensures { meaning.layers result ≡ meaning.layers_at t.now }
{
    let other = fields::other(t);
    let low = (other / 65536) as u16;
    let high = (other % 65536) as u16;
    match fields::layer_form(t) {
        LayerForm::None => LayerPrefixContents::None,
        LayerForm::Single => LayerPrefixContents::Single(low),
        LayerForm::Range => LayerPrefixContents::Range(low, high),
        LayerForm::Set => LayerPrefixContents::Set(fields::layer_set(t)),
    }
}
