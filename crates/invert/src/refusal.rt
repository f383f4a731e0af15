// Which records have no inverse.
ghost use Rattle.std.specs.Prelude.{◌≡◌};
ghost use Rattle.notation.specs.Lending.{number_of};
ghost use Rattle.notation.specs.Packed.{head_at};
ghost use Rattle.record.specs.Undone.{StartsRecord};
ghost use Rattle.invert.specs.Nodes.{head_refusal};

use notation::refusals::Refusal;
use record::undo::overflows;

// The refusal where the first record is a pair with no inverse.
pub fn pair_refusal(t: &[u8]) -> Option<Refusal>
    requires { StartsRecord t.now }
    ensures { number_of result ≡ head_refusal (head_at t.now) }
{
    overflows(t).then_some(Refusal::Overflow)
}
