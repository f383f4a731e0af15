// Both inverses of a tree, written as a tree over the same text.
ghost use Rattle.std.specs.Prelude.{◌≡◌, Bool, true, false, length};
ghost use Rattle.notation.specs.Lending.{number_of};
ghost use Rattle.notation.specs.Packed.{pack, unpack};
ghost use Rattle.notation.specs.Entries as rule;
ghost use Rattle.laws.specs.Packed.{Packed};
ghost use Rattle.entries.specs.Inverses.{refusing, written, ruled};

use checked::check;
use notation::refusals::Refusal;

// An inverse of trees.
trait Inverse {
    // Whether groups are entered.
    ghost deep: { Bool };

    // The first refusal that the inverse meets.
    fn refusal(tree: &[u8]) -> Option<Refusal>
        requires { Packed tree.now }
        ensures { number_of result ≡ refusing deep (unpack tree.now) };

    // Writes the inverse of a tree that has one.
    fn write(tree: &[u8], out: &mut [u8])
        requires packed { Packed tree.now }
        requires out_len { length out.old ≡ length tree.now }
        ensures { out.new ≡ pack (written deep (unpack tree.now)) };
}

// Groups are kept as they are.
struct Shallow;

// Groups are entered.
struct Deep;

impl Inverse for Shallow {
    ghost deep = { false };

    fn refusal(tree: &[u8]) -> Option<Refusal> {
        invert::inv_refusal(tree)
    }

    fn write(tree: &[u8], out: &mut [u8]) {
        invert::inv(tree, out);
    }
}

impl Inverse for Deep {
    ghost deep = { true };

    fn refusal(tree: &[u8]) -> Option<Refusal> {
        invert::inv_deep_refusal(tree)
    }

    fn write(tree: &[u8], out: &mut [u8]) {
        invert::inv_deep(tree, out);
    }
}

// The inverse whose groups are kept as they are: refusals 1, 2, 6, 8, 5.
pub fn inv(text: &[u8], tree: &[u8], out: &mut [u8]) -> Result<u64, Refusal>
    ensures { rule.lent result out.new ≡ rule.inv_entry text.now tree.now out.old }
{
    invert::<Shallow>(text, tree, out)
}

// The inverse in which groups are entered: refusals 1, 2, 6, 7 or 8, 5.
pub fn inv_deep(text: &[u8], tree: &[u8], out: &mut [u8]) -> Result<u64, Refusal>
    ensures { rule.lent result out.new ≡ rule.inv_deep_entry text.now tree.now out.old }
{
    invert::<Deep>(text, tree, out)
}

// Writes an inverse of a tree, or refuses as its entry does.
fn invert<I: Inverse>(text: &[u8], tree: &[u8], out: &mut [u8]) -> Result<u64, Refusal>
    ensures { rule.lent result out.new
        ≡ rule.lend (ruled I.deep text.now tree.now) out.old }
{
    check(text, tree)?;
    if let Some(refusal) = I::refusal(tree) {
        return Err(refusal);
    }
    let size = tree.len();
    if out.len() < size {
        return Err(Refusal::NoRoom);
    }
    I::write(tree, &mut out[0..size]);
    Ok(size as u64)
}
