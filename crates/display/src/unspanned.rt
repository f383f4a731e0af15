// Nodes and lists of nodes, printed from their records and the text that these name parts of.
ghost use Rattle.std.specs.Prelude.{◌≡◌, true, ◌++◌, ◌≤◌, min, length, drop};
ghost use Rattle.notation.specs.Numbers.{from_bits};
ghost use Rattle.notation.specs.Tree as tree;
ghost use Rattle.notation.specs.Packed.{RECORD as record_size, leaf_head, head_at, unpack};
ghost use Rattle.notation.specs.Meaning as meaning;
ghost use Rattle.notation.specs.WellFormed as well_formed;
ghost use Rattle.notation.specs.Print as print;
ghost use Rattle.record.specs.Meaning as means;
ghost use Rattle.laws.specs.Packed.{Packed};
ghost use Rattle.display.specs.Most.{MOST as most};
ghost use Rattle.display.specs.Written.{Wrote};
ghost use Rattle.display.specs.Nodes.{GoodNode, GoodLeaf, GoodTransform, put_before, put_transform};

use crate::write::Printer;
use nodes::{first_end, node_end};
use record::decode::{family_of, layers};
use record::kinds::LayerForm;
use record::spanned::{LayerPrefixContents, Span};
use record::{Kind, RECORD, fields};

// Prints the tree into `out` from its start and returns the length of the text, capped at 2^63. Where the text does not
// fit, `out` is only measured against: what stands in it is left open.
pub fn display(text: &[u8], tree: &[u8], out: &mut [u8]) -> usize
    requires packed { Packed tree.now }
    requires tree_value { well_formed.tree_ok text.now (unpack tree.now) ≡ true }
    ensures counts { result ≡ min (length (print.printed text.now (unpack tree.now))) most }
    ensures prints { length (print.printed text.now (unpack tree.now)) ≤ length out.old →
        out.new ≡ print.printed text.now (unpack tree.now)
        ++ drop (length (print.printed text.now (unpack tree.now))) out.old }
{
    print(text, tree, out).place()
}

// Prints the tree into `out` from its start.
fn print<'a>(text: &[u8], tree: &[u8], out: &'a mut [u8]) -> Printer<'a>
    requires packed { Packed tree.now }
    requires tree_value { well_formed.tree_ok text.now (unpack tree.now) ≡ true }
    ensures same_reference { result.out.ghost_name ≡ out.entry.ghost_name }
    ensures counts { result.at ≡ min (length (print.printed text.now (unpack tree.now))) most }
    ensures prints { length (print.printed text.now (unpack tree.now)) ≤ length out.old →
        result.out.now ≡ print.printed text.now (unpack tree.now)
        ++ drop (length (print.printed text.now (unpack tree.now))) out.old }
{
    Printer::new(out).put_nodes(text, tree)
}

// The part of the text that a span names.
fn part_of(text: &[u8], p: Span) -> &[u8]
    requires { well_formed.inside text.now (means.span p) ≡ true }
    ensures { result.now ≡ tree.part_of text.now (means.span p) }
{
    let from = p.offset as usize;
    let to = from + p.size as usize;
    &text[from..to]
}

impl<'a> Printer<'a> {
    // Puts the nodes of a list, with one space between them.
    #[cycle(group_and_nodes)]
    pub fn put_nodes(mut self, text: &[u8], tree: &[u8]) -> Printer<'a>
        requires packed { Packed tree.now }
        requires tree_value { well_formed.tree_ok text.now (unpack tree.now) ≡ true }
        ensures { Wrote self.entry result
            (print.put_nodes (meaning.unspanned text.now (unpack tree.now))) }
    {
        let mut t = tree;
        while 0 < t.len() {
            if fields::is_leaf(t) {
                self = self.put_leaf(text, t);
                t = &t[RECORD..];
            } else {
                let end = node_end(t);
                self = self.put_group(text, &t[0..end]);
                t = &t[end..];
            }
            if 0 < t.len() {
                self = self.put(b' ');
            }
        }
        self
    }

    // Puts a group, given its bytes.
    #[cycle(group_and_nodes)]
    fn put_group(self, text: &[u8], bytes: &[u8]) -> Printer<'a>
        requires good_node { GoodNode text.now bytes.now }
        requires bytes_bound { means.kind_at bytes.now ≤ 5 }
        ensures { Wrote self.entry result
            (print.put_nodes (meaning.unspanned text.now (unpack bytes.now))) }
    {
        let multiplier = fields::number(bytes);
        let kind = fields::kind(bytes);
        if !kind.is_binary() {
            return self
                .put_opening(kind)
                .put_nodes(text, &bytes[RECORD..])
                .put_closing(b')', multiplier);
        }
        let middle = first_end(bytes);
        self.put(b'[')
            .put_nodes(text, &bytes[RECORD..middle])
            .put_separator(kind)
            .put_nodes(text, &bytes[middle..])
            .put_closing(b']', multiplier)
    }

    // Puts the leaf that the first record says.
    fn put_leaf(self, text: &[u8], t: &[u8]) -> Printer<'a>
        requires { GoodLeaf text.now t.now }
        ensures { (x : tree.Leaf) → head_at t.now ≡ leaf_head x → Wrote self.entry result
            (print.put_step (meaning.step_of text.now x)) }
    {
        match fields::kind(t) {
            Kind::Rotation | Kind::Move => self.put_transform(text, t),
            Kind::Pause => self.put(b'.'),
            Kind::Pair => self.put_pair(fields::number(t), fields::other(t)),
            Kind::Slash => self.put(b'/'),
            kind => self.put_megaminx(kind),
        }
    }

    // Puts the rotation or the move that the first record says.
    fn put_transform(self, text: &[u8], t: &[u8]) -> Printer<'a>
        requires { GoodTransform text.now t.now }
        ensures { Wrote self.entry result (put_transform text.now t.now) }
    {
        self.put_before_family(text, t)
            .put_bytes(part_of(text, family_of(t)))
            .put_constraints(text, t)
            .put_multiplier(fields::number(t))
    }

    // Puts what stands before the family of the first record: `@`, or the tilde and the layers.
    fn put_before_family(self, text: &[u8], t: &[u8]) -> Printer<'a>
        requires { GoodTransform text.now t.now }
        ensures { Wrote self.entry result (put_before text.now t.now) }
    {
        if fields::kind(t) == Kind::Rotation {
            return self.put(b'@');
        }
        let inverted = self.put_if(fields::tilde(t), b'~');
        if fields::layer_form(t) == LayerForm::None {
            return inverted;
        }
        inverted.put_layers(text, layers(t))
    }

    // Puts the layers before a family.
    fn put_layers(self, text: &[u8], layers: LayerPrefixContents) -> Printer<'a>
        requires { well_formed.layers_ok text.now (means.layers layers) ≡ true }
        ensures { Wrote self.entry result
            (print.put_layers (meaning.layer_meaning text.now (means.layers layers))) }
    {
        match layers {
            LayerPrefixContents::None => self,
            LayerPrefixContents::Single(i) => self.put_number(i as u32),
            LayerPrefixContents::Range(i, j) => {
                self.put_number(i as u32).put(b'-').put_number(j as u32)
            }
            LayerPrefixContents::Set(p) => self.put_layer_set(part_of(text, p)),
        }
    }

    // Puts the constraints of the first record, if there are any.
    fn put_constraints(self, text: &[u8], t: &[u8]) -> Printer<'a>
        requires record_size_in_bounds { record_size ≤ length t.now }
        requires t_value { well_formed.constraints_ok text.now (means.constraints_at t.now) ≡ true }
        ensures { Wrote self.entry result
            (print.put_constraints (meaning.constraint_meaning text.now (means.constraints_at t.now))) }
    {
        if fields::constraints_present(t) {
            return self.put_squeezed(part_of(text, fields::constraints(t)));
        }
        self
    }

    // Puts a pair, each number given by its 32 bits.
    fn put_pair(self, u: u32, d: u32) -> Printer<'a>
        ensures { Wrote self.entry result
            (print.put_step (tree.pair (from_bits 32 u) (from_bits 32 d))) }
    {
        self.put(b'(')
            .put_signed(u)
            .put(b',')
            .put(b' ')
            .put_signed(d)
            .put(b')')
    }
}
