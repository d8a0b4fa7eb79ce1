// Writing L of a step digit: the terms of a piece, and pieces that split.
#![tactic(auto)]

ghost use Rattle.std.specs.Prelude.{◌≡◌, ◌+◌, ◌*◌, ◌≤◌, ◌<◌, length};
ghost use Rattle.field.specs.Byte.{byte_values};
ghost use Rattle.circuit.specs.Constant.{bits_of};
ghost use Rattle.circuit.specs.Table.{most_gates};
ghost use Rattle.step.specs.Coefficient.{coefficient};
ghost use Rattle.step.specs.Digit.{IsStep};
ghost use Rattle.step.specs.Pieces.{none, last_gates, last_sum, terms_from, piece};
ghost use Rattle.step.specs.Powers.{split_node};
ghost use Rattle.writer.specs.Nodes.{node_is};
ghost use Rattle.writer.specs.Writing.{HasRoom, Writes};
ghost use Rattle.powers.specs.Prepared.{Prepared};
ghost use Rattle.pieces.specs.Sums.{sum_is, next_of, Shallow};
ghost use Rattle.pieces.specs.Sizes.{Spanned};

use arithmetic::Modulus;
use powers::OrderLists;
use writer::{Gate, Node, Writer};

// The polynomial of L over the powers of the gate z, which its pieces write by a step size.
#[derive(Clone, Copy, Debug, PartialEq, Eq)]
pub struct Polynomial<'a> {
    pub m: Modulus,
    pub step: u16,
    pub z: u16,
    pub tables: OrderLists<'a>,
    ghost is_step: { IsStep m.p step },
    ghost low: { z ≤ most_gates },
    ghost prepared: { Prepared m.p tables.constants.now tables.depths.now },
}

impl Polynomial<'_> {
    // The sixteen bits of the coefficient of z^e: the constants are those of the odd e below p-1 and of p-1, and every other one is 0.
    fn coefficient_at(self, e: u16) -> u16
        ensures { result ≡ bits_of self.entry.m.p (coefficient self.entry.m.p e) }
    {
        let top = self.m.p - 1;
        if e == top || e < top && e % 2 == 1 {
            return self.tables.constants[usize::from(e / 2)];
        }
        0
    }

    // The terms of the exponents o + 1 to o + step, divided by z^o: a piece that does not split. The node holds their sum, if there is one.
    fn put_terms(self, out: &mut Writer, o: u16) -> Option<Node>
        requires room { HasRoom out.old (length (terms_from self.m.p self.step self.z (coefficient self.m.p) self.step o 1 out.old.pen.next none).gates) }
        requires bounded { o + self.step ≤ 2 * byte_values }
        ensures wrote { Writes out.old (terms_from self.entry.m.p self.entry.step self.entry.z (coefficient self.entry.m.p) self.entry.step o 1 out.old.pen.next none).gates out.new }
        ensures sums { sum_is result ≡ (terms_from self.entry.m.p self.entry.step self.entry.z (coefficient self.entry.m.p) self.entry.step o 1 out.old.pen.next none).sum }
    {
        let mut sum = None;
        for e in 1..self.step + 1 {
            let power = self.tables.power_at(self.m.p, self.z, e);
            let bits = self.coefficient_at(o + e);
            sum = next_term(out, sum, power, bits);
        }
        sum
    }

    // The power z^(step·2^i), at which a piece of level i + 1 splits: i squares after z^step.
    fn split_power(self, i: u16) -> Node
        requires { i < 2 * byte_values }
        ensures { (node_is result ≡ split_node self.entry.z self.entry.step i) × (result.depth < most_gates) }
    {
        let first = self.tables.power_at(self.m.p, self.z, self.step);
        Node {
            gate: first.gate + i,
            depth: first.depth + i,
        }
    }

    // A piece of a level: the terms of the exponents o + 1 to o + span, divided by z^o, where span is step·2^level. The node holds their sum,
    // if there is one.
    pub fn put_piece(self, out: &mut Writer, level: u16, o: u16, span: u16) -> Option<Node>
        requires room { HasRoom out.old (length (piece self.m.p self.step self.z (coefficient self.m.p) level o out.old.pen.next).gates) }
        requires spanned { Spanned self.step level o span }
        ensures wrote { Writes out.old (piece self.entry.m.p self.entry.step self.entry.z (coefficient self.entry.m.p) level o out.old.pen.next).gates out.new }
        ensures sums { sum_is result ≡ (piece self.entry.m.p self.entry.step self.entry.z (coefficient self.entry.m.p) level o out.old.pen.next).sum }
    {
        if level == 0 {
            return self.put_terms(out, o);
        }
        let below = level - 1;
        let half = span / 2;
        let low = self.put_piece(out, below, o, half);
        let high = self.put_piece(out, below, o + half, half);
        let power = self.split_power(below);
        put_last(out, power, low, high)
    }
}

// The term of a power, added to the sum so far; where its constant is 0 nothing is written.
fn next_term(out: &mut Writer, sum: Option<Node>, power: Node, bits: u16) -> Option<Node>
    requires { HasRoom out.old (length (next_of out.old.pen.next sum power bits).gates) }
    ensures wrote { Writes out.old (next_of out.old.pen.next sum power bits).gates out.new }
    ensures sums { sum_is result ≡ (next_of out.old.pen.next sum power bits).sum }
{
    if bits == 0 {
        return sum;
    }
    if let Some(so_far) = sum {
        return Some(out.add_term(so_far, power, bits));
    }
    let node = Node {
        gate: out.pen.next,
        depth: power.depth,
    };
    out.put(Gate::Scale(power.gate, bits));
    Some(node)
}

// The last gates of a piece that splits at a power, over the sums of its lower and its upper piece.
fn put_last(out: &mut Writer, power: Node, low: Option<Node>, high: Option<Node>) -> Option<Node>
    requires room { HasRoom out.old (length (last_gates (node_is power) out.old.pen.next (sum_is low) (sum_is high))) }
    requires depth_lt_most_gates { (power.depth < most_gates) × Shallow most_gates (sum_is high) }
    ensures wrote { Writes out.old (last_gates (node_is power) out.old.pen.next (sum_is low) (sum_is high)) out.new }
    ensures sums { sum_is result ≡ last_sum (node_is power) out.old.pen.next (sum_is low) (sum_is high) }
{
    let Some(upper) = high else {
        return low;
    };
    let product = out.multiply(power, upper);
    let Some(lower) = low else {
        return Some(product);
    };
    let node = Node {
        gate: out.pen.next,
        depth: lower.depth.max(product.depth),
    };
    out.put(Gate::Add(lower.gate, product.gate));
    Some(node)
}
