// Equality conditions: the zero test of each digit's difference, and the product tree over the digits.
#![tactic(auto)]

ghost use Rattle.std.specs.Prelude.{◌≡◌, ◌++◌, ◌+◌, ◌-◌, ◌*◌, ◌%◌, ◌^◌, ◌≤◌, ◌<◌, length, map};
ghost use Rattle.field.specs.Bit.{bit};
ghost use Rattle.field.specs.Logarithm.{clog};
ghost use Rattle.digits.specs.Number.{most_digits};
ghost use Rattle.field.specs.Byte.{byte_values};
ghost use Rattle.circuit.specs.Table.{most_gates};
ghost use Rattle.comparison.specs.Bits.{bits};
ghost use Rattle.comparison.specs.Difference.{difference};
ghost use Rattle.comparison.specs.Condition.{HasSlots};
ghost use Rattle.comparison.specs.Digits.{equality_digit_size, equality_digits};
ghost use Rattle.comparison.specs.EqualityDigit.{zero_chain, zero_gates};
ghost use Rattle.comparison.specs.Relation.{Equal};
ghost use Rattle.comparison.specs.Tests.{digit_depth, equality_test};
ghost use Rattle.comparison.specs.Writing.{equality_factors, equality_segment};
ghost use Rattle.writer.specs.Nodes.{node_is};
ghost use Rattle.writer.specs.Pen.{Moved};
ghost use Rattle.writer.specs.Leaves.{Leaves};
ghost use Rattle.writer.specs.Writing.{HasRoom, Writes};
ghost use Rattle.equality.specs.Collecting.{product_at, collected_by, later_bits};
ghost use Rattle.equality.specs.Slots.{equality_condition};

use arithmetic::Modulus;
use writer::{Gate, Node, Slots, Writer};

// The power at the first set bit of t, and the bits of t above it.
#[derive(Clone, Copy, Debug, PartialEq, Eq)]
struct Squared {
    power: Node,
    rest: u16,
}

// Squares z up to the first set bit of t. Bit 0 is not set: p is odd.
fn put_squares(out: &mut Writer, z: u16, t: u16) -> Squared
    requires { HasRoom out.old (length (zero_chain (bits t) out.old.pen.next z)) × (1 ≤ t) × (t % 2 ≡ 0) × (t < byte_values) }
    ensures leaves { Leaves out.old (zero_chain (bits t) out.old.pen.next z) out.new (later_bits out.new.pen.next result.power result.rest) }
    ensures deepens { 2 ^ result.power.depth * (2 * result.rest + 1) ≡ t }
{
    let mut running = Node { gate: z, depth: 0 };
    let mut rest = t / 2;
    while rest % 2 == 0 {
        running = out.multiply(running, running);
        rest = rest / 2;
    }
    Squared {
        power: out.multiply(running, running),
        rest: rest / 2,
    }
}

// At a set bit the product of the collected power and the running one; at another the collected power as it is.
fn collect(out: &mut Writer, set: bool, collected: Node, running: Node) -> Node
    requires { HasRoom out.old (bit set) × (collected.depth < most_gates) × (running.depth < most_gates) }
    ensures wrote { Writes out.old (product_at set collected.gate running.gate) out.new }
    ensures moves { Moved out.old.pen (bit set) out.new.pen }
    ensures deepens { node_is result ≡ collected_by set out.old.pen.next (node_is collected) (node_is running) }
{
    if set {
        return out.multiply(collected, running);
    }
    collected
}

// Collects the power at the first set bit and those at the later ones; then FLIP.
fn put_collected(out: &mut Writer, first: Node, later: u16) -> Node
    requires { HasRoom out.old (length (later_bits out.old.pen.next first later)) × (2 ^ first.depth * (2 * later + 1) < byte_values) }
    ensures wrote { Writes out.old (later_bits out.old.pen.next first later) out.new }
    ensures deepens { (result.gate + 1 ≡ out.new.pen.next) × (result.depth ≡ clog (2 ^ first.depth * (2 * later + 1))) }
{
    let mut collected = first;
    let mut running = first;
    let mut rest = later;
    while 0 < rest {
        running = out.multiply(running, running);
        collected = collect(out, rest % 2 == 1, collected, running);
        rest = rest / 2;
    }
    let gate = out.pen.next;
    let depth = collected.depth;
    out.put(Gate::Flip(collected.gate));
    Node { gate, depth }
}

// 1 - z^(p-1) of the gate z.
pub fn put_zero_test(out: &mut Writer, z: u16, modulus: Modulus) -> Node
    requires { HasRoom out.old (equality_test modulus.p).count }
    ensures wrote { Writes out.old (zero_chain (bits (modulus.p - 1)) out.old.pen.next z) out.new }
    ensures moves { Moved out.old.pen (equality_test modulus.p).count out.new.pen }
    ensures deepens { (result.gate + 1 ≡ out.new.pen.next) × (result.depth ≡ digit_depth modulus.p) }
{
    let first = put_squares(out, z, modulus.p - 1);
    put_collected(out, first.power, first.rest)
}

// One digit: the difference and its zero test.
fn put_equality_digit(out: &mut Writer, modulus: Modulus, left: u16, right: u16) -> Node
    requires { HasRoom out.old (equality_digit_size modulus.p) }
    ensures wrote { Writes out.old (difference Equal left right out.old.pen.next ++ zero_gates modulus.p out.old.pen.next) out.new }
    ensures moves { Moved out.old.pen (equality_digit_size modulus.p) out.new.pen }
    ensures deepens { (result.gate + 1 ≡ out.new.pen.next) × (result.depth ≡ digit_depth modulus.p) }
{
    out.put_difference(false, left, right);
    let z = out.pen.next - 1;
    put_zero_test(out, z, modulus)
}

// The digits of an equality condition; their outputs go to nodes.
fn put_equality_digits(out: &mut Writer, modulus: Modulus, slots: Slots, nodes: &mut [Node])
    requires room { HasRoom out.old (length (equality_digits modulus.p (equality_condition slots) out.old.pen.next slots.count 0)) }
    requires slots { HasSlots most_digits most_digits (equality_condition slots) }
    requires one_node_each { length nodes.old ≡ slots.count }
    ensures wrote { Writes out.old (equality_digits modulus.p (equality_condition slots) out.old.pen.next slots.count 0) out.new }
    ensures outputs { map node_is nodes.new ≡ equality_factors modulus.p out.old.pen.next slots.count 0 }
{
    for j in 0..slots.count {
        nodes[usize::from(j)] = put_equality_digit(out, modulus, slots.left + j, slots.right + j);
    }
}

// An equality condition but for its last FLIP: its digits, then their product tree.
pub fn put_equality(out: &mut Writer, modulus: Modulus, slots: Slots) -> Node
    requires room { HasRoom out.old (length (equality_segment modulus.p (equality_condition slots) out.old.pen.next).gates) }
    requires slots { HasSlots most_digits most_digits (equality_condition slots) }
    ensures wrote { Writes out.old (equality_segment modulus.p (equality_condition slots) out.old.pen.next).gates out.new }
    ensures output { node_is result ≡ (equality_segment modulus.p (equality_condition slots) out.old.pen.next).output }
{
    let mut nodes = [Node { gate: 0, depth: 0 }; digits::MOST_DIGITS];
    let outputs = &mut nodes[..usize::from(slots.count)];
    put_equality_digits(out, modulus, slots, outputs);
    tree::put_product_tree(out, outputs)
}
