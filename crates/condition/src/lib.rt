// Writing one condition.
#![tactic(auto)]

ghost use Rattle.std.specs.Prelude.{◌≡◌, true, length};
ghost use Rattle.field.specs.Bit.{bit};
ghost use Rattle.digits.specs.Number.{most_digits};
ghost use Rattle.comparison.specs.Condition.{HasSlots};
ghost use Rattle.comparison.specs.Relation.{is_order};
ghost use Rattle.comparison.specs.Writing.{ending, condition_by};
ghost use Rattle.step.specs.Digit.{tests_by, Suits};
ghost use Rattle.powers.specs.Prepared.{Prepared};
ghost use Rattle.writer.specs.Nodes.{node_is};
ghost use Rattle.writer.specs.Pen.{Moved};
ghost use Rattle.writer.specs.Writing.{HasRoom, Writes};
ghost use Rattle.relations.specs.Relations.{relation_is};
ghost use Rattle.condition.specs.Condition.{condition_is};

use arithmetic::Modulus;
use order::OrderTests;
use powers::OrderLists;
use relations::Relation;
use writer::{Gate, Node, Slots, Writer};

// The FLIP of a condition's output at its end, or the output as it is.
fn put_ending(out: &mut Writer, output: Node, flipped: bool) -> Node
    requires { HasRoom out.old (bit flipped) }
    ensures wrote { Writes out.old (ending flipped (node_is output) out.old.pen.next).gates out.new }
    ensures moves { Moved out.old.pen (bit flipped) out.new.pen }
    ensures output { node_is result ≡ (ending flipped (node_is output) out.old.pen.next).output }
{
    if flipped {
        let gate = out.pen.next;
        let depth = output.depth;
        out.put(Gate::Flip(output.gate));
        return Node { gate, depth };
    }
    output
}

// One condition, from the next free gate number on, its order digits by a step size or, where that is 0, by document 01's tests. The node
// is its output.
pub fn put_condition(
    out: &mut Writer,
    m: Modulus,
    step: u16,
    relation: Relation,
    slots: Slots,
    tables: OrderLists<'_>,
) -> Node
    requires room { HasRoom out.old (length (condition_by (tests_by m.p step) m.p (condition_is relation slots) out.old.pen.next).gates) }
    requires suits { Suits m.p step × HasSlots most_digits most_digits (condition_is relation slots) }
    requires prepared { (is_order (relation_is relation) ≡ true) → Prepared m.p tables.constants.now tables.depths.now }
    ensures wrote { Writes out.old (condition_by (tests_by m.p step) m.p (condition_is relation slots) out.old.pen.next).gates out.new }
    ensures output { node_is result ≡ (condition_by (tests_by m.p step) m.p (condition_is relation slots) out.old.pen.next).output }
{
    let flipped = relation.is_flipped();
    if relation.is_order() {
        let backward = relation.is_backward();
        let tests = OrderTests { m, step, tables };
        let order = tests.put_order(out, backward, slots);
        return put_ending(out, order, flipped);
    }
    let equality = equality::put_equality(out, m, slots);
    put_ending(out, equality, flipped)
}
