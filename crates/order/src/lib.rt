// Writing order conditions: the tests of a digit over the powers of its difference or by a step size, and the joining of digits.
#![tactic(auto)]

ghost use Rattle.std.specs.Prelude.{◌≡◌, [], ◌∷◌, ◌+◌, ◌-◌, ◌≤◌, ◌<◌, length};
ghost use Rattle.field.specs.Polynomials.{order_exponents};
ghost use Rattle.digits.specs.Number.{most_digits};
ghost use Rattle.circuit.specs.Gate.{Flip};
ghost use Rattle.circuit.specs.Table.{most_gates};
ghost use Rattle.comparison.specs.Condition.{HasSlots};
ghost use Rattle.comparison.specs.Digits.{unless_lowest, order_tests, order_digit};
ghost use Rattle.comparison.specs.OrderDigit.{terms};
ghost use Rattle.comparison.specs.Tests.{less_node, equal_node, digit_depth, base_tests};
ghost use Rattle.comparison.specs.Writing.{order_segment};
ghost use Rattle.step.specs.Digit.{tests_by, Suits};
ghost use Rattle.writer.specs.Nodes.{node_is};
ghost use Rattle.writer.specs.Pen.{Moved};
ghost use Rattle.writer.specs.Writing.{HasRoom, Writes};
ghost use Rattle.order.specs.TestsListed.{TestsListed};
ghost use Rattle.powers.specs.Prepared.{Prepared};
ghost use Rattle.order.specs.Slots.{order_condition, digits_by};

use arithmetic::Modulus;
use powers::OrderLists;
use writer::{Gate, Node, Slots, Tests, Writer};

// The tests of order digits: of a modulus, by a step size or, where that is 0, document 01's, over prepared tables.
#[derive(Clone, Copy, Debug, PartialEq, Eq)]
pub struct OrderTests<'a> {
    pub m: Modulus,
    pub step: u16,
    pub tables: OrderLists<'a>,
    ghost suits: { Suits m.p step },
    ghost prepared: { Prepared m.p tables.constants.now tables.depths.now },
}

impl OrderTests<'_> {
    // The terms: a SCALE of each power that has a constant, and their sum. Term i is of z^(2i+1), and the last one of z^(p-1).
    fn put_terms(self, out: &mut Writer, z: u16) -> Node
        requires { HasRoom out.old self.m.p × (z ≤ most_gates) }
        ensures wrote { Writes out.old (terms self.entry.m.p z out.old.pen.next (order_exponents self.entry.m.p)) out.new }
        ensures moves { Moved out.old.pen self.entry.m.p out.new.pen }
        ensures deepens { (result.gate ≡ out.old.pen.next + (self.entry.m.p - 1)) × (result.depth ≡ digit_depth self.entry.m.p) }
    {
        let p = self.m.p;
        let tables = self.tables;
        let half = (p - 1) / 2;
        let mut sum = Node {
            gate: out.pen.next,
            depth: tables.depths[0],
        };
        out.put(Gate::Scale(z, tables.constants[0]));
        for i in 1..half {
            let power = tables.power_at(p, z, 2 * i + 1);
            let constant = tables.constants[usize::from(i)];
            sum = out.add_term(sum, power, constant);
        }
        let top = tables.power_at(p, z, p - 1);
        let constant = tables.constants[usize::from(half)];
        out.add_term(sum, top, constant)
    }

    // Document 01's tests of digit number j, whose difference is written from gate number k on: the powers and the terms, and E.
    fn put_base_tests(self, out: &mut Writer, k: u16, j: u16) -> Tests
        requires room { HasRoom out.old (length (order_tests (base_tests self.m.p) j k)) }
        requires next_value { out.old.pen.next ≡ k + 3 }
        ensures wrote { Writes out.old (order_tests (base_tests self.entry.m.p) j k) out.new }
        ensures less { node_is result.less ≡ less_node (base_tests self.entry.m.p) k }
        ensures equal { 0 < j → node_is result.equal ≡ equal_node (base_tests self.entry.m.p) k }
    {
        let z = k + 2;
        // A writer of its own, so that the pen need not be stored and read again at each of the many gates.
        let mut own = Writer {
            table: &mut *out.table,
            pen: out.pen,
        };
        powers::put_powers(&mut own, z, self.m);
        let less = self.put_terms(&mut own, z);
        let top = self.tables.power_at(self.m.p, z, self.m.p - 1);
        let equal = put_equal(&mut own, j, top);
        out.pen = own.pen;
        Tests { less, equal }
    }

    // The tests of digit number j, whose difference is written from gate number k on. The lowest digit has no E: there it is any node.
    fn put_tests(self, out: &mut Writer, k: u16, j: u16) -> Tests
        requires room { HasRoom out.old (length (order_tests (tests_by self.m.p self.step) j k)) }
        requires next_value { out.old.pen.next ≡ k + 3 }
        ensures wrote { Writes out.old (order_tests (tests_by self.entry.m.p self.entry.step) j k) out.new }
        ensures less { node_is result.less ≡ less_node (tests_by self.entry.m.p self.entry.step) k }
        ensures equal { 0 < j → node_is result.equal ≡ equal_node (tests_by self.entry.m.p self.entry.step) k }
    {
        if self.step == 0 {
            return self.put_base_tests(out, k, j);
        }
        steps::put_step_tests(out, k, self.m, self.step, j, self.tables)
    }

    // Digit number j: its difference and its tests.
    fn put_digit(self, out: &mut Writer, backward: bool, slots: Slots, j: u16) -> Tests
        requires room { HasRoom out.old (length (order_digit (tests_by self.m.p self.step) (order_condition backward slots) j out.old.pen.next)) }
        requires slots { (slots.left + j < most_digits) × (slots.right + j < most_digits) }
        ensures wrote { Writes out.old (order_digit (tests_by self.entry.m.p self.entry.step) (order_condition backward slots) j out.old.pen.next) out.new }
        ensures less { node_is result.less ≡ less_node (tests_by self.entry.m.p self.entry.step) out.old.pen.next }
        ensures equal { 0 < j → node_is result.equal ≡ equal_node (tests_by self.entry.m.p self.entry.step) out.old.pen.next }
    {
        let k = out.pen.next;
        out.put_difference(backward, slots.left + j, slots.right + j);
        self.put_tests(out, k, j)
    }

    // The digits of an order condition, low to high. Their tests go to the slice, which has a place for each.
    fn put_digits(self, out: &mut Writer, backward: bool, slots: Slots, tests: &mut [Tests])
        requires room { HasRoom out.old (length (digits_by (tests_by self.m.p self.step) (order_condition backward slots) out.old.pen.next)) }
        requires slots { HasSlots most_digits most_digits (order_condition backward slots) }
        requires one_each { length tests.old ≡ slots.count }
        ensures wrote { Writes out.old (digits_by (tests_by self.entry.m.p self.entry.step) (order_condition backward slots) out.old.pen.next) out.new }
        ensures fills { TestsListed (tests_by self.entry.m.p self.entry.step) out.old.pen.next slots.count tests.new }
    {
        for j in 0..slots.count {
            tests[usize::from(j)] = self.put_digit(out, backward, slots, j);
        }
    }

    // An order condition but for its last FLIP: its digits, then their joining. The node is L of the whole.
    pub fn put_order(self, out: &mut Writer, backward: bool, slots: Slots) -> Node
        requires room { HasRoom out.old (length (order_segment (tests_by self.m.p self.step) (order_condition backward slots) out.old.pen.next).gates) }
        requires slots { HasSlots most_digits most_digits (order_condition backward slots) }
        ensures wrote { Writes out.old (order_segment (tests_by self.entry.m.p self.entry.step) (order_condition backward slots) out.old.pen.next).gates out.new }
        ensures output { node_is result ≡ (order_segment (tests_by self.entry.m.p self.entry.step) (order_condition backward slots) out.old.pen.next).output }
    {
        let none = Node { gate: 0, depth: 0 };
        let mut all = [Tests {
            less: none,
            equal: none,
        }; digits::MOST_DIGITS];
        let tests = &mut all[..usize::from(slots.count)];
        self.put_digits(out, backward, slots, tests);
        joining::join_digits(out, tests)
    }
}

// E, of every digit but the lowest: the digit is number j, and top is z^(p-1).
fn put_equal(out: &mut Writer, j: u16, top: Node) -> Node
    requires { HasRoom out.old (length (unless_lowest j (Flip top.gate ∷ []))) }
    ensures wrote { Writes out.old (unless_lowest j (Flip top.gate ∷ [])) out.new }
    ensures output { (j ≡ 0 → node_is result ≡ node_is top) × (0 < j → (result.gate ≡ out.old.pen.next) × (result.depth ≡ top.depth)) }
{
    let lowest = j == 0;
    if lowest {
        return top;
    }
    let gate = out.pen.next;
    let depth = top.depth;
    out.put(Gate::Flip(top.gate));
    Node { gate, depth }
}
