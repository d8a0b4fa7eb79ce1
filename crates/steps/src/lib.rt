// Writing the tests of an order digit for a step size: L by powers and pieces, and E by the binary chain.
#![tactic(auto)]

ghost use Rattle.std.specs.Prelude.{◌≡◌, ◌+◌, ◌-◌, ◌*◌, ◌^◌, ◌≤◌, ◌<◌, length};
ghost use Rattle.field.specs.Byte.{byte_values};
ghost use Rattle.comparison.specs.Bits.{bits};
ghost use Rattle.comparison.specs.Digits.{unless_lowest, order_tests};
ghost use Rattle.comparison.specs.EqualityDigit.{zero_chain};
ghost use Rattle.comparison.specs.Tests.{less_node, equal_node, digit_depth};
ghost use Rattle.step.specs.Digit.{step_gates, step_less, step_tests, IsStep};
ghost use Rattle.step.specs.Powers.{top_level, squares_from};
ghost use Rattle.writer.specs.Nodes.{node_is};
ghost use Rattle.writer.specs.Pen.{Moved};
ghost use Rattle.writer.specs.Writing.{HasRoom, Writes};
ghost use Rattle.powers.specs.Prepared.{Provided};

use arithmetic::Modulus;
use pieces::Polynomial;
use powers::OrderLists;
use writer::{Gate, Node, Tests, Writer};

// How often a step size is doubled until it reaches p-1, and what it is then.
#[derive(Clone, Copy, Debug, PartialEq, Eq)]
struct Doubled {
    count: u16,
    span: u16,
}

// The level of the whole polynomial, and how many exponents a piece of that level has.
fn levels(m: Modulus, step: u16) -> Doubled
    requires { IsStep m.p step }
    ensures { (result.count ≡ top_level m.p step) × (result.span ≡ step * 2 ^ result.count) × (result.span ≤ 2 * byte_values) }
{
    let top = m.p - 1;
    let mut count: u16 = 0;
    let mut span = step;
    while span < top {
        span = 2 * span;
        count += 1;
    }
    Doubled { count, span }
}

// Squares one after the other, n of them: the first is that of the gate before the pen.
fn put_squares(out: &mut Writer, n: u16)
    requires { HasRoom out.old n × (1 ≤ out.old.pen.next) }
    ensures wrote { Writes out.old (squares_from n (out.old.pen.next - 1)) out.new }
    ensures moves { Moved out.old.pen n out.new.pen }
{
    for _ in 0..n {
        let gate = out.pen.next - 1;
        out.put(Gate::Mul(gate, gate));
    }
}

// L of the gate z before the pen: z^2 to z^step, the squares up to the highest split, and the whole polynomial as one piece.
pub fn put_step_less(out: &mut Writer, m: Modulus, step: u16, tables: OrderLists<'_>) -> Node
    requires provided { Provided out.old (step_gates m.p step (out.old.pen.next - 1)) m.p tables.constants.now tables.depths.now }
    requires le_next { (1 ≤ out.old.pen.next) × IsStep m.p step }
    ensures wrote { Writes out.old (step_gates m.p step (out.old.pen.next - 1)) out.new }
    ensures output { (result.gate + 1 ≡ out.new.pen.next) × (result.depth ≡ (step_less m.p step).depth) }
{
    let z = out.pen.next - 1;
    let whole = levels(m, step);
    powers::put_low_powers(out, z, step);
    put_squares(out, whole.count - 1);
    let polynomial = Polynomial { m, step, z, tables };
    let sum = polynomial.put_piece(out, whole.count, 0, whole.span);
    let other = Node { gate: z, depth: 0 };
    sum.unwrap_or(other)
}

// E of the gate z, for every digit but the lowest: the digit is number j.
fn put_step_equal(out: &mut Writer, j: u16, z: u16, m: Modulus) -> Node
    requires { HasRoom out.old (length (unless_lowest j (zero_chain (bits (m.p - 1)) out.old.pen.next z))) }
    ensures wrote { Writes out.old (unless_lowest j (zero_chain (bits (m.p - 1)) out.old.pen.next z)) out.new }
    ensures output { 0 < j → (result.gate + 1 ≡ out.new.pen.next) × (result.depth ≡ digit_depth m.p) }
{
    if j == 0 {
        return Node { gate: z, depth: 0 };
    }
    equality::put_zero_test(out, z, m)
}

// The tests of digit number j for a step size, over the difference whose first gate is number k: L, and E. The lowest digit has no E: there
// it is any node.
pub fn put_step_tests(
    out: &mut Writer,
    k: u16,
    m: Modulus,
    step: u16,
    j: u16,
    tables: OrderLists<'_>,
) -> Tests
    requires provided { Provided out.old (order_tests (step_tests m.p step) j k) m.p tables.constants.now tables.depths.now }
    requires next_value { (out.old.pen.next ≡ k + 3) × IsStep m.p step }
    ensures wrote { Writes out.old (order_tests (step_tests m.p step) j k) out.new }
    ensures less { node_is result.less ≡ less_node (step_tests m.p step) k }
    ensures equal { 0 < j → node_is result.equal ≡ equal_node (step_tests m.p step) k }
{
    let less = put_step_less(out, m, step, tables);
    let equal = put_step_equal(out, j, k + 2, m);
    Tests { less, equal }
}
