// Order joining: L and E of digits, or of runs of digits, into one.
#![tactic(auto)]

ghost use Rattle.std.specs.Prelude.{◌≡◌, [], ◌∷◌, ◌++◌, suc, ◌+◌, ◌-◌, ◌*◌, ◌<◌, length};
ghost use Rattle.circuit.specs.Gate.{Mul};
ghost use Rattle.circuit.specs.Segment.{times};
ghost use Rattle.circuit.specs.Table.{most_gates};
ghost use Rattle.comparison.specs.Joining.{less_join, joined_less};
ghost use Rattle.writer.specs.Nodes.{node_is};
ghost use Rattle.writer.specs.Pen.{Moved};
ghost use Rattle.writer.specs.Writing.{HasRoom, Writes};
ghost use Rattle.joining.specs.Listed.{listed_run, listed_whole, Joinable, UpperJoinable, ShallowTests};

use writer::{Gate, Node, Tests, Writer};

// L of a join: the high part is smaller, or the high parts are equal and the low part is smaller.
fn put_less(out: &mut Writer, low: Node, high: Tests) -> Node
    requires { HasRoom out.old 2 × (low.depth < most_gates) × (high.equal.depth < most_gates) }
    ensures wrote { Writes out.old (less_join out.old.pen.next (node_is low) (node_is high.less) (node_is high.equal)) out.new }
    ensures joins { node_is result ≡ joined_less out.old.pen.next (node_is low) (node_is high.less) (node_is high.equal) }
{
    let both = out.multiply(high.equal, low);
    let gate = out.pen.next;
    let depth = high.less.depth.max(both.depth);
    out.put(Gate::Add(high.less.gate, both.gate));
    Node { gate, depth }
}

// The join of two runs that lack digit 0, after the gates of both.
fn put_join(out: &mut Writer, low: Tests, high: Tests) -> Tests
    requires { HasRoom out.old 3 × ShallowTests low × ShallowTests high }
    ensures wrote { Writes out.old (less_join out.old.pen.next (node_is low.less) (node_is high.less) (node_is high.equal) ++ (Mul low.equal.gate high.equal.gate ∷ [])) out.new }
    ensures less { node_is result.less ≡ joined_less out.old.pen.next (node_is low.less) (node_is high.less) (node_is high.equal) }
    ensures equal { node_is result.equal ≡ times (suc (suc out.old.pen.next)) (node_is low.equal) (node_is high.equal) }
{
    let less = put_less(out, low.less, high);
    let equal = out.multiply(low.equal, high.equal);
    Tests { less, equal }
}

// A run of digits that lacks digit 0, and so has E.
fn join_run(out: &mut Writer, tests: &[Tests]) -> Tests
    requires joinable { UpperJoinable tests.now }
    requires room { HasRoom out.old (3 * (length tests.now - 1)) }
    ensures wrote { Writes out.old (listed_run tests.now out.old.pen.next).gates out.new }
    ensures moves { Moved out.old.pen (3 * (length tests.now - 1)) out.new.pen }
    ensures less { node_is result.less ≡ (listed_run tests.now out.old.pen.next).less }
    ensures equal { node_is result.equal ≡ (listed_run tests.now out.old.pen.next).equal }
{
    if tests.len() == 1 {
        return tests[0];
    }
    let (low, high) = tests.split_at(tests.len() / 2);
    let low = join_run(out, low);
    let high = join_run(out, high);
    put_join(out, low, high)
}

// The run of the lowest digits, which has no E since the lowest digit has none. The node is its L.
fn join_lowest(out: &mut Writer, tests: &[Tests]) -> Node
    requires joinable { Joinable tests.now }
    requires room { HasRoom out.old (length (listed_whole tests.now out.old.pen.next).gates) }
    ensures wrote { Writes out.old (listed_whole tests.now out.old.pen.next).gates out.new }
    ensures output { node_is result ≡ (listed_whole tests.now out.old.pen.next).output }
{
    if tests.len() == 1 {
        return tests[0].less;
    }
    let (low, high) = tests.split_at(tests.len() / 2);
    let low = join_lowest(out, low);
    let high = join_run(out, high);
    put_less(out, low, high)
}

// The run of all digits. A single one needs no joining, and no call of a function that calls itself.
pub fn join_digits(out: &mut Writer, tests: &[Tests]) -> Node
    requires joinable { Joinable tests.now }
    requires room { HasRoom out.old (length (listed_whole tests.now out.old.pen.next).gates) }
    ensures wrote { Writes out.old (listed_whole tests.now out.old.pen.next).gates out.new }
    ensures output { node_is result ≡ (listed_whole tests.now out.old.pen.next).output }
{
    if tests.len() == 1 {
        return tests[0].less;
    }
    join_lowest(out, tests)
}
