// Writing product trees.
#![tactic(auto)]

ghost use Rattle.std.specs.List.{remove};
ghost use Rattle.std.specs.Prelude.{◌≡◌, ◌-◌, ◌≤◌, ◌<◌, length, map, take};
ghost use Rattle.circuit.specs.ProductTree.{choose, product_tree};
ghost use Rattle.tree.specs.Factors.{depths, FirstLeast, Shallow};
ghost use Rattle.writer.specs.Nodes.{node_is};
ghost use Rattle.writer.specs.Pen.{Moved};
ghost use Rattle.writer.specs.Writing.{HasRoom, Writes};

use writer::{Node, Writer};

// The place of the first of the nodes of least depth.
fn first_least(nodes: &[Node]) -> usize
    requires { 1 ≤ length nodes.now }
    ensures { FirstLeast (depths nodes.now) (length nodes.now) result }
{
    let mut least = 0;
    for i in 1..nodes.len() {
        if nodes[i].depth < nodes[least].depth {
            least = i;
        }
    }
    least
}

// Closes the gap at a place: the later ones move down by one.
fn close_gap(nodes: &mut [Node], place: usize)
    requires { place < length nodes.old }
    ensures { take (length nodes.old - 1) nodes.new ≡ remove nodes.old place }
{
    for i in place + 1..nodes.len() {
        nodes[i - 1] = nodes[i];
    }
}

// Takes the factor of least depth out: the others close up, in their order.
fn take_least(nodes: &mut [Node]) -> Node
    requires { 1 ≤ length nodes.old }
    ensures chosen { node_is result ≡ (choose (map node_is nodes.old)).chosen }
    ensures others { map node_is (take (length nodes.old - 1) nodes.new) ≡ (choose (map node_is nodes.old)).others }
{
    let place = first_least(nodes);
    let node = nodes[place];
    close_gap(nodes, place);
    node
}

// The product tree over factors in gate order. It uses them up.
pub fn put_product_tree(out: &mut Writer, nodes: &mut [Node]) -> Node
    requires room { HasRoom out.old (length nodes.old - 1) × (1 ≤ length nodes.old) }
    requires shallow { Shallow (length nodes.old) (map node_is nodes.old) }
    ensures wrote { Writes out.old (product_tree out.old.pen.next (map node_is nodes.old)).gates out.new }
    ensures moves { Moved out.old.pen (length nodes.old - 1) out.new.pen }
    ensures output { node_is result ≡ (product_tree out.old.pen.next (map node_is nodes.old)).output }
{
    for left in (1..nodes.len()).rev() {
        let a = take_least(&mut nodes[..left + 1]);
        let b = take_least(&mut nodes[..left]);
        nodes[left - 1] = out.multiply(a, b);
    }
    nodes[0]
}
