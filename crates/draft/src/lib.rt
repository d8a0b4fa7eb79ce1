// The table of a card, written whole.
#![tactic(auto)]

ghost use Rattle.std.specs.Prelude.{◌≡◌, map};
ghost use Rattle.writer.specs.Nodes.{node_is};
ghost use Rattle.writer.specs.Writing.{Writes};
ghost use Rattle.query.specs.Form.{Score, question_of};
ghost use Rattle.query.specs.Formulas.{end_size};
ghost use Rattle.card.specs.Conditions.{conditions_of};
ghost use Rattle.card.specs.Parts.{form_is, head_is};
ghost use Rattle.draft.specs.Conditions.{drafted, any_order, Ready, Writable};
ghost use Rattle.draft.specs.Drawing.{Drawable, Draws};
ghost use Rattle.draft.specs.Ending.{end_from, Endable};
ghost use Rattle.tree.specs.Factors.{Shallow};

use arithmetic::Modulus;
use card::{Card, MOST_CONDITIONS, Question};
use condition::put_condition;
use powers::{OrderLists, OrderTables};
use writer::{Gate, Node, Pen, Slots, Writer, Written};

// The prime of a card.
pub fn modulus_of(card: Card<'_>) -> Modulus
    ensures { result.p ≡ card.entry.head.prime }
{
    Modulus {
        p: u16::from(card.head.prime),
    }
}

// The conditions in order, their order digits by a step size or, where that is 0, by document 01's tests. Their outputs go into a list that
// has an entry for each.
fn put_conditions(
    card: Card<'_>,
    step: u16,
    out: &mut Writer,
    tables: OrderLists<'_>,
    outputs: &mut [Node],
)
    requires { Writable card.bytes.now card.head step out.old tables.constants.now tables.depths.now outputs.old }
    ensures wrote { Writes out.old (drafted card.entry.head.prime step (conditions_of card.entry.bytes.now)).gates out.new }
    ensures outputs { map node_is outputs.new ≡ (drafted card.entry.head.prime step (conditions_of card.entry.bytes.now)).outputs }
{
    let m = modulus_of(card);
    for (k, condition) in card.conditions().enumerate() {
        let relation = condition.relation;
        let slots = Slots {
            count: u16::from(condition.digits),
            left: u16::from(condition.left),
            right: u16::from(condition.right),
        };
        outputs[k] = put_condition(out, m, step, relation, slots, tables);
    }
}

// Whether one of the conditions has an order relation.
fn has_order(card: Card<'_>) -> bool
    ensures { result ≡ any_order (conditions_of card.entry.bytes.now) }
{
    card.conditions()
        .any(|condition| condition.relation.is_order())
}

// What order digits go by, which only conditions with an order relation ask for.
pub fn prepare_order(card: Card<'_>) -> OrderTables
    ensures { Ready card.entry.head.prime (conditions_of card.entry.bytes.now) result.constants result.depths }
{
    let mut tables = OrderTables::new();
    if has_order(card) {
        tables.prepare(modulus_of(card));
    }
    tables
}

// The sum of the conditions' outputs, each scaled by the weight of its condition.
fn put_score(card: Card<'_>, out: &mut Writer, outputs: &[Node]) -> Node
    requires endable { Endable card.head (end_size Score card.head.count) out.old outputs.now }
    requires score { question_of (form_is card.head.form) ≡ Score }
    ensures wrote { Writes out.old (end_from Score card.entry.bytes.now card.entry.head out.old.pen outputs.now).gates out.new }
    ensures output { node_is result ≡ (end_from Score card.entry.bytes.now card.entry.head out.old.pen outputs.now).output }
{
    let p = card.head.prime;
    let first = outputs[0];
    let b = constants::bits_of(u16::from(card.weight(0)), p);
    let mut sum = Node {
        gate: out.pen.next,
        depth: first.depth,
    };
    out.put(Gate::Scale(first.gate, b));
    for k in 1..outputs.len() {
        let b = constants::bits_of(u16::from(card.weight(k)), p);
        sum = out.add_term(sum, outputs[k], b);
    }
    sum
}

// What ends the table of a card: the product tree over the conditions' outputs, which uses them up, or their score.
fn put_end(card: Card<'_>, out: &mut Writer, outputs: &mut [Node]) -> Node
    requires endable { Endable card.head (end_size (question_of (form_is card.head.form)) card.head.count) out.old outputs.old }
    requires shallow { Shallow card.head.count (map node_is outputs.old) }
    ensures wrote { Writes out.old (end_from (question_of (form_is card.entry.head.form)) card.entry.bytes.now card.entry.head out.old.pen outputs.old).gates out.new }
    ensures output { node_is result ≡ (end_from (question_of (form_is card.entry.head.form)) card.entry.bytes.now card.entry.head out.old.pen outputs.old).output }
{
    match card.head.form.question() {
        Question::YesOrNo => tree::put_product_tree(out, outputs),
        Question::Score => put_score(card, out, outputs),
    }
}

// Writes the table of a card, of so many gates, its order digits by a step size or, where that is 0, by document 01's tests. What order digits
// go by is lent ready. The node is the table's output.
pub fn write_table(
    card: Card<'_>,
    step: u16,
    count: u16,
    table: &mut [u8],
    tables: OrderLists<'_>,
) -> Written
    requires { Drawable card.bytes.now (head_is card.head) step count table.old tables.constants.now tables.depths.now }
    ensures { Draws card.entry.bytes.now step table.old table.new result }
{
    let mut nodes = [Node { gate: 0, depth: 0 }; MOST_CONDITIONS];
    let outputs = &mut nodes[..usize::from(card.head.count)];
    writer::put_head(
        table,
        card.head.prime,
        card.head.weight,
        card.slot_counts(),
        count,
    );
    let mut out = Writer {
        table,
        pen: Pen::new(),
    };
    put_conditions(card, step, &mut out, tables, outputs);
    let node = put_end(card, &mut out, outputs);
    Written { pen: out.pen, node }
}
