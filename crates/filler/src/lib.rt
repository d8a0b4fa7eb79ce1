// A card filled in condition by condition: begin, add and finish. They change the build's state that is lent to them, and they read no byte
// of the lent table.
#![tactic(auto)]

ghost use Rattle.std.specs.Prelude.{◌≡◌, true, IfErr};
ghost use Rattle.answer.specs.Outcome.{accepted};
ghost use Rattle.answer.specs.Report.{report_of, report_answer};
ghost use Rattle.answer.specs.Settled.{settled_answer};
ghost use Rattle.comparison.specs.Relation.{is_order};
ghost use Rattle.filling.specs.Filling.{beginning, added_to, adding_condition, adding, finishing};
ghost use Rattle.powers.specs.Prepared.{Prepared};
ghost use Rattle.relations.specs.Relations.{relation_is};
ghost use Rattle.state.specs.State.{state_is};
ghost use Rattle.filler.specs.Steps.{Finishable, condition_next, added_bytes, Takes, Addable};

use answer::{Refusal, Report};
use arithmetic::Modulus;
use card::Form;
use powers::OrderTables;
use records::{LEAST_WEIGHT, MOST_WEIGHT, RECORD, SlotCounts};
use relations::Relation;
use state::BuildState;
use writer::{Slots, Writer, Written};

// Starts a build afresh, also over an open one: the head of a table of no gates, or 3, 4 or 11.
pub fn begin(state: &mut BuildState, prime: u8, weight: u8, table: &mut [u8]) -> Result<(), Refusal>
    ensures answers { settled_answer result ≡ (beginning (state_is state.old) prime weight table.old).answer }
    ensures next { state_is state.new ≡ (beginning (state_is state.old) prime weight table.old).state }
    ensures kept { IfErr result (λ why. state.new ≡ state.old) }
    ensures leaves { table.new ≡ (beginning (state_is state.old) prime weight table.old).lent }
{
    if !arithmetic::is_listed(prime) {
        return Err(Refusal::PrimeNotListed);
    }
    if records::outside(usize::from(weight), LEAST_WEIGHT, MOST_WEIGHT) {
        return Err(Refusal::WeightOutOfRange);
    }
    if table.len() < RECORD {
        return Err(Refusal::TableBufferTooSmall);
    }
    writer::put_head(table, prime, weight, SlotCounts::Both(0), 0);
    *state = BuildState::start(prime, weight);
    Ok(())
}

// Writes the product tree over the outputs under a head that tells its gates too.
fn write_tree(state: &BuildState, table: &mut [u8]) -> Report
    requires { Finishable (state_is state.now) state.now.count table.old }
    ensures answers { accepted (report_of result) ≡ (finishing (state_is state.now) table.old).answer }
    ensures leaves { table.new ≡ (finishing (state_is state.now) table.old).lent }
{
    let last = state.gates + u16::from(state.count) - 1;
    writer::put_head(
        table,
        state.prime,
        state.weight,
        SlotCounts::Both(state.slots),
        last,
    );
    let count = usize::from(state.count);
    let mut outputs = state.outputs;
    let mut out = Writer {
        table,
        pen: state.pen(),
    };
    let node = tree::put_product_tree(&mut out, &mut outputs[..count]);
    let pen = out.pen;
    builder::report_of(Written { pen, node }, state.weight)
}

// Ends the table with the product tree over the conditions' outputs and closes the build, or 31 or 11.
pub fn finish(state: &mut BuildState, table: &mut [u8]) -> Result<Report, Refusal>
    ensures answers { report_answer result ≡ (finishing (state_is state.old) table.old).answer }
    ensures next { state_is state.new ≡ (finishing (state_is state.old) table.old).state }
    ensures kept { IfErr result (λ why. state.new ≡ state.old) }
    ensures leaves { table.new ≡ (finishing (state_is state.old) table.old).lent }
{
    if state.is_closed() {
        return Err(Refusal::NoOpenBuild);
    }
    let count = usize::from(state.count);
    let is_empty = count == 0;
    if is_empty {
        return Err(Refusal::NoOpenBuild);
    }
    if table.len() < RECORD * (usize::from(state.gates) + count) {
        return Err(Refusal::TableBufferTooSmall);
    }
    let told = write_tree(state, table);
    *state = BuildState::none();
    Ok(told)
}

// What order digits go by, where the relation is one that asks for it.
fn tables_for(relation: Relation, m: Modulus) -> OrderTables
    ensures { (is_order (relation_is relation) ≡ true) → Prepared m.p result.constants result.depths }
{
    let mut tables = OrderTables::new();
    if relation.is_order() {
        tables.prepare(m);
    }
    tables
}

// Writes a condition of so many gates, on the next slots of both sides, under a head that tells its slots and gates too.
fn write_condition(
    state: &mut BuildState,
    relation: Relation,
    digits: u8,
    size: u16,
    table: &mut [u8],
)
    requires { Addable (state_is state.old) state.old.count (condition_next (state_is state.old) (relation_is relation) digits) size table.old }
    ensures next { state_is state.new ≡ added_to (state_is state.old) (condition_next (state_is state.old) (relation_is relation) digits) }
    ensures leaves { table.new ≡ added_bytes (state_is state.old) (condition_next (state_is state.old) (relation_is relation) digits) table.old }
{
    let m = Modulus {
        p: u16::from(state.prime),
    };
    let slot = u16::from(state.slots);
    let slots = Slots {
        count: u16::from(digits),
        left: slot,
        right: slot,
    };
    let tables = tables_for(relation, m);
    writer::put_head(
        table,
        state.prime,
        state.weight,
        SlotCounts::Both(state.slots + digits),
        state.gates + size,
    );
    let mut out = Writer {
        table,
        pen: state.pen(),
    };
    let node = condition::put_condition(&mut out, m, 0, relation, slots, tables.lists());
    let pen = out.pen;
    state.grow(digits, Written { pen, node });
}

// Adds a condition of a record that was read, or 10 or 11.
fn add_condition(
    state: &mut BuildState,
    relation: Relation,
    digits: u8,
    table: &mut [u8],
) -> Result<(), Refusal>
    requires { Takes (state_is state.old) state.old.count digits }
    ensures answers { settled_answer result ≡ (adding_condition (state_is state.old) table.old (condition_next (state_is state.old) (relation_is relation) digits)).answer }
    ensures next { state_is state.new ≡ (adding_condition (state_is state.old) table.old (condition_next (state_is state.old) (relation_is relation) digits)).state }
    ensures kept { IfErr result (λ why. state.new ≡ state.old) }
    ensures leaves { table.new ≡ (adding_condition (state_is state.old) table.old (condition_next (state_is state.old) (relation_is relation) digits)).lent }
{
    if digits::MOST_DIGITS < usize::from(state.slots) + usize::from(digits) {
        return Err(Refusal::TooManyDigits);
    }
    let size = forecast::condition_size(relation, digits, state.prime);
    if table.len() < RECORD * (usize::from(state.gates) + usize::from(size) + 1) {
        return Err(Refusal::TableBufferTooSmall);
    }
    write_condition(state, relation, digits, size, table);
    Ok(())
}

// Adds the condition of a record after those so far, or the first rule that is broken: 31, 30, 7, 2, 8, 9, 10 or 11.
pub fn add(state: &mut BuildState, bytes: &[u8], table: &mut [u8]) -> Result<(), Refusal>
    ensures answers { settled_answer result ≡ (adding (state_is state.old) bytes.now table.old).answer }
    ensures next { state_is state.new ≡ (adding (state_is state.old) bytes.now table.old).state }
    ensures kept { IfErr result (λ why. state.new ≡ state.old) }
    ensures leaves { table.new ≡ (adding (state_is state.old) bytes.now table.old).lent }
{
    if state.is_closed() {
        return Err(Refusal::NoOpenBuild);
    }
    let is_full = card::MOST_CONDITIONS <= usize::from(state.count);
    if is_full {
        return Err(Refusal::TooManyConditions);
    }
    if bytes.len() != card::PLAIN_SIZE {
        return Err(Refusal::CardLength);
    }
    let condition = card::read_record(bytes, Form::Plain, state.prime, state.slots)?;
    add_condition(state, condition.relation, condition.digits, table)
}
