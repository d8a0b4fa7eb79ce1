// The operations for programs in Rust and C, over numbers and bytes. Each but Trim answers 0 on success
// and on success only, else the number of its refusal, which leaves every lent number and byte as it
// was. Trim turns nothing away and answers a length.
#![tactic(auto)]

ghost use Rattle.std.specs.Prelude.{◌≡◌, eqb, length, take};
ghost use Rattle.answer.specs.Outcome.{refusal_in};
ghost use Rattle.digits.specs.Encoding.{encoding};
ghost use Rattle.digits.specs.Decoding.{decoding};
ghost use Rattle.circuit.specs.LastUse.{finding_last_uses};
ghost use Rattle.circuit.specs.Outcomes.{checking, trimming, running};
ghost use Rattle.query.specs.Outcomes.{building, forecasting};
ghost use Rattle.offer.specs.Offer.{offering};
ghost use Rattle.filling.specs.Filling.{beginning, adding, finishing};
ghost use Rattle.packing.specs.Words.{state_in, words_after};
ghost use Rattle.told.specs.Told.{is_accepted, number_after, told_of, which_after, length_after, gates_after, products_after, squares_after, cost_after, depth_after};

use answer::Depth;
use builder::build;
use forecast::forecast;
use packing::finish;
use told::{put_offered, put_report, put_value};

// Encode: writes number as n digits at the start of out.
#[unsafe(no_mangle)]
pub extern "C" fn staplethread_encode(p: u8, n: usize, number: u64, out: &mut [u8]) -> u8
    ensures status { result ≡ refusal_in (encoding p n number out.old).answer }
    ensures success { eqb result 0 ≡ is_accepted (encoding p n number out.old).answer }
    ensures leaves { out.new ≡ (encoding p n number out.old).lent }
{
    told::number_of(coding::encode(p, n, number, out))
}

// Decode: the number that the digits stand for.
#[unsafe(no_mangle)]
pub extern "C" fn staplethread_decode(p: u8, digits: &[u8], number: &mut u64) -> u8
    ensures status { result ≡ refusal_in (decoding p digits.now) }
    ensures success { eqb result 0 ≡ is_accepted (decoding p digits.now) }
    ensures told { number.new ≡ number_after number.old (decoding p digits.now) }
{
    put_value(coding::decode(p, digits), number)
}

// Check: the report on a table.
#[unsafe(no_mangle)]
pub extern "C" fn staplethread_check(
    table: &[u8],
    gates: &mut u16,
    products: &mut u16,
    squares: &mut u16,
    cost: &mut u32,
    depth: &mut u16,
) -> u8
    ensures status { result ≡ refusal_in (checking table.now) }
    ensures success { eqb result 0 ≡ is_accepted (checking table.now) }
    ensures gates { gates.new ≡ gates_after gates.old (checking table.now) }
    ensures products { products.new ≡ products_after products.old (checking table.now) }
    ensures squares { squares.new ≡ squares_after squares.old (checking table.now) }
    ensures cost { cost.new ≡ cost_after cost.old (checking table.now) }
    ensures depth { depth.new ≡ depth_after depth.old (checking table.now) }
{
    put_report(checker::check(table), gates, products, squares, cost, depth)
}

// Trim: how many bytes from the start the part has that is handed back.
#[unsafe(no_mangle)]
pub extern "C" fn staplethread_trim(table: &[u8]) -> usize
    ensures counts { result ≡ length (trimming table.now) }
    ensures part { take result table.now ≡ trimming table.now }
{
    let part = checker::trim(table);
    part.len()
}

// Run: the values of all gates at the start of work, and the last of them as the output.
#[unsafe(no_mangle)]
pub extern "C" fn staplethread_run(
    table: &[u8],
    left: &[u8],
    right: &[u8],
    work: &mut [u8],
    output: &mut u8,
) -> u8
    ensures status { result ≡ refusal_in (running table.now left.now right.now work.old).answer }
    ensures success { eqb result 0 ≡ is_accepted (running table.now left.now right.now work.old).answer }
    ensures leaves { work.new ≡ (running table.now left.now right.now work.old).lent }
    ensures told { output.new ≡ number_after output.old (running table.now left.now right.now work.old).answer }
{
    put_value(runner::run(table, left, right, work), output)
}

// The last-use list: for each gate the number of the last gate that reads it, at the start of the
// list, and the gate count.
#[unsafe(no_mangle)]
pub extern "C" fn staplethread_last_uses(table: &[u8], list: &mut [u16], gates: &mut u16) -> u8
    ensures status { result ≡ refusal_in (finding_last_uses table.now list.old).answer }
    ensures success { eqb result 0 ≡ is_accepted (finding_last_uses table.now list.old).answer }
    ensures leaves { list.new ≡ (finding_last_uses table.now list.old).lent }
    ensures told { gates.new ≡ number_after gates.old (finding_last_uses table.now list.old).answer }
{
    put_value(liveness::last_uses(table, list), gates)
}

// Forecast: the report on the table of a card, from the card only.
#[unsafe(no_mangle)]
pub extern "C" fn staplethread_forecast(
    card: &[u8],
    gates: &mut u16,
    products: &mut u16,
    squares: &mut u16,
    cost: &mut u32,
    depth: &mut u16,
) -> u8
    ensures status { result ≡ refusal_in (forecasting card.now) }
    ensures success { eqb result 0 ≡ is_accepted (forecasting card.now) }
    ensures gates { gates.new ≡ gates_after gates.old (forecasting card.now) }
    ensures products { products.new ≡ products_after products.old (forecasting card.now) }
    ensures squares { squares.new ≡ squares_after squares.old (forecasting card.now) }
    ensures cost { cost.new ≡ cost_after cost.old (forecasting card.now) }
    ensures depth { depth.new ≡ depth_after depth.old (forecasting card.now) }
{
    put_report(forecast(card), gates, products, squares, cost, depth)
}

// Build: the table of a card at the start of the lent bytes, and the report on it.
#[unsafe(no_mangle)]
pub extern "C" fn staplethread_build(
    card: &[u8],
    table: &mut [u8],
    gates: &mut u16,
    products: &mut u16,
    squares: &mut u16,
    cost: &mut u32,
    depth: &mut u16,
) -> u8
    ensures status { result ≡ refusal_in (building card.now table.old).answer }
    ensures success { eqb result 0 ≡ is_accepted (building card.now table.old).answer }
    ensures leaves { table.new ≡ (building card.now table.old).lent }
    ensures gates { gates.new ≡ gates_after gates.old (building card.now table.old).answer }
    ensures products { products.new ≡ products_after products.old (building card.now table.old).answer }
    ensures squares { squares.new ≡ squares_after squares.old (building card.now table.old).answer }
    ensures cost { cost.new ≡ cost_after cost.old (building card.now table.old).answer }
    ensures depth { depth.new ≡ depth_after depth.old (building card.now table.old).answer }
{
    put_report(build(card, table), gates, products, squares, cost, depth)
}

// The base table of a plain card at the start of the first lent bytes, the best step size's within the depth
// cap at the start of the second, and which of them is handed back, with the length of the part and the report on it.
#[unsafe(no_mangle)]
pub extern "C" fn staplethread_build_within(
    card: &[u8],
    cap: u16,
    first: &mut [u8],
    second: &mut [u8],
    which: &mut u8,
    part_length: &mut usize,
    gates: &mut u16,
    products: &mut u16,
    squares: &mut u16,
    cost: &mut u32,
    depth: &mut u16,
) -> u8
    ensures status { result ≡ refusal_in (offering card.now cap first.old second.old).answer }
    ensures success { eqb result 0 ≡ is_accepted (offering card.now cap first.old second.old).answer }
    ensures one { first.new ≡ (offering card.now cap first.old second.old).first }
    ensures two { second.new ≡ (offering card.now cap first.old second.old).second }
    ensures which { which.new ≡ which_after which.old (offering card.now cap first.old second.old).answer }
    ensures part { part_length.new ≡ length_after part_length.old (offering card.now cap first.old second.old).answer }
    ensures gates { gates.new ≡ gates_after gates.old (told_of (offering card.now cap first.old second.old).answer) }
    ensures products { products.new ≡ products_after products.old (told_of (offering card.now cap first.old second.old).answer) }
    ensures squares { squares.new ≡ squares_after squares.old (told_of (offering card.now cap first.old second.old).answer) }
    ensures cost { cost.new ≡ cost_after cost.old (told_of (offering card.now cap first.old second.old).answer) }
    ensures depth { depth.new ≡ depth_after depth.old (told_of (offering card.now cap first.old second.old).answer) }
{
    put_offered(
        within::build_within(card, Depth(cap), first, second),
        which,
        part_length,
        gates,
        products,
        squares,
        cost,
        depth,
    )
}

// Begins a build that is filled in condition by condition: the head of a table of no gates. The state is
// lent as words, all 0 at the start, and belongs to the library from then on.
#[unsafe(no_mangle)]
pub extern "C" fn staplethread_begin(state: &mut [u16; 24], p: u8, s: u8, table: &mut [u8]) -> u8
    ensures status { result ≡ refusal_in (beginning (state_in state.old) p s table.old).answer }
    ensures success { eqb result 0 ≡ is_accepted (beginning (state_in state.old) p s table.old).answer }
    ensures words { state.new ≡ words_after state.old (beginning (state_in state.old) p s table.old) }
    ensures leaves { table.new ≡ (beginning (state_in state.old) p s table.old).lent }
{
    told::number_of(packing::begin(state, p, s, table))
}

// Adds the condition of a record: its gates after those so far, and the head anew.
#[unsafe(no_mangle)]
pub extern "C" fn staplethread_add(state: &mut [u16; 24], bytes: &[u8], table: &mut [u8]) -> u8
    ensures status { result ≡ refusal_in (adding (state_in state.old) bytes.now table.old).answer }
    ensures success { eqb result 0 ≡ is_accepted (adding (state_in state.old) bytes.now table.old).answer }
    ensures words { state.new ≡ words_after state.old (adding (state_in state.old) bytes.now table.old) }
    ensures leaves { table.new ≡ (adding (state_in state.old) bytes.now table.old).lent }
{
    told::number_of(packing::add(state, bytes, table))
}

// Ends the table with the product tree over the conditions' outputs, tells the report on it, and closes
// the build.
#[unsafe(no_mangle)]
pub extern "C" fn staplethread_finish(
    state: &mut [u16; 24],
    table: &mut [u8],
    gates: &mut u16,
    products: &mut u16,
    squares: &mut u16,
    cost: &mut u32,
    depth: &mut u16,
) -> u8
    ensures status { result ≡ refusal_in (finishing (state_in state.old) table.old).answer }
    ensures success { eqb result 0 ≡ is_accepted (finishing (state_in state.old) table.old).answer }
    ensures words { state.new ≡ words_after state.old (finishing (state_in state.old) table.old) }
    ensures leaves { table.new ≡ (finishing (state_in state.old) table.old).lent }
    ensures gates { gates.new ≡ gates_after gates.old (finishing (state_in state.old) table.old).answer }
    ensures products { products.new ≡ products_after products.old (finishing (state_in state.old) table.old).answer }
    ensures squares { squares.new ≡ squares_after squares.old (finishing (state_in state.old) table.old).answer }
    ensures cost { cost.new ≡ cost_after cost.old (finishing (state_in state.old) table.old).answer }
    ensures depth { depth.new ≡ depth_after depth.old (finishing (state_in state.old) table.old).answer }
{
    put_report(finish(state, table), gates, products, squares, cost, depth)
}
