// The state of a build as words, which programs keep between calls, and begin, add and finish over them.
#![tactic(auto)]

ghost use Rattle.std.specs.Prelude.{◌≡◌, ◌≤◌, length, map};
ghost use Rattle.answer.specs.Report.{report_answer};
ghost use Rattle.answer.specs.Settled.{settled_answer};
ghost use Rattle.query.specs.Card.{most_conditions};
ghost use Rattle.filling.specs.Filling.{beginning, adding, finishing};
ghost use Rattle.state.specs.State.{state_is};
ghost use Rattle.packing.specs.Words.{padded, words_of, wrong_words, state_in, words_after};
ghost use Rattle.packing.specs.Outputs.{gates_of, depths_of, outputs_in};

use answer::{Refusal, Report};
use card::MOST_CONDITIONS;
use state::BuildState;
use std::array;
use writer::Node;

// The most that a byte holds.
const MOST_BYTE: u16 = 255;

// The gates of outputs, and their depths, each with 0 after them.
fn spread(outputs: &[Node]) -> ([u16; MOST_CONDITIONS], [u16; MOST_CONDITIONS])
    requires { length outputs.now ≤ most_conditions }
    ensures gates { result.0 ≡ padded (gates_of outputs.now) }
    ensures depths { result.1 ≡ padded (depths_of outputs.now) }
{
    let mut gates = [0; MOST_CONDITIONS];
    let mut depths = [0; MOST_CONDITIONS];
    for (k, output) in outputs.iter().enumerate() {
        gates[k] = output.gate;
        depths[k] = output.depth;
    }
    (gates, depths)
}

// The words of a state.
fn words_of(state: &BuildState) -> [u16; 24]
    requires { state.now.count ≤ most_conditions }
    ensures { result ≡ words_of (state_is state.now) }
{
    let count = usize::from(state.count);
    let (gates, depths) = spread(&state.outputs[..count]);
    [
        u16::from(state.begun),
        u16::from(state.prime),
        u16::from(state.weight),
        u16::from(state.count),
        u16::from(state.slots),
        state.gates,
        state.products,
        state.squares,
        gates[0],
        gates[1],
        gates[2],
        gates[3],
        gates[4],
        gates[5],
        gates[6],
        gates[7],
        depths[0],
        depths[1],
        depths[2],
        depths[3],
        depths[4],
        depths[5],
        depths[6],
        depths[7],
    ]
}

// Whether one of the first words is too large for what it tells.
fn are_wrong(words: &[u16; 24]) -> bool
    ensures { result ≡ wrong_words words.now }
{
    1 < words[0]
        || MOST_BYTE < words[1]
        || MOST_BYTE < words[2]
        || MOST_CONDITIONS < usize::from(words[3])
        || MOST_BYTE < words[4]
}

// The outputs that words tell, of as many conditions as there may be.
fn outputs_in(words: &[u16; 24]) -> [Node; MOST_CONDITIONS]
    ensures { result ≡ outputs_in words.now }
{
    array::from_fn(|k| Node {
        gate: words[8 + k],
        depth: words[16 + k],
    })
}

// The state that words tell. Where one of them is too large, no build is open.
fn state_in(words: &[u16; 24]) -> BuildState
    ensures { state_is result ≡ state_in words.now }
{
    if are_wrong(words) {
        return BuildState::none();
    }
    BuildState {
        begun: words[0] == 1,
        prime: words[1] as u8,
        weight: words[2] as u8,
        count: words[3] as u8,
        slots: words[4] as u8,
        gates: words[5],
        products: words[6],
        squares: words[7],
        outputs: outputs_in(words),
    }
}

// Starts a build afresh, also over an open one: the head of a table of no gates.
pub fn begin(words: &mut [u16; 24], prime: u8, weight: u8, table: &mut [u8]) -> Result<(), Refusal>
    ensures answers { settled_answer result ≡ (beginning (state_in words.old) prime weight table.old).answer }
    ensures words { words.new ≡ words_after words.old (beginning (state_in words.old) prime weight table.old) }
    ensures leaves { table.new ≡ (beginning (state_in words.old) prime weight table.old).lent }
{
    let mut state = state_in(words);
    filler::begin(&mut state, prime, weight, table)?;
    *words = words_of(&state);
    Ok(())
}

// Adds the condition of a record after those so far.
pub fn add(words: &mut [u16; 24], bytes: &[u8], table: &mut [u8]) -> Result<(), Refusal>
    ensures answers { settled_answer result ≡ (adding (state_in words.old) bytes.now table.old).answer }
    ensures words { words.new ≡ words_after words.old (adding (state_in words.old) bytes.now table.old) }
    ensures leaves { table.new ≡ (adding (state_in words.old) bytes.now table.old).lent }
{
    let mut state = state_in(words);
    filler::add(&mut state, bytes, table)?;
    *words = words_of(&state);
    Ok(())
}

// Ends the table with the product tree over the conditions' outputs and closes the build, which clears the words.
pub fn finish(words: &mut [u16; 24], table: &mut [u8]) -> Result<Report, Refusal>
    ensures answers { report_answer result ≡ (finishing (state_in words.old) table.old).answer }
    ensures words { words.new ≡ words_after words.old (finishing (state_in words.old) table.old) }
    ensures leaves { table.new ≡ (finishing (state_in words.old) table.old).lent }
{
    let mut state = state_in(words);
    let told = filler::finish(&mut state, table)?;
    *words = [0; 24];
    Ok(told)
}
