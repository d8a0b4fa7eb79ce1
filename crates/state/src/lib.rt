// The state of a build that is filled in condition by condition.
#![tactic(auto)]

ghost use Rattle.std.specs.Prelude.{◌≡◌, map};
ghost use Rattle.filling.specs.State.{no_build, started, too_deep, is_closed};
ghost use Rattle.writer.specs.Nodes.{node_is};
ghost use Rattle.state.specs.State.{state_is, pen_of, grown, Growable};

mod build;

pub use build::BuildState;
use card::MOST_CONDITIONS;
use digits::MOST_DIGITS;
use records::{LEAST_WEIGHT, MOST_WEIGHT};
use writer::{Node, Pen, Written};

// The most gates that a digit adds, with its share of joining and FLIP.
const MOST_FOR_DIGIT: u32 = 445;

// The most levels of a condition.
const MOST_LEVELS: u16 = 12;

// Whether one of the outputs is deeper than a condition.
fn is_deep(outputs: &[Node]) -> bool
    ensures { result ≡ too_deep (map node_is outputs.now) }
{
    outputs.iter().any(|output| MOST_LEVELS < output.depth)
}

impl BuildState {
    // At the start no build is open.
    pub fn none() -> BuildState
        ensures { state_is result ≡ no_build }
    {
        BuildState {
            begun: false,
            prime: 0,
            weight: 0,
            count: 0,
            slots: 0,
            gates: 0,
            products: 0,
            squares: 0,
            outputs: [Node { gate: 0, depth: 0 }; MOST_CONDITIONS],
        }
    }

    // A build with nothing added.
    pub fn start(prime: u8, weight: u8) -> BuildState
        ensures { state_is result ≡ started prime weight }
    {
        let mut state = BuildState::none();
        state.begun = true;
        state.prime = prime;
        state.weight = weight;
        state
    }

    // Whether no build is open: none was begun, or the state has a number that no accepted calls leave.
    pub fn is_closed(&self) -> bool
        ensures { result ≡ is_closed (state_is self.now) }
    {
        let count = usize::from(self.count);
        if !self.begun || MOST_CONDITIONS < count {
            return true;
        }
        if !arithmetic::is_listed(self.prime) {
            return true;
        }
        if records::outside(usize::from(self.weight), LEAST_WEIGHT, MOST_WEIGHT) {
            return true;
        }
        if MOST_DIGITS < usize::from(self.slots) {
            return true;
        }
        if MOST_FOR_DIGIT * u32::from(self.slots) < u32::from(self.gates) {
            return true;
        }
        if u32::from(self.gates) < u32::from(self.products) + u32::from(self.squares) {
            return true;
        }
        is_deep(&self.outputs[..count])
    }

    // A pen that goes on after the gates so far.
    pub fn pen(&self) -> Pen
        ensures { result ≡ pen_of (state_is self.now) }
    {
        Pen {
            next: self.gates,
            products: u32::from(self.products),
            squares: u32::from(self.squares),
        }
    }

    // Puts a condition more into the state, of so many digits: the pen is that after its gates, and the node is its output.
    pub fn grow(&mut self, digits: u8, written: Written)
        requires { Growable self.old digits written.pen }
        ensures { state_is self.new ≡ grown (state_is self.old) digits written.pen (node_is written.node) }
    {
        self.outputs[usize::from(self.count)] = written.node;
        self.begun = true;
        self.count += 1;
        self.slots += digits;
        self.gates = written.pen.next;
        self.products = written.pen.products as u16;
        self.squares = written.pen.squares as u16;
    }
}
