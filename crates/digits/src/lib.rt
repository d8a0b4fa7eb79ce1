// Numbers as digits below (p + 1) / 2, lowest first.
#![tactic(auto)]

// The most digits of a number.
pub const MOST_DIGITS: usize = 16;
