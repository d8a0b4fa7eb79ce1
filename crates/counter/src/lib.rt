// The products and squares of a table that its cost counts: the MULs among the output and the gates that it depends on,
// two over the same pair of gates once. The time is linear in the gates: used gates are marked from the last one down,
// used MULs are linked into chains by their higher operand, and along a chain each lower operand counts once.
// Three lists have an entry for each gate:
// - marks: USED at a used gate, and later the stamp of the last chain that has the gate as a lower operand;
// - starts: the gate that the chain of this higher operand begins with;
// - next: the gate that follows this one in its chain.
// A 0 in the last two is the end of a chain, as gate 0 is no MUL.
#![tactic(auto)]

ghost use Rattle.std.specs.Prelude.{◌≡◌, ◌+◌, ◌*◌, ◌≤◌, ◌<◌, eqb, length, get_or};
ghost use Rattle.answer.specs.Outcome.{accepted};
ghost use Rattle.circuit.specs.Count.{products, squares};
ghost use Rattle.circuit.specs.Operands.{operands};
ghost use Rattle.circuit.specs.Reading.{reading};
ghost use Rattle.circuit.specs.Used.{only_if, used};
ghost use Rattle.records.specs.Operands.{entered};
ghost use Rattle.records.specs.Read.{gates_read, gates_in};
ghost use Rattle.circuit.specs.Table.{most_gates};
ghost use Rattle.counter.specs.Gates.{gates_of, gate_at, Countable};
ghost use Rattle.counter.specs.Pairs.{lower, higher, lowers, different};
ghost use Rattle.counter.specs.Marks.{Markable, UsedMarked};
ghost use Rattle.counter.specs.Chains.{is_linked, starts_after, next_after, Linkable, Linked, Walkable, Walked, ChainsCountable};
ghost use Rattle.counter.specs.Counts.{Ready, CountsOf};

use records::{Kind, MOST_GATES, RECORD, u16_at};

// The most gates of a small table, and of one of middle size.
const SMALL: usize = 256;

const MIDDLE: usize = 2048;

// The mark of a used gate.
const USED: u16 = 1;

// The stamp of the chain of higher operand 0. Each later one's is one more, so that a stamp is above all that a walk finds.
const FIRST_STAMP: usize = 2;

// The products and squares among the gates of a table that count.
#[derive(Clone, Copy, Debug, PartialEq, Eq)]
pub struct Counts {
    pub products: u16,
    pub squares: u16,
}

// A MUL's operands by their order, as two MULs have the same pair in either order.
#[derive(Clone, Copy)]
struct Pair {
    low: usize,
    high: usize,
}

// How many different pairs the used MULs have, and how many of these are squares.
#[derive(Clone, Copy)]
struct Found {
    pairs: u32,
    squares: u32,
}

// A table that was read, and how many gates it has.
#[derive(Clone, Copy)]
struct Table<'a> {
    bytes: &'a [u8],
    count: usize,
    ghost read: { Countable bytes.now count },
}

impl<'a> Table<'a> {
    // Where the record of gate number k begins.
    fn record(self, k: usize) -> usize
        requires { k < self.count }
        ensures { (result ≡ 8 * (k + 1)) × (result + 8 ≤ length self.entry.bytes.now) }
    {
        RECORD * (k + 1)
    }

    // Marks the gates that gate number k reads, if it is marked itself.
    fn visit(self, k: usize, marks: &mut [u16])
        requires { (k < self.count) × (self.count ≤ length marks.old) }
        ensures { marks.new ≡ entered 1 (only_if (eqb (get_or marks.old k 0) 1) (operands (gate_at (gates_of self.entry.bytes.now) k))) marks.old }
    {
        if marks[k] != USED {
            return;
        }
        let at = self.record(k);
        records::enter_operands(&self.bytes[at..], USED, marks);
    }

    // Marks the output and the gates that it depends on. A gate is read only by later ones, so that all its readers
    // are visited before it.
    fn mark_used(self, marks: &mut [u16])
        requires { Markable self.bytes.now self.count marks.old }
        ensures { UsedMarked (gates_of self.entry.bytes.now) marks.new }
    {
        let last = self.count - 1;
        marks[last] = USED;
        for k in (0..self.count).rev() {
            self.visit(k, marks);
        }
    }

    // The operands of the MUL that is gate number k.
    fn pair_at(self, k: usize) -> Pair
        requires { k < self.count }
        ensures { (result.low ≡ lower (gate_at (gates_of self.entry.bytes.now) k)) × (result.high ≡ higher (gate_at (gates_of self.entry.bytes.now) k)) × (result.high < 0x10000) }
    {
        let at = self.record(k);
        let a = u16_at(self.bytes, at + 4);
        let b = u16_at(self.bytes, at + 6);
        let low = a.min(b);
        let high = a.max(b);
        Pair { low, high }
    }

    // Whether gate number k is a used MUL.
    fn is_linked(self, marks: &[u16], k: usize) -> bool
        requires { (k < self.count) × (k < length marks.now) }
        ensures { result ≡ is_linked (gates_of self.entry.bytes.now) marks.now k }
    {
        let at = self.record(k);
        let used = marks[k] == USED;
        used && self.bytes[at + 2] == u8::from(Kind::Mul)
    }

    // Puts gate number k, if it is a used MUL, at the start of the chain of its higher operand.
    fn link(self, marks: &[u16], k: usize, starts: &mut [u16], next: &mut [u16])
        requires { (k < self.count) × (k < length marks.now) × (k < length starts.old) × (k < length next.old) }
        ensures starts_after { starts.new ≡ starts_after (gates_of self.entry.bytes.now) marks.now k starts.old }
        ensures next_after { next.new ≡ next_after (gates_of self.entry.bytes.now) marks.now k starts.old next.old }
    {
        if !self.is_linked(marks, k) {
            return;
        }
        let high = self.pair_at(k).high;
        let start = &mut starts[high];
        next[k] = *start;
        *start = k as u16;
    }

    // Links the used MULs of each higher operand.
    fn link_used(self, marks: &[u16], starts: &mut [u16], next: &mut [u16])
        requires { Linkable self.bytes.now self.count marks.now starts.old next.old }
        ensures { Linked (gates_of self.entry.bytes.now) starts.new next.new }
    {
        for k in 0..self.count {
            self.link(marks, k, starts, next);
        }
    }

    // How many different lower operands go with higher operand h, whose chain begins at start. Each gets the chain's stamp,
    // so that one that comes again is known by it.
    fn walk(self, h: usize, start: usize, next: &[u16], marks: &mut [u16]) -> u32
        requires { Walkable self.bytes.now h start next.now marks.old }
        ensures value { (result ≡ different (lowers h (used (gates_of self.entry.bytes.now)))) × (result ≤ start) }
        ensures walked { Walked (gates_of self.entry.bytes.now) h marks.new }
    {
        let stamp = (h + FIRST_STAMP) as u16;
        let mut n: u32 = 0;
        let mut i = start;
        while i != 0 {
            let low = self.pair_at(i).low;
            let mark = &mut marks[low];
            n += u32::from(*mark != stamp);
            *mark = stamp;
            i = usize::from(next[i]);
        }
        n
    }

    // The different pairs, chain by chain. Where a chain's higher operand got the stamp itself, one of its pairs is a square.
    fn count_pairs(self, starts: &[u16], next: &[u16], marks: &mut [u16]) -> Found
        requires { ChainsCountable self.bytes.now self.count starts.now next.now marks.old }
        ensures { (result.pairs ≡ products (gates_of self.entry.bytes.now) + squares (gates_of self.entry.bytes.now)) × (result.squares ≡ squares (gates_of self.entry.bytes.now)) × (result.pairs ≤ self.entry.count) }
    {
        let mut pairs: u32 = 0;
        let mut squares: u32 = 0;
        for h in 0..self.count {
            pairs += self.walk(h, usize::from(starts[h]), next, marks);
            squares += u32::from(marks[h] == (h + FIRST_STAMP) as u16);
        }
        Found { pairs, squares }
    }

    // The counts of the table, with the lists that it is given.
    fn count_in(self, marks: &mut [u16], starts: &mut [u16], next: &mut [u16]) -> Counts
        requires { Ready self.bytes.now self.count marks.old starts.old next.old }
        ensures { CountsOf (gates_of self.entry.bytes.now) result }
    {
        self.mark_used(marks);
        self.link_used(marks, starts, next);
        let found = self.count_pairs(starts, next, marks);
        Counts {
            products: (found.pairs - found.squares) as u16,
            squares: found.squares as u16,
        }
    }

    // The counts of a table of at most N gates, with lists of N entries.
    fn count_with<const N: usize>(self) -> Counts
        requires { (self.count ≤ N) × (N ≤ most_gates) }
        ensures { CountsOf (gates_of self.entry.bytes.now) result }
    {
        let mut marks = [0u16; N];
        let mut starts = [0u16; N];
        let mut next = [0u16; N];
        self.count_in(&mut marks, &mut starts, &mut next)
    }

    // The counts of the table. Smaller lists take less time to clear.
    fn counts(self) -> Counts
        ensures { CountsOf (gates_of self.entry.bytes.now) result }
    {
        if self.count <= SMALL {
            return self.count_with::<SMALL>();
        }
        if self.count <= MIDDLE {
            return self.count_with::<MIDDLE>();
        }
        self.count_with::<MOST_GATES>()
    }
}

// The products and squares that count among the gates of a table that was read.
pub fn count_products(table: &[u8], count: usize) -> Counts
    requires { gates_read (reading table.now) ≡ accepted count }
    ensures { (result.products ≡ products (gates_in (reading table.now))) × (result.squares ≡ squares (gates_in (reading table.now))) × (result.products + result.squares ≤ count) }
{
    let read = Table {
        bytes: table,
        count,
    };
    read.counts()
}
