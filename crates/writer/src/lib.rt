// Writing gate tables: the head, and one gate at a time by a pen that counts.
#![tactic(auto)]

ghost use Rattle.std.specs.Prelude.{◌≡◌, [], ◌∷◌, ◌+◌, ◌*◌, ◌≤◌, ◌<◌, max, length};
ghost use Rattle.std.proofs.lemmas.List.Edits.{sets};
ghost use Rattle.circuit.specs.Constant.{signed};
ghost use Rattle.circuit.specs.Count.{count, is_product, is_square};
ghost use Rattle.circuit.specs.Gate.{gate_bytes, row, record_bytes, Left, Right, Add, Scale, Mul};
ghost use Rattle.circuit.specs.Segment.{times};
ghost use Rattle.circuit.specs.Table.{head_bytes, most_gates};
ghost use Rattle.comparison.specs.Difference.{minus};
ghost use Rattle.records.specs.Head.{slots_is};
ghost use Rattle.records.specs.Kind.{kind_number};
ghost use Rattle.writer.specs.Gates.{gate_is};
ghost use Rattle.writer.specs.Nodes.{node_is};
ghost use Rattle.writer.specs.Pen.{fresh};
ghost use Rattle.writer.specs.Writing.{HasRoom, Writes};

use records::{BOTH_MARK, EACH_MARK, GATE_MARK, Kind, RECORD, SlotCounts};

// The number of the next gate, and the products and squares so far.
#[derive(Clone, Copy, Debug, PartialEq, Eq)]
pub struct Pen {
    pub next: u16,
    pub products: u32,
    pub squares: u32,
}

// A lent table, and the pen that writes gates into it.
#[derive(Drop)]
pub struct Writer<'a> {
    pub table: &'a mut [u8],
    pub pen: Pen,
}

// A gate with its depth.
#[derive(Clone, Copy, Debug, PartialEq, Eq)]
pub struct Node {
    pub gate: u16,
    pub depth: u16,
}

// The pen after a gate, and the gate with its depth.
#[derive(Clone, Copy, Debug, PartialEq, Eq)]
pub struct Written {
    pub pen: Pen,
    pub node: Node,
}

// The two order tests of a digit or of a run of digits: L, less, and E, equal.
#[derive(Clone, Copy, Debug, PartialEq, Eq)]
pub struct Tests {
    pub less: Node,
    pub equal: Node,
}

// The digits of a condition: how many, and the first slot on each side.
#[derive(Clone, Copy, Debug, PartialEq, Eq)]
pub struct Slots {
    pub count: u16,
    pub left: u16,
    pub right: u16,
}

// A gate that is written, by its slot or its operands. A SCALE holds the sixteen bits of its constant.
#[derive(Clone, Copy, Debug, PartialEq, Eq)]
pub enum Gate {
    Left(u16),
    Right(u16),
    Add(u16, u16),
    Sub(u16, u16),
    Scale(u16, u16),
    Flip(u16),
    Mul(u16, u16),
}

impl Gate {
    // Writes its record as that of gate number k.
    fn record(self, table: &mut [u8], k: u16)
        requires { 8 * (k + 2) ≤ length table.old }
        ensures { table.new ≡ sets table.old (8 * (k + 1)) (gate_bytes (gate_is self)) }
    {
        match self {
            Gate::Left(slot) => put_record(table, k, Kind::Left, slot, 0),
            Gate::Right(slot) => put_record(table, k, Kind::Right, slot, 0),
            Gate::Add(a, b) => put_record(table, k, Kind::Add, a, b),
            Gate::Sub(a, b) => put_record(table, k, Kind::Sub, a, b),
            Gate::Scale(a, b) => put_record(table, k, Kind::Scale, a, b),
            Gate::Flip(a) => put_record(table, k, Kind::Flip, a, 0),
            Gate::Mul(a, b) => put_record(table, k, Kind::Mul, a, b),
        }
    }
}

impl Pen {
    // A pen that has written nothing.
    pub fn new() -> Pen
        ensures { result ≡ fresh }
    {
        Pen {
            next: 0,
            products: 0,
            squares: 0,
        }
    }

    // The pen after a gate.
    fn after(self, gate: Gate) -> Pen
        requires { (self.next < most_gates) × (self.products ≤ self.next) × (self.squares ≤ self.next) }
        ensures number { result.next ≡ self.next + 1 }
        ensures products { result.products ≡ self.products + count is_product (gate_is gate ∷ []) }
        ensures squares { result.squares ≡ self.squares + count is_square (gate_is gate ∷ []) }
    {
        let mut pen = self;
        pen.next += 1;
        if let Gate::Mul(a, b) = gate {
            if a == b {
                pen.squares += 1;
            } else {
                pen.products += 1;
            }
        }
        pen
    }
}

// Writes the record of gate number k, of a kind over a and b. Byte by byte, as the library's copy asks each time whether the two overlap.
fn put_record(table: &mut [u8], k: u16, kind: Kind, a: u16, b: u16)
    requires { 8 * (k + 2) ≤ length table.old }
    ensures { table.new ≡ sets table.old (8 * (k + 1)) (record_bytes (row (kind_number kind) a b)) }
{
    let mark = GATE_MARK;
    let at = RECORD * (usize::from(k) + 1);
    let a = a.to_le_bytes();
    let b = b.to_le_bytes();
    table[at] = mark[0];
    table[at + 1] = mark[1];
    table[at + 2] = u8::from(kind);
    table[at + 3] = 0;
    table[at + 4] = a[0];
    table[at + 5] = a[1];
    table[at + 6] = b[0];
    table[at + 7] = b[1];
}

// Writes the head of a table. Where one count serves both sides, byte 5 is spare.
pub fn put_head(table: &mut [u8], prime: u8, weight: u8, slots: SlotCounts, count: u16)
    requires { 8 ≤ length table.old }
    ensures { table.new ≡ sets table.old 0 (head_bytes (record { prime = prime; weight = weight; slots = slots_is slots }) count) }
{
    let (mark, fourth, fifth) = match slots {
        SlotCounts::Both(n) => (BOTH_MARK, n, 0),
        SlotCounts::Each(left, right) => (EACH_MARK, left, right),
    };
    let count = count.to_le_bytes();
    table[..RECORD].copy_from_slice(&[
        mark[0], mark[1], prime, weight, fourth, fifth, count[0], count[1],
    ]);
}

impl<'a> Writer<'a> {
    // Writes a gate.
    pub fn put(&mut self, gate: Gate)
        requires { HasRoom self.old 1 }
        ensures { Writes self.old (gate_is gate ∷ []) self.new }
    {
        gate.record(&mut *self.table, self.pen.next);
        self.pen = self.pen.after(gate);
    }

    // MUL, with the depth of the product.
    pub fn multiply(&mut self, a: Node, b: Node) -> Node
        requires { HasRoom self.old 1 × (a.depth < most_gates) × (b.depth < most_gates) }
        ensures wrote { Writes self.old (Mul a.gate b.gate ∷ []) self.new }
        ensures deepens { node_is result ≡ times self.old.pen.next (node_is a) (node_is b) }
    {
        let gate = self.pen.next;
        let depth = a.depth.max(b.depth) + 1;
        self.put(Gate::Mul(a.gate, b.gate));
        Node { gate, depth }
    }

    // A term of a sum, which is the SCALE of a gate, and the sum with it.
    pub fn add_term(&mut self, sum: Node, operand: Node, b: u16) -> Node
        requires { HasRoom self.old 2 }
        ensures wrote { Writes self.old (Scale operand.gate (signed b) ∷ Add sum.gate self.old.pen.next ∷ []) self.new }
        ensures deepens { (result.gate ≡ self.old.pen.next + 1) × (result.depth ≡ max sum.depth operand.depth) }
    {
        let term = self.pen.next;
        self.put(Gate::Scale(operand.gate, b));
        let gate = self.pen.next;
        let depth = sum.depth.max(operand.depth);
        self.put(Gate::Add(sum.gate, term));
        Node { gate, depth }
    }

    // The difference of the digits at gates k and k + 1, or that of the second and the first.
    fn put_minus(&mut self, backward: bool, k: u16)
        requires { HasRoom self.old 1 × (k < most_gates) }
        ensures { Writes self.old (minus backward k ∷ []) self.new }
    {
        let gate = if backward {
            Gate::Sub(k + 1, k)
        } else {
            Gate::Sub(k, k + 1)
        };
        self.put(gate);
    }

    // LEFT, RIGHT and z.
    pub fn put_difference(&mut self, backward: bool, left: u16, right: u16)
        requires { HasRoom self.old 3 }
        ensures { Writes self.old (Left left ∷ Right right ∷ minus backward self.old.pen.next ∷ []) self.new }
    {
        let k = self.pen.next;
        self.put(Gate::Left(left));
        self.put(Gate::Right(right));
        self.put_minus(backward, k);
    }
}
