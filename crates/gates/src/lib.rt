// One gate of a table: its record's word, the rules that it keeps, and its depth.
#![tactic(auto)]

ghost use Rattle.std.specs.Prelude.{◌≡◌, ◌&&◌, suc, ◌%◌, ◌≤◌, ◌<◌, ltb, eqb, length, get_or};
ghost use Rattle.circuit.specs.Constant.{is_constant, signed};
ghost use Rattle.circuit.specs.Reading.{read_fields, read_gate};
ghost use Rattle.circuit.specs.Word.{word_at, OpensWithBytes, word_verdict};
ghost use Rattle.records.specs.Head.{head_is};
ghost use Rattle.records.specs.Kind.{kind_number, kind_answer};
ghost use Rattle.gates.specs.GateDepth.{is_earlier, deeper_of, depth_if, depth_read, AreLow, gate_answer};

use answer::Refusal;
use records::{GATE_MARK, Kind, TableHead};

// LEFT and RIGHT.
fn slot_gate(a: usize, b: usize, slots: usize) -> Result<u16, Refusal>
    ensures { gate_answer result ≡ depth_if (ltb a slots && eqb b 0) 0 }
{
    if slots <= a || b != 0 {
        return Err(Refusal::WrongOperand);
    }
    Ok(0)
}

// Whether sixteen bits are a constant. Moved up by (p-1)/2, which is p / 2 as p is odd, the constants of both signs are the numbers
// below p, so that one comparison tells them, without a branch on the sign.
fn is_constant(b: usize, prime: u8) -> bool
    requires { (b < 0x10000) × (prime % 2 ≡ 1) }
    ensures { result ≡ is_constant prime (signed b) }
{
    let half = usize::from(prime / 2);
    (b + half) % 0x10000 < usize::from(prime)
}

// Where a gate comes: under the head of its table, whose prime is odd, and after the gates whose depths are given, none of which is
// deeper than its number.
#[derive(Clone, Copy, Debug, PartialEq, Eq)]
pub struct Place<'a> {
    pub head: TableHead,
    pub earlier: &'a [u16],
    ghost odd: { head.prime % 2 ≡ 1 },
    ghost low: { AreLow earlier.now },
}

impl<'a> Place<'a> {
    // ADD and SUB.
    fn sum_gate(self, a: usize, b: usize) -> Result<u16, Refusal>
        ensures { gate_answer result ≡ depth_if (is_earlier self.entry.earlier.now a && is_earlier self.entry.earlier.now b) (deeper_of self.entry.earlier.now a b) }
    {
        let earlier = self.earlier;
        if earlier.len() <= a || earlier.len() <= b {
            return Err(Refusal::WrongOperand);
        }
        Ok(earlier[a].max(earlier[b]))
    }

    // SCALE.
    fn scale_gate(self, a: usize, b: usize) -> Result<u16, Refusal>
        requires { b < 0x10000 }
        ensures { gate_answer result ≡ depth_if (is_earlier self.entry.earlier.now a && is_constant self.entry.head.prime (signed b)) (get_or self.entry.earlier.now a 0) }
    {
        if self.earlier.len() <= a || !is_constant(b, self.head.prime) {
            return Err(Refusal::WrongOperand);
        }
        Ok(self.earlier[a])
    }

    // FLIP.
    fn flip_gate(self, a: usize, b: usize) -> Result<u16, Refusal>
        ensures { gate_answer result ≡ depth_if (is_earlier self.entry.earlier.now a && eqb b 0) (get_or self.entry.earlier.now a 0) }
    {
        if self.earlier.len() <= a || b != 0 {
            return Err(Refusal::WrongOperand);
        }
        Ok(self.earlier[a])
    }

    // MUL: one level more than a sum over the same gates.
    fn mul_gate(self, a: usize, b: usize) -> Result<u16, Refusal>
        ensures { gate_answer result ≡ depth_if (is_earlier self.entry.earlier.now a && is_earlier self.entry.earlier.now b) (suc (deeper_of self.entry.earlier.now a b)) }
    {
        Ok(self.sum_gate(a, b)? + 1)
    }

    // The depth of the gate of a kind, or 17.
    fn gate_depth(self, kind: Kind, a: usize, b: usize) -> Result<u16, Refusal>
        requires { b < 0x10000 }
        ensures { gate_answer result ≡ depth_read self.entry.earlier.now (read_fields (head_is self.entry.head) (length self.entry.earlier.now) (kind_number kind) a b) }
    {
        let slots = self.head.slots;
        match kind {
            Kind::Left => slot_gate(a, b, slots.left()),
            Kind::Right => slot_gate(a, b, slots.right()),
            Kind::Add | Kind::Sub => self.sum_gate(a, b),
            Kind::Scale => self.scale_gate(a, b),
            Kind::Flip => self.flip_gate(a, b),
            Kind::Mul => self.mul_gate(a, b),
        }
    }

    // The depth of the gate whose record the bytes begin with, or the first of its rules that is broken.
    pub fn read_gate(self, bytes: &[u8]) -> Result<u16, Refusal>
        requires { 8 ≤ length bytes.now }
        ensures { gate_answer result ≡ depth_read self.entry.earlier.now (read_gate (head_is self.entry.head) (length self.entry.earlier.now) bytes.now) }
    {
        let kind = verdict_of(word_at(bytes))?;
        self.gate_depth(kind, records::u16_at(bytes, 4), records::u16_at(bytes, 6))
    }
}

// The first four bytes as one word, the first byte lowest.
fn word_at(bytes: &[u8]) -> u32
    requires { 4 ≤ length bytes.now }
    ensures { (result ≡ word_at bytes.now) × OpensWithBytes bytes.now }
{
    u32::from_le_bytes([bytes[0], bytes[1], bytes[2], bytes[3]])
}

// What a record's word says by itself: its low half has the mark, and its high half is the kind where the spare, its top byte, is 0.
fn verdict_of(word: u32) -> Result<Kind, Refusal>
    ensures { kind_answer result ≡ word_verdict word }
{
    let mark = u16::from_le_bytes(GATE_MARK);
    let spare = word / 0x1000000;
    if word % 0x10000 != u32::from(mark) {
        return Err(Refusal::WrongMark);
    }
    if spare != 0 {
        return Err(Refusal::SpareNotZero);
    }
    Kind::try_from((word / 0x10000) as u8)
}
