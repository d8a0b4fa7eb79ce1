// Run.
#![tactic(auto)]

ghost use Rattle.std.specs.Prelude.{◌≡◌, true, not, ◌&&◌, ◌||◌, ◌++◌, ◌≤◌, eqb, length, drop};
ghost use Rattle.digits.specs.Number.{all_below};
ghost use Rattle.circuit.specs.Constant.{is_constant, constant, signed};
ghost use Rattle.circuit.specs.Outcomes.{running};
ghost use Rattle.circuit.specs.Reading.{read_fields, read_gate, head_of, reading};
ghost use Rattle.circuit.specs.Table.{left_slots, right_slots};
ghost use Rattle.circuit.specs.Value.{values};
ghost use Rattle.records.specs.Head.{head_is};
ghost use Rattle.records.specs.Kind.{kind_number};
ghost use Rattle.runner.specs.Ran.{run_answer};
ghost use Rattle.runner.specs.Running.{CanRun, value_in, values_in};

use answer::Refusal;
use reader::Table;
use records::{Kind, TableHead};

// The number below p that a constant is, from its sixteen bits.
fn constant_of(b: usize, prime: u8) -> u8
    requires { is_constant prime (signed b) ≡ true }
    ensures { result ≡ constant prime (signed b) }
{
    if b < 0x8000 {
        return b as u8;
    }
    let p = usize::from(prime);
    (b + p - 0x10000) as u8
}

// What the gates of a table run on: the table and its head, and for each side a list of values that is as long as the side has slots.
#[derive(Clone, Copy)]
struct Inputs<'a> {
    table: Table<'a>,
    head: TableHead,
    left: &'a [u8],
    right: &'a [u8],
    ghost same: { head_is head ≡ head_of table.bytes.now },
    ghost lefts: { length left.now ≡ left_slots (head_is head) },
    ghost rights: { length right.now ≡ right_slots (head_is head) },
}

impl<'a> Inputs<'a> {
    // The value of a gate of a kind that comes after others, whose values are given.
    fn value_of(self, kind: Kind, a: usize, b: usize, earlier: &[u8]) -> u8
        requires { CanRun (read_fields (head_is self.head) (length earlier.now) (kind_number kind) a b) }
        ensures { result ≡ value_in (values self.entry.head.prime self.entry.left.now self.entry.right.now) earlier.now (read_fields (head_is self.entry.head) (length earlier.now) (kind_number kind) a b) }
    {
        let prime = self.head.prime;
        match kind {
            Kind::Left => self.left[a],
            Kind::Right => self.right[a],
            Kind::Add => arithmetic::add_mod(earlier[a], earlier[b], prime),
            Kind::Sub => arithmetic::sub_mod(earlier[a], earlier[b], prime),
            Kind::Scale => arithmetic::mul_mod(earlier[a], constant_of(b, prime), prime),
            Kind::Flip => arithmetic::sub_mod(1, earlier[a], prime),
            Kind::Mul => arithmetic::mul_mod(earlier[a], earlier[b], prime),
        }
    }

    // The value of the gate whose record the bytes begin with. Its kind was read, so that it has one.
    fn value_at(self, bytes: &[u8], earlier: &[u8]) -> u8
        requires { (8 ≤ length bytes.now) × CanRun (read_gate (head_is self.head) (length earlier.now) bytes.now) }
        ensures { result ≡ value_in (values self.entry.head.prime self.entry.left.now self.entry.right.now) earlier.now (read_gate (head_is self.entry.head) (length earlier.now) bytes.now) }
    {
        let a = records::u16_at(bytes, 4);
        let b = records::u16_at(bytes, 6);
        match Kind::try_from(bytes[2]) {
            Ok(kind) => self.value_of(kind, a, b, earlier),
            Err(_) => 0,
        }
    }

    // Puts the values of the gates at the start of work.
    fn run_gates(self, work: &mut [u8])
        requires { self.table.outline.gates ≤ length work.old }
        ensures { work.new ≡ values_in (values self.entry.head.prime self.entry.left.now self.entry.right.now) (reading self.entry.table.bytes.now) ++ drop self.entry.table.outline.gates work.old }
    {
        let table = self.table;
        for k in 0..usize::from(table.outline.gates) {
            let value = self.value_at(table.record(k), &work[..k]);
            work[k] = value;
        }
    }
}

// Whether the left or right list is not as long as its side has slots.
fn lengths_wrong(head: TableHead, left: &[u8], right: &[u8]) -> bool
    ensures { result ≡ (not (eqb (length left.now) (left_slots (head_is head))) || not (eqb (length right.now) (right_slots (head_is head)))) }
{
    let lefts = head.slots.left();
    let rights = head.slots.right();
    left.len() != lefts || right.len() != rights
}

// Whether a value of the left or right list is the prime or more.
fn values_wrong(head: TableHead, left: &[u8], right: &[u8]) -> bool
    ensures { result ≡ not (all_below head.prime left.now && all_below head.prime right.now) }
{
    let prime = u64::from(head.prime);
    !(coding::are_below(left, prime) && coding::are_below(right, prime))
}

// Run on a table that was read.
fn run_read(table: Table<'_>, left: &[u8], right: &[u8], work: &mut [u8]) -> Result<u8, Refusal>
    ensures answers { run_answer result ≡ (running table.entry.bytes.now left.now right.now work.old).answer }
    ensures leaves { work.new ≡ (running table.entry.bytes.now left.now right.now work.old).lent }
{
    let head = records::head_at(table.bytes);
    if lengths_wrong(head, left, right) {
        return Err(Refusal::ListLength);
    }
    if values_wrong(head, left, right) {
        return Err(Refusal::ValueTooLarge);
    }
    let count = usize::from(table.outline.gates);
    if work.len() < count {
        return Err(Refusal::WorkBufferTooSmall);
    }
    let inputs = Inputs {
        table,
        head,
        left,
        right,
    };
    inputs.run_gates(work);
    let output = work[count - 1];
    Ok(output)
}

// The values of all gates at the start of work and the last of them as the answer, or a refusal,
// which leaves work as it is.
pub fn run(table: &[u8], left: &[u8], right: &[u8], work: &mut [u8]) -> Result<u8, Refusal>
    ensures answers { run_answer result ≡ (running table.now left.now right.now work.old).answer }
    ensures leaves { work.new ≡ (running table.now left.now right.now work.old).lent }
{
    let read = reader::read_table(table)?;
    run_read(read, left, right, work)
}
