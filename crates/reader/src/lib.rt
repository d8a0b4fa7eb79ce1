// Reading a table: its head, then gate by gate, up to the first rule that is broken. What all operations on tables begin with.
#![tactic(auto)]

ghost use Rattle.std.specs.Prelude.{◌≡◌, ◌&&◌, ◌+◌, ◌*◌, ◌≤◌, ◌<◌, IfOk, length, drop};
ghost use Rattle.answer.specs.Outcome.{accepted};
ghost use Rattle.answer.specs.Settled.{answer_of};
ghost use Rattle.digits.specs.Number.{wrong_count};
ghost use Rattle.circuit.specs.Bytes.{wrong_mark};
ghost use Rattle.circuit.specs.Reading.{read_gates, read_head, reading};
ghost use Rattle.circuit.specs.Table.{both_mark, each_mark, wrong_slots, wrong_spare, most_gates};
ghost use Rattle.gates.specs.GateDepth.{gate_answer};
ghost use Rattle.records.specs.Head.{slots_is, head_is};
ghost use Rattle.records.specs.Read.{gates_read};
ghost use Rattle.reader.specs.HeadAnswer.{head_answer};
ghost use Rattle.reader.specs.Outline.{Readable, depth_in, outline_in, outline_of};

use answer::{Depth, Refusal};
use gates::Place;
use records::{
    BOTH_MARK, EACH_MARK, LEAST_WEIGHT, MOST_GATES, MOST_WEIGHT, RECORD, SlotCounts, TableHead,
};

// The gates of a small table.
const FEW_GATES: usize = 256;

// What is known of a table once it is read: its gate count, the weight of a square, and its depth.
#[derive(Clone, Copy, Debug, PartialEq, Eq)]
pub struct Outline {
    pub gates: u16,
    pub weight: u8,
    pub depth: Depth,
}

// A table that was read: the bytes that begin with it, and its outline.
#[derive(Clone, Copy, Debug, PartialEq, Eq)]
pub struct Table<'a> {
    pub bytes: &'a [u8],
    pub outline: Outline,
    ghost outlined: { accepted (outline_of outline) ≡ outline_in (reading bytes.now) },
    ghost counted: { gates_read (reading bytes.now) ≡ accepted outline.gates },
    ghost some: { 1 ≤ outline.gates },
    ghost room: { 8 * (outline.gates + 1) ≤ length bytes.now },
}

impl<'a> Table<'a> {
    // The bytes from the record of gate number k on.
    pub fn record(self, k: usize) -> &'a [u8]
        requires { k < self.outline.gates }
        ensures { (result.now ≡ drop (8 * (k + 1)) self.entry.bytes.now) × (8 ≤ length result.now) }
    {
        let start = RECORD * (k + 1);
        &self.bytes[start..]
    }
}

// A table whose head was read, with its gates still to read: the bytes that begin with it, its head and its gate count.
#[derive(Clone, Copy)]
struct Unread<'a> {
    bytes: &'a [u8],
    head: TableHead,
    count: usize,
    ghost readable: { Readable bytes.now (head_is head) count },
}

// Whether a table opens with neither mark of a head.
fn lacks_head_mark(table: &[u8]) -> bool
    requires { 2 ≤ length table.now }
    ensures { result ≡ (wrong_mark both_mark table.now && wrong_mark each_mark table.now) }
{
    records::lacks_mark(table, BOTH_MARK) && records::lacks_mark(table, EACH_MARK)
}

// Whether a slot count is not 1 to 16.
fn count_outside(n: u8) -> bool
    ensures { result ≡ wrong_count n }
{
    records::outside(usize::from(n), 1, digits::MOST_DIGITS)
}

// Whether the slot count of a side is not 1 to 16.
fn slots_outside(slots: SlotCounts) -> bool
    ensures { result ≡ wrong_slots (slots_is slots) }
{
    match slots {
        SlotCounts::Both(n) => count_outside(n),
        SlotCounts::Each(left, right) => count_outside(left) || count_outside(right),
    }
}

// Whether byte 5 of a head is a spare that is not 0. Where each side has a count, byte 5 is the right one, and no spare.
fn spare_outside(slots: SlotCounts, spare: u8) -> bool
    ensures { result ≡ wrong_spare (slots_is slots) spare }
{
    match slots {
        SlotCounts::Both(_) => spare != 0,
        SlotCounts::Each(_, _) => false,
    }
}

// The head of a table, or the first of its rules that is broken.
fn read_head(table: &[u8]) -> Result<TableHead, Refusal>
    ensures { head_answer result ≡ read_head table.now }
{
    if table.len() < RECORD {
        return Err(Refusal::TableHeadTooShort);
    }
    if lacks_head_mark(table) {
        return Err(Refusal::WrongMark);
    }
    let head = records::head_at(table);
    let slots = head.slots;
    let count = records::u16_at(table, 6);
    let wrong_slots = slots_outside(slots);
    let wrong_spare = spare_outside(slots, table[5]);
    if !arithmetic::is_listed(head.prime) {
        return Err(Refusal::PrimeNotListed);
    }
    if records::outside(usize::from(head.weight), LEAST_WEIGHT, MOST_WEIGHT) {
        return Err(Refusal::WeightOutOfRange);
    }
    if wrong_slots {
        return Err(Refusal::SlotCount);
    }
    if wrong_spare {
        return Err(Refusal::SpareNotZero);
    }
    if records::outside(count, 1, MOST_GATES) {
        return Err(Refusal::GateCount);
    }
    if table.len() < RECORD * (count + 1) {
        return Err(Refusal::TableTooShort);
    }
    Ok(head)
}

impl<'a> Unread<'a> {
    // The depth of the last gate, or the first of the gates' rules that is broken. The depths of all go into depths.
    fn read_gates(self, depths: &mut [u16]) -> Result<u16, Refusal>
        requires { self.count ≤ length depths.old }
        ensures { gate_answer result ≡ depth_in (read_gates (head_is self.entry.head) 0 self.entry.count (drop 8 self.entry.bytes.now)) }
    {
        let last = self.count - 1;
        for k in 0..self.count {
            let at = RECORD * (k + 1);
            let place = Place {
                head: self.head,
                earlier: &depths[..k],
            };
            depths[k] = place.read_gate(&self.bytes[at..])?;
        }
        Ok(depths[last])
    }

    // The same with an array of its own for so many depths.
    fn depth_within<const N: usize>(self) -> Result<u16, Refusal>
        requires { (self.count ≤ N) × (N ≤ most_gates) }
        ensures { gate_answer result ≡ depth_in (read_gates (head_is self.entry.head) 0 self.entry.count (drop 8 self.entry.bytes.now)) }
    {
        let mut depths = [0u16; N];
        self.read_gates(&mut depths)
    }

    // The same with an array that is quickly cleared where the table is small.
    fn depth(self) -> Result<u16, Refusal>
        ensures { gate_answer result ≡ depth_in (read_gates (head_is self.entry.head) 0 self.entry.count (drop 8 self.entry.bytes.now)) }
    {
        if self.count <= FEW_GATES {
            return self.depth_within::<FEW_GATES>();
        }
        self.depth_within::<MOST_GATES>()
    }
}

// The table that the bytes begin with, or the first rule that it breaks. Later bytes are not looked at.
pub fn read_table(table: &[u8]) -> Result<Table<'_>, Refusal>
    ensures answers { answer_of (λ read. outline_of read.outline) result ≡ outline_in (reading table.now) }
    ensures lent { IfOk result (λ read. read.bytes.now ≡ table.now) }
{
    let head = read_head(table)?;
    let count = records::u16_at(table, 6);
    let unread = Unread {
        bytes: table,
        head,
        count,
    };
    let depth = unread.depth()?;
    Ok(Table {
        bytes: table,
        outline: Outline {
            gates: count as u16,
            weight: head.weight,
            depth: Depth(depth),
        },
    })
}
