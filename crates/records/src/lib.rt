// Records, as they stand in bytes: marks, numbers of two bytes, ranges, the head of a table, and the gates that a gate reads.
#![tactic(auto)]

ghost use Rattle.std.specs.Prelude.{◌≡◌, ◌||◌, [], ◌∷◌, ℕ, ◌+◌, ◌≤◌, ◌<◌, ltb, length, take};
ghost use Rattle.circuit.specs.Bytes.{wrong_mark, u16_at};
ghost use Rattle.circuit.specs.Every.{Every};
ghost use Rattle.circuit.specs.Reading.{slots_at, head_of};
ghost use Rattle.circuit.specs.Table.{left_of, right_of};
ghost use Rattle.records.specs.Marks.{mark_of};
ghost use Rattle.records.specs.Kind.{kind_number, kind_answer, kind_verdict};
ghost use Rattle.records.specs.Head.{slots_is, head_is};
ghost use Rattle.records.specs.Operands.{operands_of, operands_at, entered};

use answer::Refusal;

// The marks of a head with one slot count for both sides and of one with a count for each side, and of a gate.
pub const BOTH_MARK: [u8; 2] = [0x47, 0x48];

pub const EACH_MARK: [u8; 2] = [0x47, 0x4A];

pub const GATE_MARK: [u8; 2] = [0x47, 0x54];

// The bytes of a record.
pub const RECORD: usize = 8;

// The least and the most weight of a square.
pub const LEAST_WEIGHT: usize = 50;

pub const MOST_WEIGHT: usize = 100;

// The most gates of a table.
pub const MOST_GATES: usize = 8191;

// The kinds of gates, with their numbers.
#[derive(Clone, Copy, Debug, PartialEq, Eq)]
pub enum Kind {
    Left = 1,
    Right = 2,
    Add = 3,
    Sub = 4,
    Scale = 5,
    Flip = 6,
    Mul = 7,
}

// The number of a kind.
impl From<Kind> for u8 {
    ghost from_gives = { λ kind number. number ≡ kind_number kind };

    fn from(kind: Kind) -> u8 {
        kind as u8
    }
}

// The kind of a number, or 16 where none has it.
impl TryFrom<u8> for Kind {
    type Error = Refusal;

    ghost try_from_gives = { λ number kind. kind_answer kind ≡ kind_verdict number };

    fn try_from(number: u8) -> Result<Kind, Refusal> {
        match number {
            1 => Ok(Kind::Left),
            2 => Ok(Kind::Right),
            3 => Ok(Kind::Add),
            4 => Ok(Kind::Sub),
            5 => Ok(Kind::Scale),
            6 => Ok(Kind::Flip),
            7 => Ok(Kind::Mul),
            _ => Err(Refusal::UnknownKind),
        }
    }
}

impl Kind {
    // How many gates a gate of this kind reads.
    fn arity(self) -> usize
        ensures { (a b : ℕ) → take result (a ∷ b ∷ []) ≡ operands_of (kind_number self) a b }
    {
        match self {
            Kind::Left | Kind::Right => 0,
            Kind::Scale | Kind::Flip => 1,
            Kind::Add | Kind::Sub | Kind::Mul => 2,
        }
    }
}

// How many slots the sides have: one count for both, or the left one and the right one.
#[derive(Clone, Copy, Debug, PartialEq, Eq)]
pub enum SlotCounts {
    Both(u8),
    Each(u8, u8),
}

impl SlotCounts {
    // How many slots the left side has.
    pub fn left(self) -> usize
        ensures { result ≡ left_of (slots_is self) }
    {
        match self {
            SlotCounts::Both(n) => usize::from(n),
            SlotCounts::Each(left, _) => usize::from(left),
        }
    }

    // How many slots the right side has.
    pub fn right(self) -> usize
        ensures { result ≡ right_of (slots_is self) }
    {
        match self {
            SlotCounts::Both(n) => usize::from(n),
            SlotCounts::Each(_, right) => usize::from(right),
        }
    }
}

// The prime, the weight of a square and the slot counts.
#[derive(Clone, Copy, Debug, PartialEq, Eq)]
pub struct TableHead {
    pub prime: u8,
    pub weight: u8,
    pub slots: SlotCounts,
}

// Two bytes, the low one first.
pub fn u16_at(bytes: &[u8], at: usize) -> usize
    requires { at + 2 ≤ length bytes.now }
    ensures { (result ≡ u16_at bytes.now at) × (result < 65536) }
{
    usize::from(u16::from_le_bytes([bytes[at], bytes[at + 1]]))
}

// Whether bytes open with another pair than a mark.
pub fn lacks_mark(bytes: &[u8], mark: [u8; 2]) -> bool
    requires { 2 ≤ length bytes.now }
    ensures { result ≡ wrong_mark (mark_of mark) bytes.now }
{
    bytes[..2] != mark[..]
}

// Whether x is below or above a range.
pub fn outside(x: usize, low: usize, high: usize) -> bool
    ensures { result ≡ (ltb x low || ltb high x) }
{
    x < low || high < x
}

// What the bytes of a head say of the slots. Its mark tells whether byte 5 is a count.
fn slots_at(table: &[u8]) -> SlotCounts
    requires { 6 ≤ length table.now }
    ensures { slots_is result ≡ slots_at table.now }
{
    if lacks_mark(table, EACH_MARK) {
        return SlotCounts::Both(table[4]);
    }
    SlotCounts::Each(table[4], table[5])
}

// What the bytes of a head say.
pub fn head_at(table: &[u8]) -> TableHead
    requires { 6 ≤ length table.now }
    ensures { head_is result ≡ head_of table.now }
{
    TableHead {
        prime: table[2],
        weight: table[3],
        slots: slots_at(table),
    }
}

// How many gates a gate reads whose kind has a number, none where no kind has it.
fn arity(number: u8) -> usize
    ensures { (a b : ℕ) → take result (a ∷ b ∷ []) ≡ operands_of number a b }
{
    match Kind::try_from(number) {
        Ok(kind) => kind.arity(),
        Err(_) => 0,
    }
}

// Enters a number for each gate that the gate reads whose record the bytes begin with.
pub fn enter_operands(bytes: &[u8], number: u16, list: &mut [u16])
    requires { (8 ≤ length bytes.now) × Every (λ i. i < length list.old) (operands_at bytes.now) }
    ensures { list.new ≡ entered number (operands_at bytes.now) list.old }
{
    let n = arity(bytes[2]);
    if n == 0 {
        return;
    }
    let a = u16_at(bytes, 4);
    list[a] = number;
    if n == 1 {
        return;
    }
    let b = u16_at(bytes, 6);
    list[b] = number;
}
