// Rating a step size: its table is written into a scratch table, and Check's report on it tells.
#![tactic(auto)]

ghost use Rattle.std.specs.Prelude.{◌≡◌, true, false, ◌+◌, ◌-◌, ◌*◌, ◌≤◌, length};
ghost use Rattle.answer.specs.Outcome.{accepted};
ghost use Rattle.answer.specs.Report.{report_answer};
ghost use Rattle.digits.specs.Number.{most_digits};
ghost use Rattle.circuit.specs.Table.{most_gates};
ghost use Rattle.comparison.specs.OrderDigit.{less_count};
ghost use Rattle.comparison.specs.Relation.{is_order};
ghost use Rattle.comparison.specs.Tests.{equality_test};
ghost use Rattle.step.specs.Digit.{step_less, IsStep};
ghost use Rattle.query.specs.Card.{Card as CardIs};
ghost use Rattle.query.specs.Reading.{read_card};
ghost use Rattle.offer.specs.Digits.{order_digits, higher_digits};
ghost use Rattle.powers.specs.Prepared.{Prepared};
ghost use Rattle.card.specs.Conditions.{conditions_of};
ghost use Rattle.relations.specs.Relations.{relation_is};
ghost use Rattle.rating.specs.Rated.{rated, Searching};

use answer::{Refusal, Report};
use arithmetic::Modulus;
use card::Card;
use powers::OrderLists;
use records::{MOST_GATES, RECORD};
use relations::Relation;
use writer::{Pen, Writer};

// Room for the largest table: its head and 8191 gates.
pub const SCRATCH: usize = RECORD * (MOST_GATES + 1);

// The order digits of a card, and those of them that are not the lowest of their condition.
#[derive(Clone, Copy, Debug, PartialEq, Eq)]
pub struct OrderDigits {
    pub all: u16,
    pub higher: u16,
}

// What rating a step size goes by: a card, the gate count of its base table, its order digits, how many gates E of a digit has, and what
// order digits go by.
#[derive(Clone, Copy)]
pub struct Search<'a> {
    pub card: Card<'a>,
    pub base: u16,
    pub digits: OrderDigits,
    pub equal: u16,
    pub tables: OrderLists<'a>,
    pub ghost known: { Searching card.bytes.now card.head base digits equal tables.constants.now tables.depths.now },
}

// The order digits of a condition.
fn digits_in(relation: Relation, digits: u8) -> OrderDigits
    requires { 1 ≤ digits }
    ensures { (result.all ≡ elim (is_order (relation_is relation)) [ true ↦ digits | false ↦ 0 ]) × (result.higher ≡ result.all - 1) × (result.all ≤ digits) }
{
    if relation.is_order() {
        let all = u16::from(digits);
        return OrderDigits {
            all,
            higher: all - 1,
        };
    }
    OrderDigits { all: 0, higher: 0 }
}

// Those of all conditions of a card together.
pub fn count_digits(card: Card<'_>) -> OrderDigits
    ensures { (result.all ≡ order_digits (conditions_of card.entry.bytes.now)) × (result.higher ≡ higher_digits (conditions_of card.entry.bytes.now)) × (result.all ≤ most_digits) × (result.higher ≤ result.all) }
{
    let mut all: u16 = 0;
    let mut higher: u16 = 0;
    for condition in card.conditions() {
        let own = digits_in(condition.relation, condition.digits);
        all += own.all;
        higher += own.higher;
    }
    OrderDigits { all, higher }
}

// A pen in a scratch table, after one gate.
fn second_gate() -> Pen
    ensures { (result.next ≡ 1) × (result.products ≡ 0) × (result.squares ≡ 0) }
{
    Pen {
        next: 1,
        ..Pen::new()
    }
}

// How many gates L of a digit has for a step size: it is written once, and the pen tells.
fn count_less(table: &mut [u8], m: Modulus, step: u16, tables: OrderLists<'_>) -> u16
    requires { (8 * (most_gates + 1) ≤ length table.old) × IsStep m.p step × Prepared m.p tables.constants.now tables.depths.now }
    ensures { (result ≡ (step_less m.p step).count) × (result ≤ 11 * m.p) }
{
    let mut out = Writer {
        table,
        pen: second_gate(),
    };
    steps::put_step_less(&mut out, m, step, tables);
    out.pen.next - 1
}

// How many gates E of a digit has, for every step size.
pub fn count_equal(table: &mut [u8], m: Modulus) -> u16
    requires { 8 * (most_gates + 1) ≤ length table.old }
    ensures { (result ≡ (equality_test m.p).count) × (result ≤ m.p) }
{
    let mut out = Writer {
        table,
        pen: second_gate(),
    };
    equality::put_zero_test(&mut out, 0, m);
    out.pen.next - 1
}

// How many gates the table of a step size has: those of the base table, with the step size's tests in the place of its own.
fn count_gates(m: Modulus, base: u16, digits: OrderDigits, less: u16, equal: u16) -> u32
    requires few { (digits.all ≤ most_digits) × (digits.higher ≤ digits.all) × (less ≤ 11 * m.p) × (equal ≤ m.p) }
    requires own { digits.all * less_count m.p + digits.higher ≤ base + (digits.all * less + digits.higher * equal) }
    ensures { result + (digits.all * less_count m.p + digits.higher) ≡ base + (digits.all * less + digits.higher * equal) }
{
    let half = (m.p - 1) / 2;
    let own = u32::from(half + half / 2 + m.p);
    let all = u32::from(digits.all);
    let higher = u32::from(digits.higher);
    u32::from(base) + (all * u32::from(less) + higher * u32::from(equal)) - (all * own + higher)
}

impl<'a> Search<'a> {
    // The report on the table of a step size, or 14 where its gates are too many for a table. The table is lent to work in.
    pub fn rate(self, step: u16, table: &mut [u8]) -> Result<Report, Refusal>
        requires { (8 * (most_gates + 1) ≤ length table.old) × IsStep self.card.head.prime step }
        ensures { (c : CardIs) → read_card self.entry.card.bytes.now ≡ accepted c → report_answer result ≡ rated c step }
    {
        let m = draft::modulus_of(self.card);
        let less = count_less(table, m, step, self.tables);
        let count = count_gates(m, self.base, self.digits, less, self.equal);
        if (MOST_GATES as u32) < count {
            return Err(Refusal::GateCount);
        }
        draft::write_table(self.card, step, count as u16, table, self.tables);
        checker::check(table)
    }
}
