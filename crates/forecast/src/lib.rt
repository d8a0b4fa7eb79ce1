// Forecast.
#![tactic(auto)]

ghost use Rattle.std.specs.Prelude.{◌≡◌, true, false, ℕ, ◌*◌, ◌≤◌};
ghost use Rattle.answer.specs.Outcome.{accepted};
ghost use Rattle.answer.specs.Report.{report_answer};
ghost use Rattle.digits.specs.Number.{most_digits};
ghost use Rattle.comparison.specs.Formulas.{condition_size};
ghost use Rattle.query.specs.Card.{most_conditions};
ghost use Rattle.query.specs.Form.{condition_at};
ghost use Rattle.query.specs.Formulas.{end_size, end_products};
ghost use Rattle.query.specs.Outcomes.{forecasting};
ghost use Rattle.forecast.specs.Counting.{most_in_digit, most_before_flip, most_in_condition, Within, digit_counts, joined_counts, ended_counts, condition_counts, totals_of, TotalsWithin, InRanges, levels_of, report_from};
ghost use Rattle.relations.specs.Relations.{relation_is};
ghost use Rattle.card.specs.Conditions.{conditions_of};
ghost use Rattle.card.specs.Parts.{question_is, head_is};

use answer::{Depth, Refusal, Report};
use card::{Card, CardHead, Question};
use relations::Relation;

// How many gates, products and squares there are in a digit or a condition.
#[derive(Clone, Copy, Debug, PartialEq, Eq)]
struct Counts {
    gates: u32,
    products: u32,
    squares: u32,
}

// The counts of all conditions together, the sum of 2^ceil(log2 n) over them, and the largest digit count.
#[derive(Clone, Copy, Debug, Default, PartialEq, Eq)]
struct Totals {
    gates: u32,
    products: u32,
    squares: u32,
    breadth: u32,
    longest: u8,
}

// What a digit of an order condition has.
fn order_digit(prime: u8) -> Counts
    requires { 3 ≤ prime }
    ensures { (result ≡ digit_counts true prime) × Within most_in_digit result }
{
    let p = u32::from(prime);
    Counts {
        gates: p + 4 + (p - 3) / 2 + (p - 1) / 4,
        products: (p - 3) / 2,
        squares: (p - 1) / 4 + 1,
    }
}

// What a digit of an equality condition has.
fn equality_digit(prime: u8) -> Counts
    requires { 3 ≤ prime }
    ensures { (result ≡ digit_counts false prime) × Within most_in_digit result }
{
    let t = u16::from(prime - 1);
    let log = u32::from(arithmetic::floor_log2(t));
    let ones = t.count_ones();
    Counts {
        gates: 3 + log + ones,
        products: ones - 1,
        squares: log,
    }
}

// What n digits and their order joining have.
fn join_order(n: u8, digit: Counts) -> Counts
    requires { (1 ≤ n) × (n ≤ most_digits) × Within most_in_digit digit }
    ensures { (result ≡ joined_counts true n digit) × Within most_before_flip result }
{
    let digits = u32::from(n);
    let log = u32::from(arithmetic::floor_log2(u16::from(n)));
    Counts {
        gates: digits * digit.gates + 4 * (digits - 1) - log,
        products: digits * digit.products + (2 * digits - 2 - log),
        squares: digits * digit.squares,
    }
}

// What n digits and their product tree have.
fn join_equality(n: u8, digit: Counts) -> Counts
    requires { (1 ≤ n) × (n ≤ most_digits) × Within most_in_digit digit }
    ensures { (result ≡ joined_counts false n digit) × Within most_before_flip result }
{
    let digits = u32::from(n);
    Counts {
        gates: digits * digit.gates + (digits - 1),
        products: digits * digit.products + (digits - 1),
        squares: digits * digit.squares,
    }
}

// With the FLIP of its relation, if that ends with one.
fn end_condition(relation: Relation, joined: Counts) -> Counts
    requires { Within most_before_flip joined }
    ensures { (result ≡ ended_counts (relation_is relation) joined) × Within most_in_condition result }
{
    if relation.is_flipped() {
        return Counts {
            gates: joined.gates + 1,
            ..joined
        };
    }
    joined
}

// What a condition has, from what a digit of each sort has.
fn count_condition(relation: Relation, n: u8, order: Counts, equality: Counts) -> Counts
    requires { (1 ≤ n) × (n ≤ most_digits) × Within most_in_digit order × Within most_in_digit equality }
    ensures { (result ≡ condition_counts (relation_is relation) n order equality) × Within most_in_condition result }
{
    if relation.is_order() {
        return end_condition(relation, join_order(n, order));
    }
    end_condition(relation, join_equality(n, equality))
}

// The gates of a condition, wherever its slots are and whatever it weighs.
pub fn condition_size(relation: Relation, n: u8, prime: u8) -> u16
    requires { (1 ≤ n) × (n ≤ most_digits) × (3 ≤ prime) }
    ensures { (left right weight : ℕ) → result ≡ condition_size prime (condition_at left right (relation_is relation) n weight) }
{
    let own = count_condition(relation, n, order_digit(prime), equality_digit(prime));
    own.gates as u16
}

// What the conditions of a card that was read have together.
fn count_conditions(card: Card<'_>) -> Totals
    ensures { (result ≡ totals_of card.entry.head.prime (conditions_of card.entry.bytes.now)) × TotalsWithin most_conditions result }
{
    let order = order_digit(card.head.prime);
    let equality = equality_digit(card.head.prime);
    let mut totals = Totals::default();
    for condition in card.conditions() {
        let digits = condition.digits;
        let own = count_condition(condition.relation, digits, order, equality);
        totals.gates += own.gates;
        totals.products += own.products;
        totals.squares += own.squares;
        totals.breadth += u32::from(digits.next_power_of_two());
        totals.longest = totals.longest.max(digits);
    }
    totals
}

// How many gates come after those of the conditions: the product tree's, or a SCALE for each condition and an ADD for each but the first.
fn end_gates(question: Question, count: u8) -> u32
    requires { 1 ≤ count }
    ensures { (result ≡ end_size (question_is question) count) × (result ≤ 2 * count) }
{
    let conditions = u32::from(count);
    match question {
        Question::YesOrNo => conditions - 1,
        Question::Score => 2 * conditions - 1,
    }
}

// How many of these are products: all of the product tree's, and none of a score's.
fn end_products(question: Question, count: u8) -> u32
    requires { 1 ≤ count }
    ensures { (result ≡ end_products (question_is question) count) × (result ≤ count) }
{
    match question {
        Question::YesOrNo => u32::from(count - 1),
        Question::Score => 0,
    }
}

// The levels above those of a digit: of the joinings and the product tree, or of the deepest joining alone, to which a score adds none.
fn levels_of(question: Question, totals: Totals) -> u16
    requires { TotalsWithin most_conditions totals }
    ensures { (result ≡ levels_of (question_is question) totals) × (result ≤ 16) }
{
    match question {
        Question::YesOrNo => arithmetic::ceil_log2(totals.breadth as u16),
        Question::Score => arithmetic::ceil_log2(u16::from(totals.longest)),
    }
}

// The five numbers: those of the conditions, with the gates after them, which go by what the card asks.
fn report_on(head: CardHead, totals: Totals) -> Report
    requires { InRanges (head_is head) × TotalsWithin most_conditions totals }
    ensures { report_answer (Ok result) ≡ accepted (report_from (head_is head) totals) }
{
    let question = head.form.question();
    let gates = totals.gates + end_gates(question, head.count);
    let products = totals.products + end_products(question, head.count);
    let levels = arithmetic::ceil_log2(u16::from(head.prime - 1));
    Report {
        gates: gates as u16,
        products: products as u16,
        squares: totals.squares as u16,
        cost: answer::cost_of(products, totals.squares, head.weight),
        depth: Depth(levels + levels_of(question, totals)),
    }
}

// The report on the table of a card that was read.
pub fn forecast_read(card: Card<'_>) -> Report
    ensures { report_answer (Ok result) ≡ forecasting card.entry.bytes.now }
{
    report_on(card.head, count_conditions(card))
}

// The report on a card's table from the card alone, or the first rule that the card breaks.
pub fn forecast(card: &[u8]) -> Result<Report, Refusal>
    ensures { report_answer result ≡ forecasting card.now }
{
    let read = card::read_card(card)?;
    Ok(forecast_read(read))
}
