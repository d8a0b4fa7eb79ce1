// The base table and the best step size's within a depth cap, and the part handed back of one of the two lent tables.
#![tactic(auto)]

ghost use Rattle.std.specs.Prelude.{◌≡◌, List, ℕ, ◌+◌, ◌*◌, ◌≤◌, ltb, length, take, IfOk};
ghost use Rattle.answer.specs.Outcome.{accepted};
ghost use Rattle.answer.specs.Report.{report_of};
ghost use Rattle.circuit.specs.Report.{report as reportOn};
ghost use Rattle.circuit.specs.Table.{Table, most_gates};
ghost use Rattle.step.specs.Digit.{IsStep};
ghost use Rattle.query.specs.Card.{Card as CardIs};
ghost use Rattle.query.specs.Outcomes.{forecasting};
ghost use Rattle.query.specs.Reading.{read_card};
ghost use Rattle.query.specs.Whole.{table_of};
ghost use Rattle.offer.specs.Offer.{step_table, best_step, base_alone, handed_of, both_tables, offer_by, offering};
ghost use Rattle.card.specs.Accepted.{card_answer};
ghost use Rattle.card.specs.Conditions.{conditions_of};
ghost use Rattle.draft.specs.Conditions.{Ready};
ghost use Rattle.within.specs.Handed.{read_plain_summary, handed, handed_answer, Leaves, part_of};

use answer::{Depth, Refusal, Report};
use card::{Card, Form};
use chooser::Rated;
use powers::OrderLists;
use records::RECORD;

// Of which lent table a part is handed back, with the report on that table.
#[derive(Clone, Copy, Debug, PartialEq, Eq)]
pub enum Offered {
    First(Report),
    Second(Report),
}

// What a plain card says, or the first rule that it breaks; any other card is turned away by its mark.
fn read_plain(bytes: &[u8]) -> Result<Card<'_>, Refusal>
    ensures answers { card_answer result ≡ read_plain_summary bytes.now }
    ensures given { IfOk result (λ read. read.bytes.now ≡ bytes.now) }
{
    if bytes.len() < card::HEAD {
        return Err(Refusal::CardTooShort);
    }
    if records::lacks_mark(bytes, card::PLAIN_HEAD) {
        return Err(Refusal::WrongMark);
    }
    let head = card::read_formed(bytes, Form::Plain)?;
    Ok(Card { bytes, head })
}

// The bytes of a table of so many gates.
fn size_of(gates: u16) -> usize
    ensures { result ≡ 8 * (gates + 1) }
{
    RECORD * (usize::from(gates) + 1)
}

// The base table alone, where no step size is within the cap.
fn base_alone(
    card: Card<'_>,
    cap: Depth,
    base: Report,
    first: &mut [u8],
    tables: OrderLists<'_>,
) -> Result<Offered, Refusal>
    requires { Ready card.head.prime (conditions_of card.bytes.now) tables.constants.now tables.depths.now × (accepted (report_of base) ≡ forecasting card.bytes.now) }
    ensures { (c : CardIs) (second : List ℕ) → read_card card.entry.bytes.now ≡ accepted c → Leaves (base_alone cap.0 (table_of c) first.old second) result first.new second }
{
    if cap.0 < base.depth.0 {
        return Err(Refusal::DepthAboveCap);
    }
    if first.len() < size_of(base.gates) {
        return Err(Refusal::TableBufferTooSmall);
    }
    draft::write_table(card, 0, base.gates, first, tables);
    Ok(Offered::First(base))
}

// The part of the cheaper one within the cap; ties go to the first.
fn cheaper(cap: Depth, base: Report, other: Report) -> Offered
    ensures { (one two : Table) → report_of base ≡ reportOn one → report_of other ≡ reportOn two → handed result ≡ handed_of cap.0 one two }
{
    if base.depth.0 <= cap.0 {
        if base.cost.0 <= other.cost.0 {
            return Offered::First(base);
        }
    }
    Offered::Second(other)
}

// Both tables: the base table into the first, that of a step size within the cap into the second.
fn both_tables(
    card: Card<'_>,
    cap: Depth,
    base: Report,
    best: Rated,
    first: &mut [u8],
    second: &mut [u8],
    tables: OrderLists<'_>,
) -> Result<Offered, Refusal>
    requires ready { Ready card.head.prime (conditions_of card.bytes.now) tables.constants.now tables.depths.now × (accepted (report_of base) ≡ forecasting card.bytes.now) }
    requires step { IsStep card.head.prime best.step × ((c : CardIs) → read_card card.bytes.now ≡ accepted c → (report_of best.told ≡ reportOn (step_table c best.step)) × (length (step_table c best.step).gates ≤ most_gates)) }
    ensures { (c : CardIs) → read_card card.entry.bytes.now ≡ accepted c → Leaves (both_tables cap.0 (table_of c) (step_table c best.step) first.old second.old) result first.new second.new }
{
    let other = best.told;
    if first.len() < size_of(base.gates) || second.len() < size_of(other.gates) {
        return Err(Refusal::TableBufferTooSmall);
    }
    draft::write_table(card, 0, base.gates, first, tables);
    draft::write_table(card, best.step, other.gates, second, tables);
    Ok(cheaper(cap, base, other))
}

// What a card that was read gives: both tables by its best step size within the cap, or where there is none the base table alone; or 29, or 11.
fn offer_read(
    card: Card<'_>,
    cap: Depth,
    first: &mut [u8],
    second: &mut [u8],
) -> Result<Offered, Refusal>
    ensures { (c : CardIs) → read_card card.entry.bytes.now ≡ accepted c → Leaves (offer_by cap.0 c first.old second.old (best_step cap.0 c)) result first.new second.new }
{
    let base = forecast::forecast_read(card);
    let tables = draft::prepare_order(card);
    let lists = tables.lists();
    match chooser::best_step(card, cap, base, lists) {
        None => base_alone(card, cap, base, first, lists),
        Some(best) => both_tables(card, cap, base, best, first, second, lists),
    }
}

// The base table of a plain card and that of its best step size within a depth cap, each at the start of its lent bytes, and of which one
// the part is handed back; or a refusal, which leaves the bytes as they are.
pub fn build_within(
    card: &[u8],
    cap: Depth,
    first: &mut [u8],
    second: &mut [u8],
) -> Result<Offered, Refusal>
    ensures answers { handed_answer result ≡ (offering card.now cap.0 first.old second.old).answer }
    ensures one { first.new ≡ (offering card.now cap.0 first.old second.old).first }
    ensures two { second.new ≡ (offering card.now cap.0 first.old second.old).second }
{
    let card = read_plain(card)?;
    offer_read(card, cap, first, second)
}

// The first bytes of a lent table, those of a table of so many gates; or all of them, where there are fewer.
fn first_gates(table: &[u8], gates: u16) -> &[u8]
    ensures { result.now ≡ take (8 * (gates + 1)) table.now }
{
    let size = size_of(gates).min(table.len());
    &table[..size]
}

// The part of one of the two tables, or no part of either.
pub fn offered_part<'a>(
    offered: Result<Offered, Refusal>,
    first: &'a [u8],
    second: &'a [u8],
) -> &'a [u8]
    ensures { result.now ≡ part_of offered first.now second.now }
{
    match offered {
        Ok(Offered::First(told)) => first_gates(first, told.gates),
        Ok(Offered::Second(told)) => first_gates(second, told.gates),
        Err(_) => &first[..0],
    }
}
