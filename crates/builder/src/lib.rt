// Build.
#![tactic(auto)]

ghost use Rattle.std.specs.Prelude.{◌≡◌, ◌+◌, ◌≤◌};
ghost use Rattle.answer.specs.Outcome.{accepted};
ghost use Rattle.answer.specs.Report.{report_of as reported, report_answer};
ghost use Rattle.circuit.specs.Table.{most_gates};
ghost use Rattle.query.specs.Outcomes.{building};
ghost use Rattle.builder.specs.Report.{report_is};

use answer::{Depth, Refusal, Report};
use records::RECORD;
use writer::Written;

// The report on gates that were counted while they were written; the last is the output.
pub fn report_of(written: Written, weight: u8) -> Report
    requires { written.pen.products + written.pen.squares ≤ most_gates }
    ensures { accepted (reported result) ≡ accepted (report_is written.pen written.node.depth weight) }
{
    let pen = written.pen;
    Report {
        gates: pen.next,
        products: pen.products as u16,
        squares: pen.squares as u16,
        cost: answer::cost_of(pen.products, pen.squares, weight),
        depth: Depth(written.node.depth),
    }
}

// The table of a card at the start of the lent bytes and the report on it, or a refusal, which leaves
// the bytes as they are.
pub fn build(card: &[u8], table: &mut [u8]) -> Result<Report, Refusal>
    ensures answers { report_answer result ≡ (building card.now table.old).answer }
    ensures leaves { table.new ≡ (building card.now table.old).lent }
{
    let card = card::read_card(card)?;
    let told = forecast::forecast_read(card);
    if table.len() < RECORD * (usize::from(told.gates) + 1) {
        return Err(Refusal::TableBufferTooSmall);
    }
    let tables = draft::prepare_order(card);
    let written = draft::write_table(card, 0, told.gates, table, tables.lists());
    Ok(report_of(written, card.head.weight))
}
