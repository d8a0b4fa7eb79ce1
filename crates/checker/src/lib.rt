// Check and Trim.
#![tactic(auto)]

ghost use Rattle.std.specs.Prelude.{◌≡◌};
ghost use Rattle.answer.specs.Outcome.{accepted};
ghost use Rattle.answer.specs.Report.{report_of, report_answer};
ghost use Rattle.circuit.specs.Outcomes.{checking, trimming};

use answer::{Refusal, Report};
use reader::Table;
use records::RECORD;

// The report on a table that was read: its outline, and what counts of its gates.
fn report_on(table: Table<'_>) -> Report
    ensures { accepted (report_of result) ≡ checking table.entry.bytes.now }
{
    let told = table.outline;
    let counts = counter::count_products(table.bytes, usize::from(told.gates));
    let products = u32::from(counts.products);
    let squares = u32::from(counts.squares);
    Report {
        gates: told.gates,
        products: counts.products,
        squares: counts.squares,
        cost: answer::cost_of(products, squares, told.weight),
        depth: told.depth,
    }
}

// The report on a table, or the first rule that it breaks. Later bytes are not looked at.
pub fn check(table: &[u8]) -> Result<Report, Refusal>
    ensures { report_answer result ≡ checking table.now }
{
    let read = reader::read_table(table)?;
    Ok(report_on(read))
}

// The part of the bytes that is the table, or the empty part where Check refuses. Nothing is counted for it.
pub fn trim(table: &[u8]) -> &[u8]
    ensures { result.now ≡ trimming table.now }
{
    match reader::read_table(table) {
        Ok(read) => {
            let end = RECORD * (usize::from(read.outline.gates) + 1);
            &table[..end]
        }
        Err(_) => &table[..0],
    }
}
