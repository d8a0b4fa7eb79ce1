// What an operation answers, told as a number, and a value, a report, and which of two tables it is of, told through what is lent.
#![tactic(auto)]

ghost use Rattle.std.specs.Prelude.{◌≡◌, ◌+◌, ◌*◌, eqb};
ghost use Rattle.answer.specs.Outcome.{refusal_in};
ghost use Rattle.answer.specs.Report.{report_answer};
ghost use Rattle.answer.specs.Settled.{answer_of, settled_answer};
ghost use Rattle.within.specs.Handed.{handed_answer};
ghost use Rattle.told.specs.Told.{is_accepted, after, told_of, which_after, length_after, gates_after, products_after, squares_after, cost_after, depth_after};

use answer::{Refusal, Report};
use within::Offered;

// 0 for an operation that is done, or the number of the refusal.
pub fn number_of(answer: Result<(), Refusal>) -> u8
    ensures status { result ≡ refusal_in (settled_answer answer) }
    ensures success { eqb result 0 ≡ is_accepted (settled_answer answer) }
{
    match answer {
        Ok(()) => 0,
        Err(why) => u8::from(why),
    }
}

// Tells the value, or only the number of the refusal.
pub fn put_value<T: Copy>(found: Result<T, Refusal>, value: &mut T) -> u8
    ensures status { result ≡ refusal_in (answer_of (λ told. told) found) }
    ensures success { eqb result 0 ≡ is_accepted (answer_of (λ told. told) found) }
    ensures told { value.new ≡ after (λ told. told) value.old (answer_of (λ told. told) found) }
{
    match found {
        Ok(told) => {
            *value = told;
            0
        }
        Err(why) => u8::from(why),
    }
}

// Tells the report, or only the number of the refusal.
pub fn put_report(
    told: Result<Report, Refusal>,
    gates: &mut u16,
    products: &mut u16,
    squares: &mut u16,
    cost: &mut u32,
    depth: &mut u16,
) -> u8
    ensures status { result ≡ refusal_in (report_answer told) }
    ensures success { eqb result 0 ≡ is_accepted (report_answer told) }
    ensures gates { gates.new ≡ gates_after gates.old (report_answer told) }
    ensures products { products.new ≡ products_after products.old (report_answer told) }
    ensures squares { squares.new ≡ squares_after squares.old (report_answer told) }
    ensures cost { cost.new ≡ cost_after cost.old (report_answer told) }
    ensures depth { depth.new ≡ depth_after depth.old (report_answer told) }
{
    match told {
        Ok(report) => {
            *gates = report.gates;
            *products = report.products;
            *squares = report.squares;
            *cost = report.cost.0;
            *depth = report.depth.0;
            0
        }
        Err(why) => u8::from(why),
    }
}

// Tells what is handed back of two tables, or only the number of the refusal.
pub fn put_offered(
    offered: Result<Offered, Refusal>,
    which: &mut u8,
    part_length: &mut usize,
    gates: &mut u16,
    products: &mut u16,
    squares: &mut u16,
    cost: &mut u32,
    depth: &mut u16,
) -> u8
    ensures status { result ≡ refusal_in (handed_answer offered) }
    ensures success { eqb result 0 ≡ is_accepted (handed_answer offered) }
    ensures which { which.new ≡ which_after which.old (handed_answer offered) }
    ensures part { part_length.new ≡ length_after part_length.old (handed_answer offered) }
    ensures gates { gates.new ≡ gates_after gates.old (told_of (handed_answer offered)) }
    ensures products { products.new ≡ products_after products.old (told_of (handed_answer offered)) }
    ensures squares { squares.new ≡ squares_after squares.old (told_of (handed_answer offered)) }
    ensures cost { cost.new ≡ cost_after cost.old (told_of (handed_answer offered)) }
    ensures depth { depth.new ≡ depth_after depth.old (told_of (handed_answer offered)) }
{
    let (number, told) = match offered {
        Ok(Offered::First(told)) => (1, told),
        Ok(Offered::Second(told)) => (2, told),
        Err(why) => return u8::from(why),
    };
    *which = number;
    *part_length = 8 * (usize::from(told.gates) + 1);
    put_report(Ok(told), gates, products, squares, cost, depth)
}
