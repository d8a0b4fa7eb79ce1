// The best step size of a card: each is rated, and the best so far is kept.
#![tactic(auto)]

ghost use Rattle.std.specs.Prelude.{◌≡◌, ◌&&◌, ◌||◌, List, ℕ, ltb, eqb};
ghost use Rattle.answer.specs.Outcome.{accepted};
ghost use Rattle.answer.specs.Report.{report_of, report_answer};
ghost use Rattle.circuit.specs.Report.{report as reportOn};
ghost use Rattle.query.specs.Card.{Card as CardIs};
ghost use Rattle.query.specs.Outcomes.{forecasting};
ghost use Rattle.query.specs.Reading.{read_card};
ghost use Rattle.query.specs.Whole.{table_of};
ghost use Rattle.offer.specs.Best.{better as betterOf};
ghost use Rattle.offer.specs.Digits.{order_digits};
ghost use Rattle.offer.specs.Offer.{step_cost, step_depth, counts as countsOf, best_step};
ghost use Rattle.card.specs.Conditions.{conditions_of};
ghost use Rattle.draft.specs.Conditions.{Ready};
ghost use Rattle.rating.specs.Rated.{rated};
ghost use Rattle.chooser.specs.Kept.{choice_is, Kept};

use answer::{Depth, Refusal, Report};
use card::Card;
use powers::OrderLists;
use rating::{SCRATCH, Search};

// A step size with the report on its table.
#[derive(Clone, Copy, Debug, PartialEq, Eq)]
pub struct Rated {
    pub step: u16,
    pub told: Report,
}

// Whether a table costs less than another, or as much and is less deep.
fn precedes(new: Report, old: Report) -> bool
    ensures { result ≡ (ltb new.cost.0 old.cost.0 || (eqb new.cost.0 old.cost.0 && ltb new.depth.0 old.depth.0)) }
{
    (new.cost.0, new.depth.0) < (old.cost.0, old.depth.0)
}

// The better of a step size and the best so far, which is lower.
fn better(
    cap: Depth,
    step: u16,
    told: Result<Report, Refusal>,
    best: Option<Rated>,
) -> Option<Rated>
    ensures { (c : CardIs) → report_answer told ≡ rated c step → Kept c best → (choice_is result ≡ betterOf (step_cost c) (step_depth c) (countsOf cap.0 c) step (choice_is best)) × Kept c result }
{
    let Ok(new) = told else {
        return best;
    };
    let is_deep = cap.0 < new.depth.0;
    if is_deep {
        return best;
    }
    match best {
        Some(old) if !precedes(new, old.told) => best,
        _ => Some(Rated { step, told: new }),
    }
}

// The best of the step sizes 1 to (p-1)/2.
fn best_of(search: Search<'_>, cap: Depth, table: &mut [u8; SCRATCH]) -> Option<Rated>
    ensures { (c : CardIs) → read_card search.entry.card.bytes.now ≡ accepted c → (choice_is result ≡ best_step cap.0 c) × Kept c result }
{
    let half = (u16::from(search.card.head.prime) - 1) / 2;
    let mut best = None;
    for k in 1..half + 1 {
        let told = search.rate(k, table);
        best = better(cap, k, told, best);
    }
    best
}

// The best step size of a card without an order condition: every step size gives the base table, so that the lowest is chosen.
fn lowest(cap: Depth, base: Report) -> Option<Rated>
    ensures { (bytes : List ℕ) (c : CardIs) → read_card bytes ≡ accepted c → order_digits c.conditions ≡ 0 → report_of base ≡ reportOn (table_of c) → (choice_is result ≡ best_step cap.0 c) × Kept c result }
{
    if base.depth.0 <= cap.0 {
        return Some(Rated {
            step: 1,
            told: base,
        });
    }
    None
}

// The best step size of a card within a depth cap, by the report on its base table. A card without an order condition is not searched.
pub fn best_step(card: Card<'_>, cap: Depth, base: Report, tables: OrderLists<'_>) -> Option<Rated>
    requires { Ready card.head.prime (conditions_of card.bytes.now) tables.constants.now tables.depths.now × (accepted (report_of base) ≡ forecasting card.bytes.now) }
    ensures { (c : CardIs) → read_card card.entry.bytes.now ≡ accepted c → (choice_is result ≡ best_step cap.0 c) × Kept c result }
{
    let digits = rating::count_digits(card);
    if digits.all == 0 {
        return lowest(cap, base);
    }
    let mut table = [0u8; SCRATCH];
    let equal = rating::count_equal(&mut table, draft::modulus_of(card));
    let search = Search {
        card,
        base: base.gates,
        digits,
        equal,
        tables,
    };
    best_of(search, cap, &mut table)
}
