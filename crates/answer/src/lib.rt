// What the operations answer: why one turns its input away, and the report on a table.
#![tactic(auto)]

ghost use Rattle.std.specs.Prelude.{◌≡◌, ◌<◌};
ghost use Rattle.answer.specs.Numbers.{refusal_number};
ghost use Rattle.answer.specs.Report.{cost_of};

// Why an operation turns its input away: one name for each number of document 01, "Operations and
// what they turn away", and of document 02, E1, E4, E6, E7 and E8, in the order of the numbers.
#[derive(Clone, Copy, Debug, PartialEq, Eq)]
pub enum Refusal {
    CardTooShort,
    WrongMark,
    PrimeNotListed,
    WeightOutOfRange,
    SpareNotZero,
    ConditionCount,
    CardLength,
    UnknownRelation,
    DigitCount,
    TooManyDigits,
    TableBufferTooSmall,
    TableHeadTooShort,
    SlotCount,
    GateCount,
    TableTooShort,
    UnknownKind,
    WrongOperand,
    ListLength,
    ValueTooLarge,
    WorkBufferTooSmall,
    OutBufferTooSmall,
    NumberTooLarge,
    DigitTooLarge,
    NumberTooWide,
    ScoreWeight,
    TotalWeight,
    LastUseListTooShort,
    LeftSlotsOutOfRange,
    DepthAboveCap,
    TooManyConditions,
    NoOpenBuild,
}

// The number of a refusal.
impl From<Refusal> for u8 {
    ghost from_gives = { λ why number. number ≡ refusal_number why };

    fn from(why: Refusal) -> u8 {
        match why {
            Refusal::CardTooShort => 1,
            Refusal::WrongMark => 2,
            Refusal::PrimeNotListed => 3,
            Refusal::WeightOutOfRange => 4,
            Refusal::SpareNotZero => 5,
            Refusal::ConditionCount => 6,
            Refusal::CardLength => 7,
            Refusal::UnknownRelation => 8,
            Refusal::DigitCount => 9,
            Refusal::TooManyDigits => 10,
            Refusal::TableBufferTooSmall => 11,
            Refusal::TableHeadTooShort => 12,
            Refusal::SlotCount => 13,
            Refusal::GateCount => 14,
            Refusal::TableTooShort => 15,
            Refusal::UnknownKind => 16,
            Refusal::WrongOperand => 17,
            Refusal::ListLength => 18,
            Refusal::ValueTooLarge => 19,
            Refusal::WorkBufferTooSmall => 20,
            Refusal::OutBufferTooSmall => 21,
            Refusal::NumberTooLarge => 22,
            Refusal::DigitTooLarge => 23,
            Refusal::NumberTooWide => 24,
            Refusal::ScoreWeight => 25,
            Refusal::TotalWeight => 26,
            Refusal::LastUseListTooShort => 27,
            Refusal::LeftSlotsOutOfRange => 28,
            Refusal::DepthAboveCap => 29,
            Refusal::TooManyConditions => 30,
            Refusal::NoOpenBuild => 31,
        }
    }
}

// Levels. A type of its own, as is Cost, so that levels and hundredths never meet in one sum.
#[derive(Clone, Copy, Debug, PartialEq, Eq)]
pub struct Depth(pub u16);

// Hundredths.
#[derive(Clone, Copy, Debug, PartialEq, Eq)]
pub struct Cost(pub u32);

// The counts of a table.
#[derive(Clone, Copy, Debug, PartialEq, Eq)]
pub struct Report {
    pub gates: u16,
    pub products: u16,
    pub squares: u16,
    pub cost: Cost,
    pub depth: Depth,
}

// 100 for each product and the weight for each square.
pub fn cost_of(products: u32, squares: u32, weight: u8) -> Cost
    requires { (products < 65536) × (squares < 65536) }
    ensures { result.0 ≡ cost_of weight products squares }
{
    Cost(100 * products + u32::from(weight) * squares)
}
