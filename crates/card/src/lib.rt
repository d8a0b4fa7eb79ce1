// Reading query cards.
#![tactic(auto)]

ghost use Rattle.std.specs.Prelude.{◌≡◌, ℕ, ◌*◌, ◌≤◌, length, IfOk};
ghost use Rattle.answer.specs.Settled.{answer_of};
ghost use Rattle.circuit.specs.Bytes.{wrong_mark};
ghost use Rattle.query.specs.Card.{most_conditions, wrong_total};
ghost use Rattle.query.specs.Form.{head_size, Scored, Shared, question_of, record_mark_of, record_size, form_of, read_tail};
ghost use Rattle.query.specs.Reading.{read_counted, read_condition, within_limits};
ghost use Rattle.records.specs.Head.{slots_is};
ghost use Rattle.records.specs.Marks.{mark_of};
ghost use Rattle.relations.specs.Relations.{relation_is};
ghost use Rattle.card.specs.Accepted.{card_answer};
ghost use Rattle.card.specs.Parts.{form_is, question_is, record_is, weight_in, left_in, read_sums, head_is, slots_said, read_summary, read_formed_summary};

use answer::Refusal;
use records::{LEAST_WEIGHT, MOST_WEIGHT, SlotCounts};
use relations::Relation;

mod accepted;

pub use accepted::{Card, Conditions};

// For each form the marks of a head and of a record, and the bytes of a record.
pub const PLAIN_HEAD: [u8; 2] = [0xC5, 0x48];

const PLAIN_RECORD: [u8; 2] = [0xC5, 0x51];

pub const PLAIN_SIZE: usize = 4;

const SCORE_HEAD: [u8; 2] = [0xC5, 0x53];

const SCORE_RECORD: [u8; 2] = [0xC5, 0x57];

const SCORE_SIZE: usize = 6;

const SHARED_HEAD: [u8; 2] = [0xC5, 0x4A];

const SHARED_RECORD: [u8; 2] = [0xC5, 0x52];

const SHARED_SIZE: usize = 6;

// The bytes of a head.
pub const HEAD: usize = 6;

// The bytes of the longest record.
pub const MOST_RECORD: usize = SCORE_SIZE;

// The most conditions of a card.
pub const MOST_CONDITIONS: usize = 8;

// The form of a card, which the mark of its head tells.
#[derive(Clone, Copy, Debug, PartialEq, Eq)]
pub enum Form {
    Plain,
    Scored,
    Shared,
}

// What a card asks for.
#[derive(Clone, Copy, Debug, PartialEq, Eq)]
pub enum Question {
    YesOrNo,
    Score,
}

// The condition of a record: the relation, the digit count, the first slot on each side, and the weight in a score.
#[derive(Clone, Copy, Debug, PartialEq, Eq)]
pub struct Record {
    pub relation: Relation,
    pub digits: u8,
    pub left: u8,
    pub right: u8,
    pub weight: u8,
}

// The digits of all conditions together, their weights, and where the last of their left slots ends.
#[derive(Clone, Copy, Debug, Default, PartialEq, Eq)]
struct Sums {
    slots: u8,
    weights: u16,
    left: u8,
}

// The form, the prime, the weight of a square, the condition count, the digits of all conditions and the left slots that they use.
#[derive(Clone, Copy, Debug, PartialEq, Eq)]
pub struct CardHead {
    pub form: Form,
    pub prime: u8,
    pub weight: u8,
    pub count: u8,
    pub slots: u8,
    pub left: u8,
}

impl Form {
    // The bytes of a record.
    fn record_size(self) -> usize
        ensures { result ≡ record_size (form_is self) }
    {
        match self {
            Form::Plain => PLAIN_SIZE,
            Form::Scored => SCORE_SIZE,
            Form::Shared => SHARED_SIZE,
        }
    }

    // The mark of a record.
    fn record_mark(self) -> [u8; 2]
        ensures { mark_of result ≡ record_mark_of (form_is self) }
    {
        match self {
            Form::Plain => PLAIN_RECORD,
            Form::Scored => SCORE_RECORD,
            Form::Shared => SHARED_RECORD,
        }
    }

    // The weight in the record that the bytes begin with, or 0 where this form has none.
    fn weight_in(self, bytes: &[u8]) -> u8
        requires { record_size (form_is self) ≤ length bytes.now }
        ensures { result ≡ weight_in (form_is self) bytes.now }
    {
        match self {
            Form::Plain | Form::Shared => 0,
            Form::Scored => bytes[4],
        }
    }

    // The first left slot in the record that the bytes begin with, or where this form has none the next slot that is free.
    fn left_in(self, slot: u8, bytes: &[u8]) -> u8
        requires { record_size (form_is self) ≤ length bytes.now }
        ensures { result ≡ left_in (form_is self) slot bytes.now }
    {
        match self {
            Form::Plain | Form::Scored => slot,
            Form::Shared => bytes[4],
        }
    }

    // What a card of this form asks for.
    pub fn question(self) -> Question
        ensures { question_is result ≡ question_of (form_is self) }
    {
        match self {
            Form::Plain | Form::Shared => Question::YesOrNo,
            Form::Scored => Question::Score,
        }
    }
}

impl CardHead {
    // The slot counts in the head of the card's table. They go by what the head says, whatever bytes it was read from.
    pub fn slot_counts(self) -> SlotCounts
        ensures { slots_is result ≡ slots_said (head_is self) }
    {
        match self.form {
            Form::Plain | Form::Scored => SlotCounts::Both(self.slots),
            Form::Shared => SlotCounts::Each(self.left, self.slots),
        }
    }
}

// The form that the mark of a head tells, or 2.
fn form_of(card: &[u8]) -> Result<Form, Refusal>
    requires { 2 ≤ length card.now }
    ensures { answer_of form_is result ≡ form_of card.now }
{
    if !records::lacks_mark(card, PLAIN_HEAD) {
        return Ok(Form::Plain);
    }
    if !records::lacks_mark(card, SCORE_HEAD) {
        return Ok(Form::Scored);
    }
    if !records::lacks_mark(card, SHARED_HEAD) {
        return Ok(Form::Shared);
    }
    Err(Refusal::WrongMark)
}

// A record of a score card whose relation and digit count are known, or 25, or 5.
fn read_weighed(
    bytes: &[u8],
    prime: u8,
    slot: u8,
    relation: Relation,
    digits: u8,
) -> Result<Record, Refusal>
    requires { record_size Scored ≤ length bytes.now }
    ensures { answer_of record_is result ≡ read_tail Scored prime slot (relation_is relation) digits bytes.now }
{
    let weight = bytes[4];
    let spare = bytes[5];
    if weight == 0 || prime <= weight {
        return Err(Refusal::ScoreWeight);
    }
    if spare != 0 {
        return Err(Refusal::SpareNotZero);
    }
    Ok(Record {
        relation,
        digits,
        left: slot,
        right: slot,
        weight,
    })
}

// A record of a shared card whose relation and digit count are known, or 28, or 5. The record tells its first left slot.
fn read_shared(bytes: &[u8], slot: u8, relation: Relation, digits: u8) -> Result<Record, Refusal>
    requires { record_size Shared ≤ length bytes.now }
    ensures { (p : ℕ) → answer_of record_is result ≡ read_tail Shared p slot (relation_is relation) digits bytes.now }
{
    let left = bytes[4];
    let spare = bytes[5];
    if digits::MOST_DIGITS < usize::from(left) + usize::from(digits) {
        return Err(Refusal::LeftSlotsOutOfRange);
    }
    if spare != 0 {
        return Err(Refusal::SpareNotZero);
    }
    Ok(Record {
        relation,
        digits,
        left,
        right: slot,
        weight: 0,
    })
}

// A record whose relation is known, or 9, or what its form asks after that, which may go by the prime.
fn read_counted(
    bytes: &[u8],
    form: Form,
    prime: u8,
    slot: u8,
    relation: Relation,
) -> Result<Record, Refusal>
    requires { record_size (form_is form) ≤ length bytes.now }
    ensures { answer_of record_is result ≡ read_counted (form_is form) prime slot (relation_is relation) bytes.now }
{
    let digits = bytes[3];
    if records::outside(usize::from(digits), 1, digits::MOST_DIGITS) {
        return Err(Refusal::DigitCount);
    }
    match form {
        Form::Plain => Ok(Record {
            relation,
            digits,
            left: slot,
            right: slot,
            weight: 0,
        }),
        Form::Scored => read_weighed(bytes, prime, slot, relation, digits),
        Form::Shared => read_shared(bytes, slot, relation, digits),
    }
}

// The condition of the record that the bytes begin with, where slot is the next that is free, or the first of its rules that is broken.
pub fn read_record(bytes: &[u8], form: Form, prime: u8, slot: u8) -> Result<Record, Refusal>
    requires { record_size (form_is form) ≤ length bytes.now }
    ensures { answer_of record_is result ≡ read_condition (form_is form) prime slot bytes.now }
{
    if records::lacks_mark(bytes, form.record_mark()) {
        return Err(Refusal::WrongMark);
    }
    let relation = Relation::try_from(bytes[2])?;
    read_counted(bytes, form, prime, slot, relation)
}

// The sums over the first count records, or the first of their rules that is broken.
fn read_conditions(records: &[u8], form: Form, prime: u8, count: usize) -> Result<Sums, Refusal>
    requires { (count ≤ most_conditions) × (record_size (form_is form) * count ≤ length records.now) }
    ensures { answer_of (λ sums. sums) result ≡ read_sums (form_is form) prime count records.now }
{
    let size = form.record_size();
    let mut sums = Sums::default();
    for k in 0..count {
        let at = size * k;
        let condition = read_record(&records[at..], form, prime, sums.slots)?;
        let end = condition.left + condition.digits;
        sums.slots += condition.digits;
        sums.weights += u16::from(condition.weight);
        sums.left = sums.left.max(end);
    }
    Ok(sums)
}

// Whether the weights of a score together are not below the prime.
fn reaches_prime(question: Question, prime: u8, weights: u16) -> bool
    ensures { result ≡ wrong_total (question_is question) prime weights }
{
    match question {
        Question::YesOrNo => false,
        Question::Score => u16::from(prime) <= weights,
    }
}

// A card whose conditions are read, with their weights together, or 10, or 26.
fn limit_sums(head: CardHead, weights: u16) -> Result<CardHead, Refusal>
    ensures { answer_of head_is result ≡ within_limits (form_is head.form) head.prime head.slots weights (head_is head) }
{
    if digits::MOST_DIGITS < usize::from(head.slots) {
        return Err(Refusal::TooManyDigits);
    }
    if reaches_prime(head.form.question(), head.prime, weights) {
        return Err(Refusal::TotalWeight);
    }
    Ok(head)
}

// What a card says whose form is known, or the first rule that it breaks.
pub fn read_formed(card: &[u8], form: Form) -> Result<CardHead, Refusal>
    requires { head_size ≤ length card.now }
    ensures { answer_of head_is result ≡ read_formed_summary (form_is form) card.now }
{
    let prime = card[2];
    let weight = card[3];
    let count = card[4];
    let spare = card[5];
    if !arithmetic::is_listed(prime) {
        return Err(Refusal::PrimeNotListed);
    }
    if records::outside(usize::from(weight), LEAST_WEIGHT, MOST_WEIGHT) {
        return Err(Refusal::WeightOutOfRange);
    }
    if records::outside(usize::from(spare), 0, 0) {
        return Err(Refusal::SpareNotZero);
    }
    if records::outside(usize::from(count), 1, MOST_CONDITIONS) {
        return Err(Refusal::ConditionCount);
    }
    if card.len() != HEAD + form.record_size() * usize::from(count) {
        return Err(Refusal::CardLength);
    }
    let sums = read_conditions(&card[HEAD..], form, prime, usize::from(count))?;
    let head = CardHead {
        form,
        prime,
        weight,
        count,
        slots: sums.slots,
        left: sums.left,
    };
    limit_sums(head, sums.weights)
}

// What a card says, or the first rule that it breaks.
pub fn read_card(card: &[u8]) -> Result<Card<'_>, Refusal>
    ensures answer { card_answer result ≡ read_summary card.now }
    ensures given { IfOk result (λ read. read.bytes.now ≡ card.now) }
{
    if card.len() < HEAD {
        return Err(Refusal::CardTooShort);
    }
    let form = form_of(card)?;
    let head = read_formed(card, form)?;
    Ok(Card { bytes: card, head })
}
