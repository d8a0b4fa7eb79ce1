// A card that was read: what it says, record by record.
ghost use Rattle.std.specs.Prelude.{◌≡◌, ◌≤◌, ◌<◌, length};
ghost use Rattle.query.specs.Form.{record_size};
ghost use Rattle.records.specs.Head.{slots_is};
ghost use Rattle.card.specs.Conditions.{ReadAs, conditions_of, Taken, IsRecord, IsWeight};
ghost use Rattle.card.specs.Parts.{form_is, records_from, head_is, slots_said};

use crate::{CardHead, HEAD, Record};
use records::SlotCounts;
use relations::Relation;

// A card's bytes and what they say.
#[derive(Clone, Copy, Debug, PartialEq, Eq)]
pub struct Card<'a> {
    pub bytes: &'a [u8],
    pub head: CardHead,
    pub ghost read: { ReadAs bytes.now head },
}

// The conditions of a card from one on, and the next slot that is free.
#[derive(Clone, Copy, Debug, PartialEq, Eq)]
pub struct Conditions<'a> {
    card: Card<'a>,
    k: usize,
    slot: u8,
    ghost few: { k ≤ card.head.count },
    ghost taken: { Taken (conditions_of card.bytes.now) k slot },
}

impl<'a> Card<'a> {
    ghost use Rattle.card.specs.Accepted.{conditions_left};

    // The bytes from record number k on.
    fn records_from(self, k: usize) -> &'a [u8]
        requires { k < self.head.count }
        ensures bytes { result.now ≡ records_from (form_is self.entry.head.form) k self.entry.bytes.now }
        ensures whole { record_size (form_is self.entry.head.form) ≤ length result.now }
    {
        let at = HEAD + self.head.form.record_size() * k;
        &self.bytes[at..]
    }

    // The weight of condition number k.
    pub fn weight(self, k: usize) -> u8
        requires { k < self.head.count }
        ensures { IsWeight (conditions_of self.entry.bytes.now) k result }
    {
        self.head.form.weight_in(self.records_from(k))
    }

    // Condition number k, where slot is the next that is free. No rule is tested again.
    pub fn condition(self, k: usize, slot: u8) -> Record
        requires { (k < self.head.count) × Taken (conditions_of self.bytes.now) k slot }
        ensures { IsRecord (conditions_of self.entry.bytes.now) k result }
    {
        let form = self.head.form;
        let bytes = self.records_from(k);
        let Ok(relation) = Relation::try_from(bytes[2]) else {
            unreachable!()
        };
        Record {
            relation,
            digits: bytes[3],
            left: form.left_in(slot, bytes),
            right: slot,
            weight: form.weight_in(bytes),
        }
    }

    // All conditions, one after the other.
    pub fn conditions(self) -> Conditions<'a>
        ensures { conditions_left result ≡ conditions_of self.entry.bytes.now }
    {
        Conditions {
            card: self,
            k: 0,
            slot: 0,
        }
    }

    // The slot counts in the head of the card's table.
    pub fn slot_counts(self) -> SlotCounts
        ensures { slots_is result ≡ slots_said (head_is self.entry.head) }
    {
        self.head.slot_counts()
    }
}

impl<'a> Iterator for Conditions<'a> {
    ghost use Rattle.std.specs.Iterator.{YieldsFirstBy, item_count};
    ghost use Rattle.card.specs.Accepted.{conditions_left};
    ghost use Rattle.card.specs.Parts.{record_is};

    type Item = Record;

    ghost next_gives = { YieldsFirstBy record_is conditions_left };

    ghost remaining = { item_count conditions_left };

    fn next(&mut self) -> Option<Record> {
        if self.k == usize::from(self.card.head.count) {
            return None;
        }
        let condition = self.card.condition(self.k, self.slot);
        self.k += 1;
        self.slot += condition.digits;
        Some(condition)
    }
}
