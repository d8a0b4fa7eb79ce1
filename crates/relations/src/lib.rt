// The relations of conditions, and what each asks for.
#![tactic(auto)]

ghost use Rattle.std.specs.Prelude.{◌≡◌};
ghost use Rattle.answer.specs.Outcome.{numbered};
ghost use Rattle.answer.specs.Settled.{answer_of};
ghost use Rattle.comparison.specs.Relation.{relations, is_order, is_backward, is_flipped};
ghost use Rattle.relations.specs.Relations.{relation_is};

use answer::Refusal;

// The relations between left and right, in the order of their numbers.
#[derive(Clone, Copy, Debug, PartialEq, Eq)]
pub enum Relation {
    Less,
    AtMost,
    Greater,
    AtLeast,
    Equal,
    NotEqual,
}

// The relation of a number, or 8.
impl TryFrom<u8> for Relation {
    type Error = Refusal;

    ghost try_from_gives = { λ number read. answer_of relation_is read ≡ numbered 8 number relations };

    fn try_from(number: u8) -> Result<Relation, Refusal> {
        match number {
            1 => Ok(Relation::Less),
            2 => Ok(Relation::AtMost),
            3 => Ok(Relation::Greater),
            4 => Ok(Relation::AtLeast),
            5 => Ok(Relation::Equal),
            6 => Ok(Relation::NotEqual),
            _ => Err(Refusal::UnknownRelation),
        }
    }
}

impl Relation {
    // Whether a relation compares by order.
    pub fn is_order(self) -> bool
        ensures { result ≡ is_order (relation_is self) }
    {
        !matches!(self, Relation::Equal | Relation::NotEqual)
    }

    // Whether a relation takes right minus left.
    pub fn is_backward(self) -> bool
        ensures { result ≡ is_backward (relation_is self) }
    {
        matches!(self, Relation::AtMost | Relation::Greater)
    }

    // Whether a relation ends with FLIP.
    pub fn is_flipped(self) -> bool
        ensures { result ≡ is_flipped (relation_is self) }
    {
        matches!(
            self,
            Relation::AtMost | Relation::AtLeast | Relation::NotEqual
        )
    }
}
