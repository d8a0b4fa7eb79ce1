// The state of a build, as the code holds it.
ghost use Rattle.std.specs.Prelude.{◌≡◌, length};
ghost use Rattle.query.specs.Card.{most_conditions};

use card::MOST_CONDITIONS;
use writer::Node;

// Whether a build was begun, its prime and weight, how many conditions and slots were added, how many gates they have and how many
// products and squares are among these, and the output of each condition, of which the first count entries are in use.
#[derive(Clone, Copy, Debug, PartialEq, Eq)]
pub struct BuildState {
    pub begun: bool,
    pub prime: u8,
    pub weight: u8,
    pub count: u8,
    pub slots: u8,
    pub gates: u16,
    pub products: u16,
    pub squares: u16,
    pub outputs: [Node; MOST_CONDITIONS],
    // As the array's type says; so it is known of a state that is lent, too.
    pub ghost room: { length outputs ≡ most_conditions },
}
