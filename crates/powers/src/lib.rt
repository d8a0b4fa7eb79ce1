// Writing the powers of an order digit's difference, and the tables that order digits go by.
#![tactic(auto)]

ghost use Rattle.std.specs.Prelude.{◌≡◌, [], ◌∷◌, map, ◌+◌, ◌-◌, ◌/◌, ◌%◌, ◌≤◌, ◌<◌, length, get_or, replicate};
ghost use Rattle.field.specs.Byte.{byte_values};
ghost use Rattle.field.specs.Half.{half as half_of};
ghost use Rattle.circuit.specs.Table.{most_gates};
ghost use Rattle.constants.specs.Constants.{most_constants};
ghost use Rattle.comparison.specs.OrderDigit.{ascending, odd_exponents, power_of, powers, power_count, power_gate};
ghost use Rattle.writer.specs.Pen.{Moved};
ghost use Rattle.writer.specs.Writing.{HasRoom, Writes};
ghost use Rattle.powers.specs.Powers.{most_powers, IsWritten, Deep};
ghost use Rattle.powers.specs.Prepared.{Prepared};

use arithmetic::Modulus;
use constants::MOST_CONSTANTS;
use writer::{Gate, Node, Writer};

// Room for the depths of z and its powers, for any odd p that is a byte.
pub const MOST_POWERS: usize = 192;

// What order digits go by, the same for every digit, as lent lists of any length: the constants of the order polynomial, as SCALEs have them,
// and the depths of z and its powers. Entry k of the depths is that of gate z + k.
#[derive(Clone, Copy, Debug, PartialEq, Eq)]
pub struct OrderLists<'a> {
    pub constants: &'a [u16],
    pub depths: &'a [u16],
}

impl OrderLists<'_> {
    // The power z^i with its depth.
    pub fn power_at(self, p: u16, z: u16, i: u16) -> Node
        requires { (1 ≤ i) × (i ≤ p - 1) × (p < byte_values) × (z ≤ most_gates) × (power_gate p 0 i < length self.depths.now) }
        ensures { (result.gate ≡ z + power_gate p 0 i) × (result.depth ≡ get_or self.entry.depths.now (power_gate p 0 i) 0) }
    {
        let place = power_place(p, i);
        Node {
            gate: z + place,
            depth: self.depths[usize::from(place)],
        }
    }
}

// Room for both lists, for any odd p that is a byte.
#[derive(Clone, Copy, Debug, PartialEq, Eq)]
pub struct OrderTables {
    pub constants: [u16; MOST_CONSTANTS],
    pub depths: [u16; MOST_POWERS],
}

impl OrderTables {
    // Tables that hold nothing yet.
    pub fn new() -> OrderTables
        ensures { (result.constants ≡ replicate most_constants 0) × (result.depths ≡ replicate most_powers 0) }
    {
        OrderTables {
            constants: [0; MOST_CONSTANTS],
            depths: [0; MOST_POWERS],
        }
    }

    // Fills the tables for a modulus.
    pub fn prepare(&mut self, m: Modulus)
        ensures { Prepared m.p self.new.constants self.new.depths }
    {
        prepare(m, &mut self.constants, &mut self.depths);
    }

    // The power z^i of an odd modulus, with its depth, which these arrays have room for.
    pub fn power_at(&self, m: Modulus, z: u16, i: u16) -> Node
        requires { (1 ≤ i) × (i ≤ m.p - 1) × (z ≤ most_gates) }
        ensures { (result.gate ≡ z + power_gate m.p 0 i) × (result.depth ≡ get_or self.now.depths (power_gate m.p 0 i) 0) }
    {
        self.lists().power_at(m.p, z, i)
    }

    // The two as lists.
    pub fn lists(&self) -> OrderLists<'_>
        ensures { (result.constants.now ≡ self.now.constants) × (result.depths.now ≡ self.now.depths) }
    {
        OrderLists {
            constants: &self.constants,
            depths: &self.depths,
        }
    }
}

// Puts what order digits go by at the start of two lent lists.
pub fn prepare(m: Modulus, constants: &mut [u16], depths: &mut [u16])
    requires { (most_constants ≤ length constants.old) × (most_powers ≤ length depths.old) }
    ensures { Prepared m.p constants.new depths.new }
{
    constants::put_order_constants(m, constants);
    put_power_depths(m, depths);
}

// The power z^i, from those of its halves.
fn put_power(out: &mut Writer, z: u16, i: u16)
    requires { HasRoom out.old 1 × (2 ≤ i) × (i < byte_values) × (z + (i + 1) / 2 ≤ out.old.pen.next) }
    ensures { Writes out.old (power_of z i ∷ []) out.new }
{
    let low = i / 2 - 1;
    let high = (i + 1) / 2 - 1;
    out.put(Gate::Mul(z + low, z + high));
}

// The powers z^i for i = 2 to h.
pub fn put_low_powers(out: &mut Writer, z: u16, h: u16)
    requires { HasRoom out.old (h - 1) × (1 ≤ h) × (h < byte_values) × (out.old.pen.next ≡ z + 1) }
    ensures wrote { Writes out.old (map (power_of z) (ascending (h - 1) 2)) out.new }
    ensures moves { Moved out.old.pen (h - 1) out.new.pen }
{
    for i in 2..h + 1 {
        put_power(out, z, i);
    }
}

// The powers z^i for the odd i = 2k + 1 above (p-1)/2 to p-2.
fn put_odd_powers(out: &mut Writer, z: u16, m: Modulus)
    requires { HasRoom out.old (half_of m.p / 2) × (out.old.pen.next ≡ z + half_of m.p) }
    ensures wrote { Writes out.old (map (power_of z) (odd_exponents m.p)) out.new }
    ensures moves { Moved out.old.pen (half_of m.p / 2) out.new.pen }
{
    let half = (m.p - 1) / 2;
    for k in (half + 1) / 2..half {
        put_power(out, z, 2 * k + 1);
    }
}

// All powers of z.
pub fn put_powers(out: &mut Writer, z: u16, m: Modulus)
    requires { HasRoom out.old (power_count m.p) × (out.old.pen.next ≡ z + 1) }
    ensures wrote { Writes out.old (powers m.p z) out.new }
    ensures moves { Moved out.old.pen (power_count m.p) out.new.pen }
{
    put_low_powers(out, z, (m.p - 1) / 2);
    put_odd_powers(out, z, m);
    put_power(out, z, m.p - 1);
}

// How far after z the power z^i stands.
fn power_place(p: u16, i: u16) -> u16
    requires { (1 ≤ i) × (i ≤ p - 1) × (p < byte_values) }
    ensures { result ≡ power_gate p 0 i }
{
    let half = (p - 1) / 2;
    if i <= half {
        return i - 1;
    }
    half + (i / 2 - (half + 1) / 2)
}

// The depth of z^i at its place, after those of the lower powers: one more than the deeper of its halves'.
fn put_power_depth(m: Modulus, i: u16, depths: &mut [u16])
    requires written { (2 ≤ i) × IsWritten m.p i × (power_count m.p < length depths.old) }
    requires deep { Deep m.p depths.old i }
    ensures { Deep m.p depths.new (i + 1) }
{
    let low = depths[usize::from(i / 2 - 1)];
    let high = depths[usize::from((i + 1) / 2 - 1)];
    let depth = low.max(high) + 1;
    depths[usize::from(power_place(m.p, i))] = depth;
}

// The depths of z and its powers: z^i for i = 2 to (p-1)/2, for the odd i above that, and for p-1.
pub fn put_power_depths(m: Modulus, depths: &mut [u16])
    requires { power_count m.p < length depths.old }
    ensures { Deep m.p depths.new m.p }
{
    let half = (m.p - 1) / 2;
    depths[0] = 0;
    for i in 2..m.p {
        if i <= half || i % 2 == 1 || i == m.p - 1 {
            put_power_depth(m, i, depths);
        }
    }
}
