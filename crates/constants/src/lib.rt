// The b of SCALEs: of a number modulo p, and of the constants of the order polynomial, all those of a prime at once.
#![tactic(auto)]

ghost use Rattle.std.specs.Prelude.{◌≡◌, ◌++◌, map, ◌+◌, ◌/◌, ◌%◌, ◌≤◌, ◌<◌, length, drop};
ghost use Rattle.field.specs.Byte.{byte_values};
ghost use Rattle.field.specs.Modular.{residue, mul_mod};
ghost use Rattle.field.specs.Sum.{total};
ghost use Rattle.field.specs.Polynomials.{order_constants};
ghost use Rattle.circuit.specs.Constant.{bits_of};
ghost use Rattle.constants.specs.Constants.{most_constants, one_to, products_mod, powers_mod, odd_bits};

use arithmetic::Modulus;

// Room for the order constants of any odd p that is a byte: one for each odd exponent below p, and one for p - 1.
pub const MOST_CONSTANTS: usize = 128;

// The b of a SCALE by x modulo p. Moved up by (p-1)/2, which is p / 2 as p is odd, the constants of both signs are the numbers below p:
// so one remainder finds the constant, without a branch on the sign.
pub fn bits_of(x: u16, p: u8) -> u16
    requires { (x < 0x8000) × (p % 2 ≡ 1) }
    ensures { result ≡ bits_of p (residue p x) }
{
    let half = u16::from(p / 2);
    let moved = u32::from(arithmetic::remainder(x + half, p));
    ((moved + 0x10000 - u32::from(half)) % 0x10000) as u16
}

// A modulus from 2 on, and how often it goes into 65,536. With that a remainder takes two products and no division.
#[derive(Clone, Copy)]
struct Reducer {
    p: u8,
    reciprocal: u16,
    ghost least: { 2 ≤ p },
    ghost quotient: { reciprocal ≡ 65536 / p },
}

impl Reducer {
    // The reducer of a modulus.
    fn of(p: u8) -> Reducer
        requires { 2 ≤ p }
        ensures { result.p ≡ p }
    {
        Reducer {
            p,
            reciprocal: (65536 / u32::from(p)) as u16,
        }
    }

    // x modulo p. The quotient that the reciprocal gives is the right one or one less.
    fn reduce(self, x: u16) -> u8
        ensures { result ≡ residue self.p x }
    {
        let p = u16::from(self.p);
        let quotient = (u32::from(x) * u32::from(self.reciprocal) / 65536) as u16;
        let rest = x - quotient * p;
        if rest < p {
            return rest as u8;
        }
        (rest - p) as u8
    }

    // a times b modulo p, without a division.
    fn mul(self, a: u8, b: u8) -> u8
        ensures { result ≡ mul_mod self.p a b }
    {
        self.reduce(u16::from(a) * u16::from(b))
    }
}

// Puts 1, 2, 3, .. into the list.
fn put_ascending(list: &mut [u8])
    requires { length list.old < byte_values }
    ensures { list.new ≡ one_to (length list.old) }
{
    for (i, entry) in list.iter_mut().enumerate() {
        *entry = (i + 1) as u8;
    }
}

// Puts the squares of 1, 2, 3, .. modulo p into the list.
fn put_squares(list: &mut [u8], p: u8)
    requires { length list.old < byte_values }
    ensures { list.new ≡ powers_mod p 2 (length list.old) }
{
    for (i, entry) in list.iter_mut().enumerate() {
        let b = (i + 1) as u8;
        *entry = arithmetic::mul_mod(b, b, p);
    }
}

// Multiplies each entry by the factor at its place, modulo the reducer's p.
fn multiply_each(list: &mut [u8], factors: &[u8], reducer: Reducer)
    requires { length list.old ≡ length factors.now }
    ensures { list.new ≡ products_mod reducer.p list.old factors.now }
{
    for (i, entry) in list.iter_mut().enumerate() {
        *entry = reducer.mul(*entry, factors[i]);
    }
}

// The sum of the entries.
fn sum_of(list: &[u8]) -> u16
    requires { length list.now ≤ most_constants }
    ensures { (result ≡ total list.now) × (result < 0x8000) }
{
    list.iter().map(|entry| u16::from(*entry)).sum()
}

// Puts the constants of the odd exponents below p at the start of constants, from the last one down. The powers b^1, b^3, .. go up by
// a factor b^2 each time, so that a constant takes one product and one addition for each b.
fn put_odd_constants(reducer: Reducer, powers: &mut [u8], squares: &[u8], constants: &mut [u16])
    requires { (powers.old ≡ powers_mod reducer.p 1 (reducer.p / 2)) × (squares.now ≡ powers_mod reducer.p 2 (reducer.p / 2)) × (reducer.p / 2 ≤ length constants.old) × (reducer.p % 2 ≡ 1) }
    ensures { constants.new ≡ odd_bits reducer.p ++ drop (reducer.p / 2) constants.old }
{
    for k in (0..powers.len()).rev() {
        constants[k] = bits_of(sum_of(powers), reducer.p);
        multiply_each(powers, squares, reducer);
    }
}

// Puts the order constants of p at the start of constants.
pub fn put_order_constants(m: Modulus, constants: &mut [u16])
    requires { m.p / 2 + 1 ≤ length constants.old }
    ensures { constants.new ≡ map (bits_of m.p) (order_constants m.p) ++ drop (m.p / 2 + 1) constants.old }
{
    let reducer = Reducer::of(m.p as u8);
    let p = reducer.p;
    let half = usize::from(p / 2);
    let mut powers = [0u8; MOST_CONSTANTS];
    let mut squares = [0u8; MOST_CONSTANTS];
    put_ascending(&mut powers[..half]);
    put_squares(&mut squares[..half], p);
    constants[half] = bits_of(u16::from(p / 2 + 1), p);
    put_odd_constants(reducer, &mut powers[..half], &squares[..half], constants);
}
