// Arithmetic of the prime field: which primes are listed, the operations modulo p, logarithms.
#![tactic(auto)]

ghost use Rattle.std.specs.Prelude.{◌≡◌, ◌<◌, ◌≤◌, ◌%◌};
ghost use Rattle.field.specs.Byte.{byte_values};
ghost use Rattle.field.specs.Member.{member};
ghost use Rattle.field.specs.Primes.{primes, listed};
ghost use Rattle.field.specs.Modular.{residue, add_mod, sub_mod, mul_mod};
ghost use Rattle.field.specs.Logarithm.{flog, clog};

// The odd primes from 3 to 251, ascending.
const PRIMES: [u8; 53] = [
    3, 5, 7, 11, 13, 17, 19, 23, 29, 31, 37, 41, 43, 47, 53, 59, 61, 67, 71, 73, 79, 83, 89, 97,
    101, 103, 107, 109, 113, 127, 131, 137, 139, 149, 151, 157, 163, 167, 173, 179, 181, 191, 193,
    197, 199, 211, 223, 227, 229, 233, 239, 241, 251,
];

// An odd modulus from 3 on that is a byte.
#[derive(Clone, Copy, Debug, PartialEq, Eq)]
pub struct Modulus {
    pub p: u16,
    ghost least: { 3 ≤ p },
    ghost odd: { p % 2 ≡ 1 },
    ghost byte: { p < byte_values },
}

// The array of primes: that it is the list of the definition is its rule.
fn listed_primes() -> [u8; 53]
    ensures { result ≡ primes }
{
    PRIMES
}

// Whether x stands in the list. It goes through to the end, so that the compiler can compare many entries at a time.
fn contains(list: &[u8], x: u8) -> bool
    ensures { result ≡ member x list.now }
{
    let mut found = false;
    for entry in list {
        found |= *entry == x;
    }
    found
}

// Whether p is one of the listed primes.
pub fn is_listed(p: u8) -> bool
    ensures { result ≡ listed p }
{
    let list = listed_primes();
    contains(&list, p)
}

// x modulo p, and 0 where p is 0.
pub fn remainder(x: u16, p: u8) -> u8
    ensures { result ≡ residue p x }
{
    if p == 0 {
        return 0;
    }
    (x % u16::from(p)) as u8
}

// a + b modulo p.
pub fn add_mod(a: u8, b: u8, p: u8) -> u8
    ensures { result ≡ add_mod p a b }
{
    remainder(u16::from(a) + u16::from(b), p)
}

// a - b modulo p: minus b is b times p - 1.
pub fn sub_mod(a: u8, b: u8, p: u8) -> u8
    ensures { result ≡ sub_mod p a b }
{
    if p == 0 {
        return 0;
    }
    remainder(u16::from(a) + u16::from(p - 1) * u16::from(b), p)
}

// a times b modulo p.
pub fn mul_mod(a: u8, b: u8, p: u8) -> u8
    ensures { result ≡ mul_mod p a b }
{
    remainder(u16::from(a) * u16::from(b), p)
}

// The floor of log2 n, 0 at 0.
pub fn floor_log2(n: u16) -> u16
    ensures { result ≡ flog n }
{
    if n == 0 {
        return 0;
    }
    n.ilog2() as u16
}

// The ceiling of log2 n, 0 at 0: above 1, one more than the floor of log2 (n - 1).
pub fn ceil_log2(n: u16) -> u16
    ensures { result ≡ clog n }
{
    if n <= 1 {
        return 0;
    }
    (n - 1).ilog2() as u16 + 1
}
