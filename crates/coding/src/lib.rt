// Digit coding: Encode and Decode.
#![tactic(auto)]

ghost use Rattle.std.specs.Prelude.{◌≡◌, true, ◌++◌, ◌+◌, ◌-◌, ◌*◌, ◌^◌, ◌≤◌, ◌<◌, ltb, length, drop};
ghost use Rattle.answer.specs.Settled.{settled_answer};
ghost use Rattle.field.specs.Byte.{byte_values};
ghost use Rattle.field.specs.Primes.{listed};
ghost use Rattle.digits.specs.Number.{base, all_below, digits_of};
ghost use Rattle.coding.specs.Answers.{decode_answer};
ghost use Rattle.digits.specs.Encoding.{encoding};
ghost use Rattle.digits.specs.Decoding.{total_of, decoding};

use answer::Refusal;
use digits::MOST_DIGITS;

// Whether sum * base + digit passes the largest u64, which is most * base + last.
fn passes(sum: u64, digit: u64, base: u64, most: u64, last: u64) -> bool
    requires { (most * base + last ≡ 2 ^ 64 - 1) × (last < base) × (digit < base) }
    ensures { result ≡ ltb (2 ^ 64 - 1) (sum * base + digit) }
{
    most < sum || (most == sum && last < digit)
}

// The base of digits.
#[derive(Clone, Copy)]
struct Base {
    b: u64,
    ghost some: { 0 < b },
    ghost byte: { b ≤ byte_values },
}

impl Base {
    // The base of a listed prime's digits, B = (p + 1) / 2.
    fn of(p: u8) -> Base
        requires { listed p ≡ true }
        ensures { result.b ≡ base p }
    {
        Base {
            b: (u64::from(p) + 1) / 2,
        }
    }

    // Whether x has n digits, which is to be below b^n. That may pass 64 bits: then it is above every u64.
    fn has_digits(self, x: u64, n: usize) -> bool
        ensures { result ≡ ltb x (self.b ^ n) }
    {
        let most = u64::MAX / self.b;
        let mut power: u64 = 1;
        for _ in 0..n {
            if most < power {
                return true;
            }
            power *= self.b;
        }
        x < power
    }

    // Puts the n lowest digits of x at the start of out.
    fn put_digits(self, x: u64, n: usize, out: &mut [u8])
        requires { n ≤ length out.old }
        ensures { out.new ≡ digits_of self.b n x ++ drop n out.old }
    {
        let mut rest = x;
        for place in &mut out[..n] {
            *place = (rest % self.b) as u8;
            rest /= self.b;
        }
    }

    // The number that the digits stand for, from the highest digit down, unless it passes 64 bits.
    fn total(self, digits: &[u8]) -> Result<u64, Refusal>
        requires { all_below self.b digits.now ≡ true }
        ensures { decode_answer result ≡ total_of self.b digits.now }
    {
        let most = u64::MAX / self.b;
        let last = u64::MAX % self.b;
        let mut sum: u64 = 0;
        for entry in digits.iter().rev() {
            let digit = u64::from(*entry);
            if passes(sum, digit, self.b, most, last) {
                return Err(Refusal::NumberTooWide);
            }
            sum = sum * self.b + digit;
        }
        Ok(sum)
    }
}

// Writes number as n digits at the start of out, or refuses and leaves out as it is.
pub fn encode(p: u8, n: usize, number: u64, out: &mut [u8]) -> Result<(), Refusal>
    ensures answers { settled_answer result ≡ (encoding p n number out.old).answer }
    ensures leaves { out.new ≡ (encoding p n number out.old).lent }
{
    if !arithmetic::is_listed(p) {
        return Err(Refusal::PrimeNotListed);
    }
    if n < 1 || MOST_DIGITS < n {
        return Err(Refusal::DigitCount);
    }
    if out.len() < n {
        return Err(Refusal::OutBufferTooSmall);
    }
    let base = Base::of(p);
    if !base.has_digits(number, n) {
        return Err(Refusal::NumberTooLarge);
    }
    base.put_digits(number, n, out);
    Ok(())
}

// Whether each digit is below base.
pub fn are_below(digits: &[u8], base: u64) -> bool
    ensures { result ≡ all_below base digits.now }
{
    digits.iter().all(|digit| u64::from(*digit) < base)
}

// The number that the digits stand for, or a refusal.
pub fn decode(p: u8, digits: &[u8]) -> Result<u64, Refusal>
    ensures { decode_answer result ≡ decoding p digits.now }
{
    if !arithmetic::is_listed(p) {
        return Err(Refusal::PrimeNotListed);
    }
    if digits.len() < 1 || MOST_DIGITS < digits.len() {
        return Err(Refusal::DigitCount);
    }
    let base = Base::of(p);
    if !are_below(digits, base.b) {
        return Err(Refusal::DigitTooLarge);
    }
    base.total(digits)
}
