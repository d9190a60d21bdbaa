// Lower-case hexadecimal: from characters to numbers and back. What the contracts cite is in specs/Hexadecimal.antt and
// specs/Readings.antt.
//
//   number       what characters spell: a number, or nothing
//   code         a character as a number
//   four, eight  characters as one number
//   packed       eight values as one number
//   word         what eight characters spell
//   character    the digit of a value
//   write        a number in digits
#![tactic(auto)]

ghost use Rattle.std.specs.Prelude.{◌≡◌, ◌++◌, ◌+◌, ◌≤◌, ◌<◌, length, take, drop};
ghost use Rattle.hexadecimal.specs.Hexadecimal.{character_of, digits_of};
ghost use Rattle.hexadecimal.specs.Readings.{reading_of};
ghost use Rattle.hexadecimal.specs.Joining.{Code, Joined, packed_of};

// The digits of a word.
pub const DIGITS: usize = 8;

// The base.
const BASE: u32 = 16;

// The code of the digit 0, and ten less than that of the digit a.
const ZERO: u32 = 48;

const LETTER: u32 = 87;

// The same byte eight times: the lower half of a byte, the upper half, the bit 64, which letters have, the upper half of the code of
// a decimal digit, what takes 10 and more over 15, and the bit that they then have.
const LOWER: u64 = 0x0f0f0f0f0f0f0f0f;

const UPPER: u64 = 0xf0f0f0f0f0f0f0f0;

const LETTER_BIT: u64 = 0x4040404040404040;

const DECIMAL: u64 = 0x3030303030303030;

const SIX: u64 = 0x0606060606060606;

const OVER: u64 = 0x1010101010101010;

// What the count characters of s from place `at` on spell, if they are digits: at most 8, so that the number fits.
pub fn number(s: &[u8], at: usize, count: usize) -> Option<u32>
    requires { (at + count ≤ length s.now) × (count ≤ 8) }
    ensures { result ≡ reading_of (take count (drop at s.now)) }
{
    // The characters from 0 to f have here the one whose code is their value above that of 0, 64 where they are no digits. A test
    // between 9 and a would be a branch that is often foreseen wrongly.
    let values = b"0123456789@@@@@@@@@@@@@@@@@@@@@@@@@@@@@@@@@@@@@@@:;<=>?";
    let mut x: u32 = 0;
    for i in 0..count {
        let c = s[at + i];
        if c < b'0' {
            return None;
        }
        if c > b'f' {
            return None;
        }
        let place = (c - b'0') as usize;
        let v = values[place] - b'0';
        if v > 15 {
            return None;
        }
        x = x * BASE + (v as u32);
    }
    Some(x)
}

// The code of the character at place `at`.
fn code(s: &[u8], at: usize) -> u32
    requires { at < length s.now }
    ensures { Code s.now at result }
{
    s[at] as u32
}

// Four characters from place `at` on as one number, the first lowest.
fn four(s: &[u8], at: usize) -> u32
    requires { at + 4 ≤ length s.now }
    ensures { Joined (take 4 (drop at s.now)) result }
{
    code(s, at) + code(s, at + 1) * 0x100 + code(s, at + 2) * 0x10000 + code(s, at + 3) * 0x1000000
}

// Eight characters from place `at` on as one number, the first lowest.
pub fn eight(s: &[u8], at: usize) -> u64
    requires { at + 8 ≤ length s.now }
    ensures { Joined (take 8 (drop at s.now)) result }
{
    (four(s, at) as u64) + (four(s, at + 4) as u64) * 0x100000000
}

// The values of eight digits, a byte each and the first lowest, as the number that they spell.
fn packed(x: u64) -> u32
    requires { x ≤ 0x0f0f0f0f0f0f0f0f }
    ensures { result ≡ packed_of x }
{
    let p = x * 16 + x / 0x100;
    (p % 0x100 * 0x1000000
        + p / 0x10000 % 0x100 * 0x10000
        + p / 0x100000000 % 0x100 * 0x100
        + p / 0x1000000000000 % 0x100) as u32
}

// What the eight characters of s from place `at` on spell, if they are digits, all at once: a byte of `letters` is 1 where the character has the bit 64,
// which letters have; a byte of `values` is the value if the character is a digit, and one of `tens` is 1 where that is 10 or more. A
// character is a digit if its upper half is 3, or 6 for a letter, and its value is 10 or more for a letter alone: 49 is 3 * 16 + 1.
pub fn word(s: &[u8], at: usize) -> Option<u32>
    requires { at + 8 ≤ length s.now }
    ensures { result ≡ reading_of (take 8 (drop at s.now)) }
{
    let x = eight(s, at);
    let letters = (x & LETTER_BIT) / 64;
    let values = ((x & LOWER) + letters * 9) & LOWER;
    let tens = ((values + SIX) & OVER) / 16;
    if (x & UPPER) + tens != DECIMAL + letters * 49 {
        return None;
    }
    Some(packed(values))
}

// The digit whose value is x.
pub fn character(x: u32) -> u8
    requires { x < 16 }
    ensures { result ≡ character_of x }
{
    if x < 10 {
        return (ZERO + x) as u8;
    }
    (LETTER + x) as u8
}

// Writes x in count digits from place `at` on; what stands before and after them is left.
pub fn write(out: &mut [u8], at: usize, count: usize, x: u32)
    requires { at + count ≤ length out.old }
    ensures { out.new ≡ take at out.old ++ (digits_of count x ++ drop (at + count) out.old) }
{
    let mut y = x;
    for i in (0..count).rev() {
        out[at + i] = character(y % BASE);
        y = y / BASE;
    }
}
