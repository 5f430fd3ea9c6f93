//! Words that are numbers: decimal ones without leading zeros, and `0x` with lower-case digits.

ghost use Rattle.std.specs.Prelude.{◌≡◌, ◌≤◌, ◌<◌, ◌^◌, IfOk};
ghost use Rattle.rd_script.specs.Numbers.{digit_of, digits_from, number_of, number_word, number32_word, number64_word, flag_of, flag_word, small};
ghost use Rattle.rd_script.specs.Row.{ReadsWords};

use crate::why::LineWhy;
use crate::words::Words;

/// What a digit of a base up to 16 stands for.
fn digit_of(base: u64, byte: u8) -> Option<u64>
    ensures { result ≡ digit_of base byte }
{
    let digit = match byte {
        b'0'..=b'9' => u64::from(byte - b'0'),
        b'a'..=b'f' => u64::from(byte - b'a') + 10,
        _ => return None,
    };
    if digit < base { Some(digit) } else { None }
}

/// What digits say, where it fits 64 bits; none where there is another character.
pub fn digits_from(base: u64, digits: &[u8]) -> Option<u64>
    requires { 1 ≤ base }
    ensures { result ≡ small (digits_from base 0 digits.now) }
{
    let mut value = 0u64;
    for byte in digits {
        let digit = digit_of(base, *byte)?;
        value = value.checked_mul(base)?.checked_add(digit)?;
    }
    Some(value)
}

/// The number that a word is, where it fits 64 bits.
pub fn number_of(word: &[u8]) -> Option<u64>
    ensures { result ≡ small (number_of word.now) }
{
    match word {
        [] | [b'0', b'x'] => None,
        [b'0'] => Some(0),
        [b'0', b'x', digits @ ..] => digits_from(16, digits),
        [b'0', ..] => None,
        digits => digits_from(10, digits),
    }
}

/// A number of a range.
#[tactic(auto, unfolding(crate::specs::Numbers::number_word))]
pub fn read_number(words: &mut Words<'_>, least: u64, most: u64) -> Result<u64, LineWhy>
    ensures read { ReadsWords (λ n. n) (number_word least most) words.old words.new result }
    ensures within { IfOk result (λ n. (least ≤ n) × (n ≤ most)) }
{
    let word = words.next()?;
    let Some(number) = number_of(word) else {
        return Err(LineWhy::Number);
    };
    if number < least || most < number {
        return Err(LineWhy::Number);
    }
    Ok(number)
}

/// A number of 64 bits.
pub fn read_u64(words: &mut Words<'_>) -> Result<u64, LineWhy>
    ensures { ReadsWords (λ n. n) number64_word words.old words.new result }
{
    read_number(words, 0, u64::MAX)
}

/// A number of 32 bits in a range.
pub fn read_small(words: &mut Words<'_>, least: u32, most: u32) -> Result<u32, LineWhy>
    ensures read { ReadsWords (λ n. n) (number_word least most) words.old words.new result }
    ensures within { IfOk result (λ n. (least ≤ n) × (n ≤ most)) }
{
    let number = read_number(words, u64::from(least), u64::from(most))?;
    Ok(number as u32)
}

/// A number of 32 bits.
pub fn read_u32(words: &mut Words<'_>) -> Result<u32, LineWhy>
    ensures { ReadsWords (λ n. n) number32_word words.old words.new result }
{
    read_small(words, 0, u32::MAX)
}

fn flag_of(word: &[u8]) -> Option<bool>
    ensures { result ≡ flag_of word.now }
{
    match word {
        [b'0'] => Some(false),
        [b'1'] => Some(true),
        _ => None,
    }
}

/// `0` or `1`.
#[tactic(auto, unfolding(crate::specs::Numbers::flag_word))]
pub fn read_flag(words: &mut Words<'_>) -> Result<bool, LineWhy>
    ensures { ReadsWords (λ flag. flag) flag_word words.old words.new result }
{
    let word = words.next()?;
    let Some(flag) = flag_of(word) else {
        return Err(LineWhy::Number);
    };
    Ok(flag)
}
