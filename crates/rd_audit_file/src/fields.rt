//! The fields of a line, each with the byte that has to stand after it.

ghost use Rattle.std.specs.Prelude.{◌≡◌, ◌+◌, ◌==◌, ◌<◌, drop, length, position};
ghost use Rattle.std.specs.Option.{option_copied};
ghost use Rattle.rd_audit_file.specs.Taken.{after_word, as_taken, decimal_at, decimal_digit_of, decimal_from, decimal_of, fitting, key_at, marks_at, run_mark_at, run_mark_of};

use rd_base::Key;

/// What comes after a word with which the text begins.
pub fn after<'a>(text: &'a [u8], word: &[u8]) -> Option<&'a [u8]>
    ensures { option_copied result ≡ after_word word.now text.now }
{
    text.strip_prefix(word)
}

/// What a decimal digit stands for.
fn decimal_digit_of(byte: u8) -> Option<u64>
    ensures { result ≡ decimal_digit_of byte }
{
    if byte.is_ascii_digit() {
        Some(u64::from(byte - b'0'))
    } else {
        None
    }
}

/// What digits say, where it fits 64 bits; none where there is another character.
fn decimal_from(digits: &[u8]) -> Option<u64>
    ensures { result ≡ fitting 64 (decimal_from 0 digits.now) }
{
    let mut value = 0u64;
    for byte in digits {
        let digit = decimal_digit_of(*byte)?;
        value = value.checked_mul(10)?.checked_add(digit)?;
    }
    Some(value)
}

/// The number that a word is: decimal without leading zeros, of 64 bits.
fn decimal_of(word: &[u8]) -> Option<u64>
    ensures { result ≡ fitting 64 (decimal_of word.now) }
{
    match word {
        [] => None,
        [b'0'] => Some(0),
        [b'0', ..] => None,
        digits => decimal_from(digits),
    }
}

/// Where a byte is first.
fn first(text: &[u8], byte: u8) -> Option<usize>
    ensures { result ≡ position (λ b. b == byte) text.now }
{
    text.iter().position(|b| *b == byte)
}

/// What comes after a place.
fn past(text: &[u8], i: usize) -> &[u8]
    requires { i < length text.now }
    ensures { result.now ≡ drop (i + 1) text.now }
{
    &text[i + 1..]
}

/// A number of 64 bits with which the text begins, and what comes after the byte that ends it.
pub fn take_u64(text: &[u8], last: u8) -> Option<(u64, &[u8])>
    ensures { as_taken result ≡ decimal_at 64 last text.now }
{
    let len = first(text, last)?;
    let number = decimal_of(&text[..len])?;
    Some((number, past(text, len)))
}

/// A number of 32 bits with which the text begins, and what comes after the byte that ends it.
pub fn take_u32(text: &[u8], last: u8) -> Option<(u32, &[u8])>
    ensures { as_taken result ≡ decimal_at 32 last text.now }
{
    let (number, rest) = take_u64(text, last)?;
    let number = u32::try_from(number).ok()?;
    Some((number, rest))
}

/// A channel and an index with which the text begins, and what comes after the byte that ends them.
pub fn take_key(text: &[u8], last: u8) -> Option<(Key, &[u8])>
    ensures { as_taken result ≡ key_at last text.now }
{
    let (channel, rest) = take_u32(text, b' ')?;
    let (index, rest) = take_u64(rest, last)?;
    Some((Key { channel, index }, rest))
}

fn run_mark_of(digit: u8) -> Option<bool>
    ensures { result ≡ run_mark_of digit }
{
    match digit {
        b'0' => Some(false),
        b'1' => Some(true),
        _ => None,
    }
}

/// A `0` or `1` with which the text begins, and what comes after the byte that ends it.
fn take_mark(text: &[u8], last: u8) -> Option<(bool, &[u8])>
    ensures { as_taken result ≡ run_mark_at last text.now }
{
    let [digit, end, rest @ ..] = text else {
        return None;
    };
    if *end != last {
        return None;
    }
    let mark = run_mark_of(*digit)?;
    Some((mark, rest))
}

/// The two marks of a run, at the end of its line, and what comes after the line.
pub fn take_marks(text: &[u8]) -> Option<((bool, bool), &[u8])>
    ensures { as_taken result ≡ marks_at text.now }
{
    let (starved, rest) = take_mark(text, b' ')?;
    let (parked, rest) = take_mark(rest, b'\n')?;
    Some(((starved, parked), rest))
}
