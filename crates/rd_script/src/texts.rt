//! Words that are names, units, bytes and ranges.

ghost use Rattle.std.specs.Prelude.{◌≡◌, ◌≢◌, ◌<◌, ◌≤◌, ◌∷◌, [], length, IfOk, IfSome, MatchOption, IsTrue};
ghost use Rattle.std.specs.List.{list_all};
ghost use Rattle.std.specs.Option.{option_map};
ghost use Rattle.std.specs.Str.{is_utf8};
ghost use Rattle.rd_script.specs.Numbers.{digit_of, digits_from};
ghost use Rattle.rd_script.specs.Row.{ReadsWords, ReadsWordsInto};
ghost use Rattle.rd_script.specs.Texts.{is_handle_byte, is_handle, handle_word, is_visible, is_application_name, name_word, is_place, place_word, is_dash, units_after, units_of, units_word, few_units, pairs_of, hex_of, hex_word, few_bytes, range_of, ranges_of, few_ranges};

use crate::inline::ShortName;
use crate::numbers::{digits_from, number_of};
use crate::why::{LineNo, LineWhy};
use crate::words::{Words, after, cut, first};
use rd_base::{Bytes, Units};
use rd_irp::{Range, Ranges};
use std::alloc::{AllocError, Global};
use std::str;

/// The most characters of a handle's name.
const MAX_HANDLE: usize = 8;

/// The most characters of a device's name and of a port.
const MAX_NAME: usize = 7;

fn is_handle_byte(byte: u8) -> bool
    ensures { result ≡ is_handle_byte byte }
{
    matches!(byte, b'a'..=b'z' | b'0'..=b'9')
}

fn are_handle_bytes(word: &[u8]) -> bool
    ensures { result ≡ list_all is_handle_byte word.now }
{
    word.iter().all(|byte| is_handle_byte(*byte))
}

/// Up to eight letters `a` to `z` or digits, and at least one.
fn is_handle(word: &[u8]) -> bool
    ensures { result ≡ is_handle word.now }
{
    if word.is_empty() {
        return false;
    }
    if word.len() > MAX_HANDLE {
        return false;
    }
    are_handle_bytes(word)
}

fn is_visible(byte: u8) -> bool
    ensures { result ≡ is_visible byte }
{
    matches!(byte, 0x21..=0x7e)
}

fn are_visible(word: &[u8]) -> bool
    ensures { result ≡ list_all is_visible word.now }
{
    word.iter().all(|byte| is_visible(*byte))
}

/// Up to seven visible ASCII characters, and at least one.
fn is_application_name(word: &[u8]) -> bool
    ensures { result ≡ is_application_name word.now }
{
    if word.is_empty() {
        return false;
    }
    if word.len() > MAX_NAME {
        return false;
    }
    are_visible(word)
}

/// An application's own name of a handle.
#[tactic(auto, unfolding(crate::specs::Texts::handle_word))]
pub fn read_handle(words: &mut Words<'_>) -> Result<ShortName, LineWhy>
    ensures { ReadsWords (λ name. name) handle_word words.old words.new result }
{
    let word = words.next()?;
    if !is_handle(word) {
        return Err(LineWhy::Name);
    }
    Ok(ShortName::of(word))
}

/// The name of a device or a port.
#[tactic(auto, unfolding(crate::specs::Texts::name_word))]
pub fn read_name(words: &mut Words<'_>) -> Result<ShortName, LineWhy>
    ensures { ReadsWords (λ name. name) name_word words.old words.new result }
{
    let word = words.next()?;
    if !is_application_name(word) {
        return Err(LineWhy::Name);
    }
    Ok(ShortName::of(word))
}

/// UTF-8 text, and not empty.
fn is_place(word: &[u8]) -> bool
    ensures { result ≡ is_place word.now }
{
    if word.is_empty() {
        return false;
    }
    str::from_utf8(word).is_ok()
}

/// A place on this machine.
#[tactic(auto, unfolding(crate::specs::Texts::place_word))]
pub fn read_place(alloc: Global, words: &mut Words<'_>) -> Result<Bytes, LineNo>
    ensures { ReadsWordsInto (λ place. place) place_word words.old words.new result }
{
    let word = words.next()?;
    if !is_place(word) {
        return Err(LineNo::Why(LineWhy::Path));
    }
    Ok(Bytes::of(Vec::from_slice(alloc, word)?))
}

/// A dash alone, which stands for nothing.
fn is_dash(word: &[u8]) -> bool
    ensures { result ≡ is_dash word.now }
{
    matches!(word, [b'-'])
}

/// The unit of the first four digits, and what comes after them.
fn escaped_unit(digits: &[u8]) -> Option<(u16, &[u8])>
    ensures units { MatchOption result (units_after 0 (0x25 ∷ digits.now) ≡ None) (λ r. (units_after 0 (0x25 ∷ digits.now) ≡ option_map (λ us. r.0 ∷ us) (units_after 0 r.1.now))) }
    ensures shorter { IfSome result (λ r. length r.1.now < length digits.now) }
{
    if digits.len() < 4 {
        return None;
    }
    let (four, others) = digits.split_at(4);
    let unit = digits_from(16, four)?;
    if unit == 0 {
        return None;
    }
    Some((unit as u16, others))
}

/// The unit that a character is or begins, and what comes after it. None is zero.
fn unit_from(byte: u8, rest: &[u8]) -> Option<(u16, &[u8])>
    ensures units { MatchOption result (units_after 0 (byte ∷ rest.now) ≡ None) (λ r. units_after 0 (byte ∷ rest.now) ≡ option_map (λ us. r.0 ∷ us) (units_after 0 r.1.now)) }
    ensures shorter { IfSome result (λ r. length r.1.now ≤ length rest.now) }
{
    if byte == b'%' {
        return escaped_unit(rest);
    }
    if !is_visible(byte) {
        return None;
    }
    Some((u16::from(byte), rest))
}

/// The first unit of a word, and what comes after it.
fn next_unit(word: &[u8]) -> Option<(u16, &[u8])>
    requires { word.now ≢ [] }
    ensures units { MatchOption result (units_after 0 word.now ≡ None) (λ r. units_after 0 word.now ≡ option_map (λ us. r.0 ∷ us) (units_after 0 r.1.now)) }
    ensures shorter { IfSome result (λ r. length r.1.now < length word.now) }
{
    match word {
        [] => None,
        [byte, rest @ ..] => unit_from(*byte, rest),
    }
}

/// The units that a word is.
fn units_of(alloc: Global, word: &[u8]) -> Result<Option<Units>, AllocError>
    ensures { IfOk result (λ units. units ≡ units_of word.now) }
{
    if is_dash(word) {
        return Ok(Some(Units::of(Vec::new(alloc))));
    }
    if word.is_empty() {
        return Ok(None);
    }
    let mut units = Vec::with_capacity(alloc, word.len())?;
    let mut rest = word;
    while !rest.is_empty() {
        let Some((unit, others)) = next_unit(rest) else {
            return Ok(None);
        };
        units.push(unit)?;
        rest = others;
    }
    Ok(Some(Units::of(units)))
}

/// Units, with the reason where they are out of their form.
#[tactic(auto, unfolding(crate::specs::Texts::units_word))]
pub fn read_units(alloc: Global, words: &mut Words<'_>, why: LineWhy) -> Result<Units, LineNo>
    ensures { ReadsWordsInto (λ units. units) (units_word why) words.old words.new result }
{
    let word = words.next()?;
    let Some(units) = units_of(alloc, word)? else {
        return Err(LineNo::Why(why));
    };
    Ok(units)
}

/// At most so many units.
#[tactic(auto, unfolding(crate::specs::Texts::few_units))]
pub fn read_few_units(
    alloc: Global,
    words: &mut Words<'_>,
    why: LineWhy,
    most: usize,
) -> Result<Units, LineNo>
    ensures { ReadsWordsInto (λ units. units) (few_units why most) words.old words.new result }
{
    let units = read_units(alloc, words, why)?;
    if units.as_slice().len() > most {
        return Err(LineNo::Why(LineWhy::Many));
    }
    Ok(units)
}

/// What a lower-case hexadecimal digit stands for.
fn lower_digit(byte: u8) -> Option<u8>
    ensures digit { result ≡ digit_of 16 byte }
    ensures below { IfSome result (λ digit. digit < 16) }
{
    match byte {
        b'0'..=b'9' => Some(byte - b'0'),
        b'a'..=b'f' => Some(byte - b'a' + 10),
        _ => None,
    }
}

/// The byte that two lower-case digits are.
fn byte_of(high: u8, low: u8) -> Option<u8>
    ensures { result ≡ digits_from 16 0 (high ∷ low ∷ []) }
{
    let high = lower_digit(high)?;
    let low = lower_digit(low)?;
    Some(high * 16 + low)
}

/// The byte of the first two digits of a word, and what comes after them.
fn next_byte(digits: &[u8]) -> Option<(u8, &[u8])>
    requires { digits.now ≢ [] }
    ensures bytes { MatchOption result (pairs_of digits.now ≡ None) (λ r. pairs_of digits.now ≡ option_map (λ bs. r.0 ∷ bs) (pairs_of r.1.now)) }
    ensures shorter { IfSome result (λ r. length r.1.now < length digits.now) }
{
    match digits {
        [high, low, rest @ ..] => Some((byte_of(*high, *low)?, rest)),
        _ => None,
    }
}

/// The bytes that a word is.
fn bytes_of(alloc: Global, word: &[u8]) -> Result<Option<Bytes>, AllocError>
    ensures { IfOk result (λ bytes. bytes ≡ hex_of word.now) }
{
    if is_dash(word) {
        return Ok(Some(Bytes::of(Vec::new(alloc))));
    }
    if word.is_empty() {
        return Ok(None);
    }
    let mut bytes = Vec::with_capacity(alloc, word.len() / 2)?;
    let mut rest = word;
    while !rest.is_empty() {
        let Some((byte, others)) = next_byte(rest) else {
            return Ok(None);
        };
        bytes.push(byte)?;
        rest = others;
    }
    Ok(Some(Bytes::of(bytes)))
}

/// Bytes.
#[tactic(auto, unfolding(crate::specs::Texts::hex_word))]
pub fn read_hex(alloc: Global, words: &mut Words<'_>) -> Result<Bytes, LineNo>
    ensures { ReadsWordsInto (λ bytes. bytes) hex_word words.old words.new result }
{
    let word = words.next()?;
    let Some(bytes) = bytes_of(alloc, word)? else {
        return Err(LineNo::Why(LineWhy::Hex));
    };
    Ok(bytes)
}

/// At most so many bytes.
#[tactic(auto, unfolding(crate::specs::Texts::few_bytes))]
pub fn read_few_bytes(alloc: Global, words: &mut Words<'_>, most: usize) -> Result<Bytes, LineNo>
    ensures { ReadsWordsInto (λ bytes. bytes) (few_bytes most) words.old words.new result }
{
    let bytes = read_hex(alloc, words)?;
    if bytes.as_slice().len() > most {
        return Err(LineNo::Why(LineWhy::Many));
    }
    Ok(bytes)
}

/// The range that a part of a word is: two numbers with a colon between them.
fn range_of(part: &[u8]) -> Option<Range>
    ensures { result ≡ range_of part.now }
{
    let colon = first(part, b':')?;
    let offset = number_of(&part[..colon])?;
    let length = number_of(after(part, colon))?;
    Some(Range { offset, length })
}

/// The ranges that a word is, with commas between them.
fn ranges_of(alloc: Global, word: &[u8]) -> Result<Option<Ranges>, AllocError>
    ensures { IfOk result (λ ranges. ranges ≡ ranges_of word.now) }
{
    let mut ranges = Vec::new(alloc);
    let mut left = Some(word);
    while let Some(text) = left {
        let (part, others) = cut(text, b',');
        let Some(range) = range_of(part) else {
            return Ok(None);
        };
        ranges.push(range)?;
        left = others;
    }
    Ok(Some(Ranges::of(ranges)))
}

/// At most so many ranges.
#[tactic(auto, unfolding(crate::specs::Texts::few_ranges))]
pub fn read_few_ranges(alloc: Global, words: &mut Words<'_>, most: usize) -> Result<Ranges, LineNo>
    ensures { ReadsWordsInto (λ ranges. ranges) (few_ranges most) words.old words.new result }
{
    let word = words.next()?;
    let Some(ranges) = ranges_of(alloc, word)? else {
        return Err(LineNo::Why(LineWhy::Number));
    };
    if ranges.as_slice().len() > most {
        return Err(LineNo::Why(LineWhy::Many));
    }
    Ok(ranges)
}
