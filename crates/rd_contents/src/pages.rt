//! The pages of a file, in an ordered map by their number. A page holds its bytes as far as they were written, and a byte
//! that none holds is zero. A piece is bytes that lie in one page.

ghost use Rattle.std.specs.Prelude.{◌≡◌, ◌≤◌, ◌<◌, ◌+◌, ◌-◌, ◌*◌, ◌/◌, ◌%◌, ◌^◌, ◌++◌, ℕ, [], length, slice_index, nat_lt, if◌then◌else◌, OnOk, IsSome, None, true, false, vec_len, vec_capacity};
ghost use Rattle.std.specs.BTreeMap.{get};
ghost use Rattle.std.specs.Ordering.{nat_cmp};
ghost use Rattle.rd_contents.specs.Contents.{max_len};
ghost use Rattle.rd_contents.specs.Pages.{page_len, kept_page, byte_at, bytes_from, IsKept, LacksPage, over};

use rd_base::put_bytes;
use std::alloc::{AllocError, Global};
use std::collections::BTreeMap;

/// The pages that are kept, by number.
pub type Pages = BTreeMap<u64, Vec<u8>>;

/// The bytes of a page.
const PAGE_LEN: u64 = 4096;

/// A page that was never written.
static ZEROS: [u8; 4096] = [0; 4096];

/// How many bytes of its page there are from a place on.
fn room_in_page(place: u64) -> usize
    ensures { result ≡ page_len - place % page_len }
{
    (PAGE_LEN - place % PAGE_LEN) as usize
}

/// A page as far as it is kept.
fn kept_page(pages: &Pages, number: u64) -> &[u8]
    ensures { result.now ≡ kept_page pages.now.entries number }
{
    match pages.get(&number) {
        Some(page) => page.as_slice(),
        None => &[],
    }
}

/// Appends the piece at a place to a list that has room for it.
fn append_piece(out: &mut Vec<u8>, pages: &Pages, place: u64, count: usize)
    requires fits { place % page_len + count ≤ page_len }
    requires room { vec_len out.old + count ≤ vec_capacity out.old }
    ensures bytes { out.new.items ≡ out.old.items ++ bytes_from pages.now.entries place count }
    ensures len { vec_len out.new ≡ vec_len out.old + count }
    ensures room { vec_capacity out.old ≤ vec_capacity out.new }
{
    let page = kept_page(pages, place / PAGE_LEN);
    let within = (place % PAGE_LEN) as usize;
    let start = within.min(page.len());
    let end = page.len().min(within + count);
    put_bytes(out, &page[start..end]);
    put_bytes(out, &ZEROS[..count - (end - start)]);
}

/// Appends so many bytes from an offset on to a list that has room for them.
pub fn append(out: &mut Vec<u8>, pages: &Pages, offset: u64, count: usize)
    requires small { offset + count < 2 ^ 64 }
    requires room { vec_len out.old + count ≤ vec_capacity out.old }
    ensures { out.new.items ≡ out.old.items ++ bytes_from pages.now.entries offset count }
{
    let mut done = 0;
    while done < count {
        let at = offset + done as u64;
        let piece = room_in_page(at).min(count - done);
        append_piece(out, pages, at, piece);
        done += piece;
    }
}

/// Makes a page hold at least so many bytes. No byte changes.
fn lengthen(page: &mut Vec<u8>, count: usize) -> Result<(), AllocError>
    ensures bytes { (i : ℕ) → slice_index page.new.items i ≡ slice_index page.old.items i }
    ensures grows { length page.old.items ≤ length page.new.items }
    ensures long { OnOk result (count ≤ length page.new.items) }
{
    if page.len() < count {
        page.resize(count, 0)?;
    }
    Ok(())
}

/// Makes the page with a number hold at least so many bytes. No byte changes.
fn hold(alloc: Global, pages: &mut Pages, number: u64, count: usize) -> Result<(), AllocError>
    ensures bytes { (i : ℕ) → byte_at pages.new.entries i ≡ byte_at pages.old.entries i }
    ensures grows { (k : ℕ) → length (kept_page pages.old.entries k) ≤ length (kept_page pages.new.entries k) }
    ensures long { OnOk result (count ≤ length (kept_page pages.new.entries number)) }
    ensures others { (k : ℕ) → ¬ (k ≡ number) → LacksPage pages.old.entries k → LacksPage pages.new.entries k }
{
    if let Some(page) = pages.get_mut(&number) {
        return lengthen(page, count);
    }
    let page = vec![in alloc; 0; count]?;
    pages.insert(number, page)?;
    Ok(())
}

/// Makes the pages hold so many bytes from an offset on. No byte changes.
pub fn make_room(
    alloc: Global,
    pages: &mut Pages,
    offset: u64,
    count: usize,
) -> Result<(), AllocError>
    requires { offset + count ≤ max_len }
    ensures bytes { (i : ℕ) → byte_at pages.new.entries i ≡ byte_at pages.old.entries i }
    ensures kept { OnOk result ((i : ℕ) → offset ≤ i → i < offset + count → IsKept pages.new.entries i) }
    ensures within { (k : ℕ) → offset + count ≤ k * page_len → LacksPage pages.old.entries k → LacksPage pages.new.entries k }
{
    let mut done = 0;
    while done < count {
        let at = offset + done as u64;
        let piece = room_in_page(at).min(count - done);
        hold(
            alloc,
            pages,
            at / PAGE_LEN,
            (at % PAGE_LEN) as usize + piece,
        )?;
        done += piece;
    }
    Ok(())
}

/// Overwrites a part of a page.
fn overwrite(page: &mut [u8], within: usize, piece: &[u8])
    requires { within + length piece.now ≤ length page.old }
    ensures { (i : ℕ) → slice_index page.new i ≡ over within (length piece.now) piece.now (slice_index page.old) i }
{
    page[within..within + piece.len()].copy_from_slice(piece);
}

/// Puts a piece at a place into the page that holds it.
fn put_piece(pages: &mut Pages, place: u64, piece: &[u8])
    requires kept { place % page_len + length piece.now ≤ length (kept_page pages.old.entries (place / page_len)) }
    requires fits { place % page_len + length piece.now ≤ page_len }
    ensures lengths { (k : ℕ) → length (kept_page pages.new.entries k) ≡ length (kept_page pages.old.entries k) }
    ensures bytes { (i : ℕ) → byte_at pages.new.entries i ≡ over place (length piece.now) piece.now (byte_at pages.old.entries) i }
    ensures within { (k : ℕ) → LacksPage pages.old.entries k → LacksPage pages.new.entries k }
{
    if let Some(page) = pages.get_mut(&(place / PAGE_LEN)) {
        overwrite(page.as_mut_slice(), (place % PAGE_LEN) as usize, piece);
    }
}

/// Puts bytes at an offset, where room was made for them.
pub fn put(pages: &mut Pages, offset: u64, bytes: &[u8])
    requires small { offset + length bytes.now ≤ max_len }
    requires kept { (i : ℕ) → offset ≤ i → i < offset + length bytes.now → IsKept pages.old.entries i }
    ensures bytes { (i : ℕ) → byte_at pages.new.entries i ≡ over offset (length bytes.now) bytes.now (byte_at pages.old.entries) i }
    ensures within { (k : ℕ) → LacksPage pages.old.entries k → LacksPage pages.new.entries k }
{
    let mut done = 0;
    while done < bytes.len() {
        let at = offset + done as u64;
        let piece = room_in_page(at).min(bytes.len() - done);
        put_piece(pages, at, &bytes[done..done + piece]);
        done += piece;
    }
}

/// Whether a page from a number on is kept.
fn reaches(pages: &Pages, first: u64) -> bool
    ensures some { result ≡ true → (k : ℕ) × (first ≤ k) × IsSome (get nat_cmp pages.now k) }
    ensures none { result ≡ false → (k : ℕ) → first ≤ k → get nat_cmp pages.now k ≡ None }
{
    match pages.last_key_value() {
        Some((number, _)) => first <= *number,
        None => false,
    }
}

/// Gives back the pages from a number on.
fn give_back(pages: &mut Pages, first: u64)
    ensures pages { (k : ℕ) → kept_page pages.new.entries k ≡ (if nat_lt k first then kept_page pages.old.entries k else []) }
    ensures within { (k : ℕ) → first ≤ k → LacksPage pages.new.entries k }
{
    while reaches(pages, first) {
        pages.pop_last();
    }
}

/// Gives back the pages that lie past an end, and cuts the page that it lies in.
pub fn cut(pages: &mut Pages, end: u64)
    requires { end ≤ max_len }
    ensures bytes { (i : ℕ) → byte_at pages.new.entries i ≡ (if nat_lt i end then byte_at pages.old.entries i else 0) }
    ensures within { (k : ℕ) → end ≤ k * page_len → LacksPage pages.new.entries k }
{
    give_back(pages, end.div_ceil(PAGE_LEN));
    if let Some(page) = pages.get_mut(&(end / PAGE_LEN)) {
        page.truncate((end % PAGE_LEN) as usize);
    }
}
