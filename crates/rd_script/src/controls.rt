//! The lines that are acted at once, and those of a client's own moments.

ghost use Rattle.rd_script.specs.Keywords.{acts, errand_words, notice_words};
ghost use Rattle.rd_script.specs.Row.{ReadsWords, ReadsWordsInto};
ghost use Rattle.rd_script.specs.Rows.{act_row, add_row, at_add, at_remove, apply_row, at_row, cache_add_row, cache_delete_row, cache_rename_row, cache_row, cache_update_row, collect_row, do_row, entry_word, errand_rest, errand_row, issue_row, moment_row, notice_row, remove_row, take_row};

use crate::devices::{read_boxed_name, read_device, read_printer_name};
use crate::entry::read_entry;
use crate::keyword::{ACTS, Act, ERRAND_WORDS, ErrandWord, NOTICE_WORDS, NoticeWord};
use crate::known::Known;
use crate::line::{Errand, Line};
use crate::numbers::{read_small, read_u32, read_u64};
use crate::texts::{read_few_bytes, read_name};
use crate::why::{LineNo, LineWhy};
use crate::words::Words;
use std::alloc::Global;

/// The most bytes of a `cache` line.
const MAX_CACHED: usize = 16_384;

/// The most applications of a script.
pub const MAX_APPLICATIONS: u32 = 64;

#[tactic(auto, unfolding(crate::specs::Rows::remove_row))]
pub fn read_remove(known: &Known, words: &mut Words<'_>) -> Result<Line, LineNo>
    ensures { ReadsWordsInto (λ x. x) (remove_row known.now) words.old words.new result }
{
    let device = read_device(known, words)?;
    Ok(Line::Remove { device })
}

#[tactic(auto, unfolding(crate::specs::Rows::add_row))]
pub fn read_add(known: &Known, words: &mut Words<'_>) -> Result<Line, LineNo>
    ensures { ReadsWordsInto (λ x. x) (add_row known.now) words.old words.new result }
{
    let device = read_device(known, words)?;
    Ok(Line::Add { device })
}

/// A channel, and after how many of its requests; no earlier than the line before.
#[tactic(auto, unfolding(crate::specs::Rows::moment_row))]
fn read_moment(known: &Known, words: &mut Words<'_>) -> Result<(u32, u64), LineWhy>
    ensures { ReadsWords (λ x. x) (moment_row known.now) words.old words.new result }
{
    let channel = read_u32(words)?;
    let requests = read_u64(words)?;
    if !known.is_in_order(channel, requests) {
        return Err(LineWhy::Number);
    }
    Ok((channel, requests))
}

fn read_act(words: &mut Words<'_>) -> Result<Act, LineWhy>
    ensures { ReadsWords (λ x. x) (entry_word acts) words.old words.new result }
{
    read_entry(&ACTS, words)
}

#[tactic(auto, unfolding(crate::specs::Rows::at_remove))]
fn read_at_remove(
    known: &Known,
    channel: u32,
    requests: u64,
    words: &mut Words<'_>,
) -> Result<Line, LineNo>
    ensures { ReadsWordsInto (λ x. x) (at_remove known.now channel requests) words.old words.new result }
{
    let device = read_device(known, words)?;
    Ok(Line::AtRemove {
        channel,
        requests,
        device,
    })
}

#[tactic(auto, unfolding(crate::specs::Rows::at_add))]
fn read_at_add(
    known: &Known,
    channel: u32,
    requests: u64,
    words: &mut Words<'_>,
) -> Result<Line, LineNo>
    ensures { ReadsWordsInto (λ x. x) (at_add known.now channel requests) words.old words.new result }
{
    let device = read_device(known, words)?;
    Ok(Line::AtAdd {
        channel,
        requests,
        device,
    })
}

#[tactic(auto, unfolding(crate::specs::Rows::act_row))]
fn read_act_row(
    known: &Known,
    channel: u32,
    requests: u64,
    act: Act,
    words: &mut Words<'_>,
) -> Result<Line, LineNo>
    ensures { ReadsWordsInto (λ x. x) (act_row known.now channel requests act) words.old words.new result }
{
    match act {
        Act::Remove => read_at_remove(known, channel, requests, words),
        Act::Add => read_at_add(known, channel, requests, words),
        Act::Drop => Ok(Line::AtDrop { channel, requests }),
    }
}

#[tactic(auto, unfolding(crate::specs::Rows::at_row))]
pub fn read_at(known: &Known, words: &mut Words<'_>) -> Result<Line, LineNo>
    ensures { ReadsWordsInto (λ x. x) (at_row known.now) words.old words.new result }
{
    let (channel, requests) = read_moment(known, words)?;
    let act = read_act(words)?;
    read_act_row(known, channel, requests, act, words)
}

fn read_errand_word(words: &mut Words<'_>) -> Result<ErrandWord, LineWhy>
    ensures { ReadsWords (λ x. x) (entry_word errand_words) words.old words.new result }
{
    read_entry(&ERRAND_WORDS, words)
}

#[tactic(auto, unfolding(crate::specs::Rows::issue_row))]
fn read_issue(words: &mut Words<'_>) -> Result<Errand, LineWhy>
    ensures { ReadsWords (λ x. x) issue_row words.old words.new result }
{
    let application = read_small(words, 1, MAX_APPLICATIONS)?;
    Ok(Errand::Issue { application })
}

#[tactic(auto, unfolding(crate::specs::Rows::take_row))]
fn read_take(known: &Known, words: &mut Words<'_>) -> Result<Errand, LineWhy>
    ensures { ReadsWords (λ x. x) (take_row known.now) words.old words.new result }
{
    let device = read_device(known, words)?;
    let hand = read_u32(words)?;
    Ok(Errand::Take { device, hand })
}

#[tactic(auto, unfolding(crate::specs::Rows::apply_row))]
fn read_apply(words: &mut Words<'_>) -> Result<Errand, LineWhy>
    ensures { ReadsWords (λ x. x) apply_row words.old words.new result }
{
    let hand = read_u32(words)?;
    Ok(Errand::Apply { hand })
}

#[tactic(auto, unfolding(crate::specs::Rows::collect_row))]
fn read_collect(known: &Known, words: &mut Words<'_>) -> Result<Errand, LineWhy>
    ensures { ReadsWords (λ x. x) (collect_row known.now) words.old words.new result }
{
    let device = read_device(known, words)?;
    Ok(Errand::Collect { device })
}

#[tactic(auto, unfolding(crate::specs::Rows::errand_rest))]
fn read_errand_rest(
    known: &Known,
    word: ErrandWord,
    words: &mut Words<'_>,
) -> Result<Errand, LineWhy>
    ensures { ReadsWords (λ x. x) (errand_rest known.now word) words.old words.new result }
{
    match word {
        ErrandWord::Issue => read_issue(words),
        ErrandWord::Send => Ok(Errand::Send),
        ErrandWord::Read => Ok(Errand::Read),
        ErrandWord::Take => read_take(known, words),
        ErrandWord::Apply => read_apply(words),
        ErrandWord::Collect => read_collect(known, words),
        ErrandWord::Answer => Ok(Errand::Answer),
        ErrandWord::Back => Ok(Errand::Back),
    }
}

#[tactic(auto, unfolding(crate::specs::Rows::errand_row))]
fn read_errand(known: &Known, words: &mut Words<'_>) -> Result<Errand, LineWhy>
    ensures { ReadsWords (λ x. x) (errand_row known.now) words.old words.new result }
{
    let word = read_errand_word(words)?;
    read_errand_rest(known, word, words)
}

#[tactic(auto, unfolding(crate::specs::Rows::do_row))]
pub fn read_do(known: &Known, words: &mut Words<'_>) -> Result<Line, LineNo>
    ensures { ReadsWordsInto (λ x. x) (do_row known.now) words.old words.new result }
{
    let errand = read_errand(known, words)?;
    Ok(Line::Do { errand })
}

#[tactic(auto, unfolding(crate::specs::Rows::cache_add_row))]
fn read_cache_add(alloc: Global, words: &mut Words<'_>) -> Result<Line, LineNo>
    ensures { ReadsWordsInto (λ x. x) cache_add_row words.old words.new result }
{
    let port = read_name(words)?;
    let driver = read_boxed_name(alloc, words)?;
    let printer = read_boxed_name(alloc, words)?;
    let bytes = read_few_bytes(alloc, words, MAX_CACHED)?;
    Ok(Line::CacheAdd {
        port,
        driver,
        printer,
        bytes,
    })
}

#[tactic(auto, unfolding(crate::specs::Rows::cache_update_row))]
fn read_cache_update(alloc: Global, words: &mut Words<'_>) -> Result<Line, LineNo>
    ensures { ReadsWordsInto (λ x. x) cache_update_row words.old words.new result }
{
    let printer = read_printer_name(alloc, words)?;
    let bytes = read_few_bytes(alloc, words, MAX_CACHED)?;
    Ok(Line::CacheUpdate { printer, bytes })
}

#[tactic(auto, unfolding(crate::specs::Rows::cache_delete_row))]
fn read_cache_delete(alloc: Global, words: &mut Words<'_>) -> Result<Line, LineNo>
    ensures { ReadsWordsInto (λ x. x) cache_delete_row words.old words.new result }
{
    let printer = read_printer_name(alloc, words)?;
    Ok(Line::CacheDelete { printer })
}

#[tactic(auto, unfolding(crate::specs::Rows::cache_rename_row))]
fn read_cache_rename(alloc: Global, words: &mut Words<'_>) -> Result<Line, LineNo>
    ensures { ReadsWordsInto (λ x. x) cache_rename_row words.old words.new result }
{
    let old = read_printer_name(alloc, words)?;
    let new = read_printer_name(alloc, words)?;
    Ok(Line::CacheRename { old, new })
}

fn read_notice_word(words: &mut Words<'_>) -> Result<NoticeWord, LineWhy>
    ensures { ReadsWords (λ x. x) (entry_word notice_words) words.old words.new result }
{
    read_entry(&NOTICE_WORDS, words)
}

#[tactic(auto, unfolding(crate::specs::Rows::notice_row))]
fn read_notice(alloc: Global, word: NoticeWord, words: &mut Words<'_>) -> Result<Line, LineNo>
    ensures { ReadsWordsInto (λ x. x) (notice_row word) words.old words.new result }
{
    match word {
        NoticeWord::Add => read_cache_add(alloc, words),
        NoticeWord::Update => read_cache_update(alloc, words),
        NoticeWord::Delete => read_cache_delete(alloc, words),
        NoticeWord::Rename => read_cache_rename(alloc, words),
    }
}

#[tactic(auto, unfolding(crate::specs::Rows::cache_row))]
pub fn read_cache(alloc: Global, words: &mut Words<'_>) -> Result<Line, LineNo>
    ensures { ReadsWordsInto (λ x. x) cache_row words.old words.new result }
{
    let word = read_notice_word(words)?;
    read_notice(alloc, word, words)
}
