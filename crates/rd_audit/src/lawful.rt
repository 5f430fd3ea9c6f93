//! Whether journals are lawful.

ghost use Rattle.std.specs.Prelude.{◌≡◌, ◌+◌, ◌<◌, ◌^◌, List, [], ◌∷◌, ◌++◌, None, Ok, All, IfOk, OnOk, length};
ghost use Rattle.rd_base.specs.declared.journal.Item.{Item};
ghost use Rattle.rd_audit_file.specs.declared.line.JournalLine.{JournalLine};
ghost use Rattle.rd_audit_file.specs.Journals.{lines_text};
ghost use Rattle.rd_audit_file.specs.Lines.{LineFits};
ghost use Rattle.rd_lawful.specs.Judged.{HasTaken};
ghost use Rattle.rd_audit.specs.Lawful.{HasJudged, broken_at_end, entry_broken, first_unlawful};

use crate::lines::next_line;
use crate::verdict::Verdict;
use rd_audit_file::{JournalLine, JournalLines};
use rd_base::Item;
use rd_lawful::{Judge, Rule};
use std::alloc::{AllocError, Global};

/// The first entry of the journals of a text, in the order of the text, that breaks a rule of journals, if one does.
pub fn first_unlawful(alloc: Global, text: &[u8]) -> Result<Option<Verdict>, AllocError>
    requires { length text.now < 2 ^ 62 }
    ensures { (lines : List JournalLine) → text.now ≡ lines_text lines → All LineFits lines → IfOk result (λ found. found ≡ first_unlawful 0 [] lines) }
{
    let mut judged = Judged::new(alloc, 0);
    let mut lines = JournalLines::new(text);
    while let Some(line) = next_line(&mut lines) {
        let found = match line {
            JournalLine::Device(id) => {
                let found = judged.end();
                judged = Judged::new(alloc, id);
                found
            }
            JournalLine::Entry(entry) => judged.take(entry)?,
        };
        if found.is_some() {
            return Ok(found);
        }
    }
    Ok(judged.end())
}

/// The journal of a device, as far as it was judged.
#[derive(Drop)]
struct Judged {
    device: u32,
    /// How many entries it has.
    count: u64,
    judge: Judge,
}

impl Judged {
    /// The journal of a device, before its first entry.
    fn new(alloc: Global, device: u32) -> Judged
        ensures { HasJudged result device [] }
    {
        Judged {
            device,
            count: 0,
            judge: Judge::new(alloc),
        }
    }

    /// Another entry: which rule it breaks, if it breaks one.
    fn take(&mut self, entry: Item) -> Result<Option<Verdict>, AllocError>
        requires { self.old.count + 1 < 2 ^ 63 }
        ensures found { (items : List Item) → HasJudged self.old self.old.device items → IfOk result (λ found. found ≡ entry_broken self.old.device items entry) }
        ensures taken { (items : List Item) → HasJudged self.old self.old.device items → result ≡ Ok None → HasJudged self.new self.old.device (items ++ entry ∷ []) }
    {
        self.count += 1;
        match self.judge.take(entry)? {
            Ok(()) => Ok(None),
            Err(rule) => Ok(Some(Verdict::Item {
                device: self.device,
                item: self.count,
                clause: rule.number(),
            })),
        }
    }

    /// The journal ends: whether it may.
    fn end(&self) -> Option<Verdict>
        requires { self.now.count + 1 < 2 ^ 63 }
        ensures { (items : List Item) → HasJudged self.now self.now.device items → result ≡ broken_at_end self.now.device items }
    {
        if self.judge.may_end() {
            return None;
        }
        Some(Verdict::Item {
            device: self.device,
            item: self.count + 1,
            clause: Rule::FewUnsent.number(),
        })
    }
}
