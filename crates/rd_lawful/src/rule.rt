//! The rules of a journal, by name.

ghost use Rattle.std.specs.Prelude.{◌≡◌};
ghost use Rattle.rd_lawful.specs.Rules.{rule_number};

/// A rule of a lawful journal. The lower ones come first.
#[derive(Clone, Copy, Debug, PartialEq, Eq)]
pub enum Rule {
    /// The keys of the requests that come rise, by channel and then by index.
    KeysRise,
    /// A request runs or is cancelled once at most, after it came.
    RunsOnce,
    /// A completion is sent once at most, after the request ran or was cancelled; and where it was left waiting, after something that may end it.
    SentOnce,
    /// No request runs that came before a cut.
    NoRunAfterCut,
    /// A request is cancelled only after a removal of the device that came after it.
    CancelledAfterRemoval,
    /// No request is named that came before a drop, or of an earlier channel than one that was named.
    DropForgets,
    /// At a cut at most 128 requests of the last channel came and aren't sent.
    FewUnsent,
}

impl Rule {
    /// The number of the rule, from 1 in the order above.
    pub fn number(self) -> u8
        ensures { result ≡ rule_number self }
    {
        match self {
            Rule::KeysRise => 1,
            Rule::RunsOnce => 2,
            Rule::SentOnce => 3,
            Rule::NoRunAfterCut => 4,
            Rule::CancelledAfterRemoval => 5,
            Rule::DropForgets => 6,
            Rule::FewUnsent => 7,
        }
    }
}
