//! The words that say which line a line is.

ghost use Rattle.std.specs.Prelude.{◌≡◌};
ghost use Rattle.rd_script.specs.Keywords.{stands_in, in_both, in_client, in_host};

/// Whose lines a script has.
#[derive(Clone, Copy, Debug, PartialEq, Eq)]
pub enum Mode {
    /// Those of both ends in one process.
    Both,
    Client,
    Host,
}

impl Mode {
    /// Whether no device is unknown.
    pub fn is_host(self) -> bool
        ensures { result ≡ in_host self }
    {
        match self {
            Mode::Host => true,
            Mode::Both | Mode::Client => false,
        }
    }

    /// Whether there are no lines of applications.
    pub fn is_client(self) -> bool
        ensures { result ≡ in_client self }
    {
        match self {
            Mode::Client => true,
            Mode::Both | Mode::Host => false,
        }
    }

    fn is_both(self) -> bool
        ensures { result ≡ in_both self }
    {
        match self {
            Mode::Both => true,
            Mode::Client | Mode::Host => false,
        }
    }
}

/// The first word of a line that no application issues.
#[derive(Clone, Copy)]
pub enum Keyword {
    Seed,
    Clock,
    Piece,
    Workers,
    Channels,
    Devices,
    Drive,
    DriveFold,
    Real,
    Folder,
    File,
    Fill,
    Printer,
    At,
    Settle,
    Remove,
    Add,
    Do,
    Cache,
    Drop,
    Connect,
}

/// What an application's line does: its second word.
#[derive(Clone, Copy)]
pub enum Verb {
    Open,
    Create,
    Close,
    Read,
    Write,
    Query,
    Set,
    Volume,
    SetVolume,
    Dir,
    Lock,
    Control,
    Notify,
}

/// The second word of a `do` line.
#[derive(Clone, Copy)]
pub enum ErrandWord {
    Issue,
    Send,
    Read,
    Take,
    Apply,
    Collect,
    Answer,
    Back,
}

/// The second word of a `cache` line.
#[derive(Clone, Copy)]
pub enum NoticeWord {
    Add,
    Update,
    Delete,
    Rename,
}

/// The fourth word of an `at` line.
#[derive(Clone, Copy)]
pub enum Act {
    Remove,
    Add,
    Drop,
}

/// The words with which lines begin that no application issues.
pub const KEYWORDS: [(&[u8], Keyword); 21] = [
    (b"seed", Keyword::Seed),
    (b"clock", Keyword::Clock),
    (b"piece", Keyword::Piece),
    (b"workers", Keyword::Workers),
    (b"channels", Keyword::Channels),
    (b"devices", Keyword::Devices),
    (b"drive", Keyword::Drive),
    (b"drivefold", Keyword::DriveFold),
    (b"real", Keyword::Real),
    (b"folder", Keyword::Folder),
    (b"file", Keyword::File),
    (b"fill", Keyword::Fill),
    (b"printer", Keyword::Printer),
    (b"at", Keyword::At),
    (b"settle", Keyword::Settle),
    (b"remove", Keyword::Remove),
    (b"add", Keyword::Add),
    (b"do", Keyword::Do),
    (b"cache", Keyword::Cache),
    (b"drop", Keyword::Drop),
    (b"connect", Keyword::Connect),
];

impl Keyword {
    /// Whether there are such lines in a mode.
    pub fn stands_in(self, mode: Mode) -> bool
        ensures { result ≡ stands_in self mode }
    {
        match self {
            Keyword::Seed | Keyword::Clock | Keyword::Piece => mode.is_both(),
            Keyword::Channels | Keyword::Real | Keyword::At => mode.is_client(),
            Keyword::Devices => mode.is_host(),
            Keyword::Workers
            | Keyword::Drive
            | Keyword::DriveFold
            | Keyword::Folder
            | Keyword::File
            | Keyword::Fill
            | Keyword::Printer => !mode.is_host(),
            Keyword::Settle | Keyword::Remove | Keyword::Add | Keyword::Do | Keyword::Cache => {
                mode.is_both()
            }
            Keyword::Drop | Keyword::Connect => !mode.is_client(),
        }
    }
}

/// What an application's line may do.
pub const VERBS: [(&[u8], Verb); 13] = [
    (b"open", Verb::Open),
    (b"create", Verb::Create),
    (b"close", Verb::Close),
    (b"read", Verb::Read),
    (b"write", Verb::Write),
    (b"query", Verb::Query),
    (b"set", Verb::Set),
    (b"volume", Verb::Volume),
    (b"setvolume", Verb::SetVolume),
    (b"dir", Verb::Dir),
    (b"lock", Verb::Lock),
    (b"control", Verb::Control),
    (b"notify", Verb::Notify),
];

/// What a `do` line may ask for.
pub const ERRAND_WORDS: [(&[u8], ErrandWord); 8] = [
    (b"issue", ErrandWord::Issue),
    (b"send", ErrandWord::Send),
    (b"read", ErrandWord::Read),
    (b"take", ErrandWord::Take),
    (b"apply", ErrandWord::Apply),
    (b"collect", ErrandWord::Collect),
    (b"answer", ErrandWord::Answer),
    (b"back", ErrandWord::Back),
];

/// What a `cache` line may tell.
pub const NOTICE_WORDS: [(&[u8], NoticeWord); 4] = [
    (b"add", NoticeWord::Add),
    (b"update", NoticeWord::Update),
    (b"delete", NoticeWord::Delete),
    (b"rename", NoticeWord::Rename),
];

/// What an `at` line may do.
pub const ACTS: [(&[u8], Act); 3] = [
    (b"remove", Act::Remove),
    (b"add", Act::Add),
    (b"drop", Act::Drop),
];
