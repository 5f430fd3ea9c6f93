//! The forms of a script's lines, and what their words stand for.

/// Each form of a line. `client` reads `workers` to `printer`, and those with `at`; `host` reads `devices`, `drop`, `connect`, and those of
/// applications; `both` reads all but `devices`, `channels`, `real`, and those with `at`. A word that begins with a capital letter stands for what
/// may be chosen.
pub const FORMS: [&str; 46] = [
    "seed NUM",
    "clock NUM",
    "piece NUM",
    "devices NUM",
    "workers NUM",
    "channels NUM",
    "drive D NAME",
    "drivefold D NAME",
    "real D NAME PLACE",
    "folder D PATH",
    "file D PATH HEX",
    "fill D PATH LENGTH BYTE",
    "printer D NAME TEXT TEXT",
    "at C N remove D",
    "at C N add D",
    "at C N drop",
    "settle",
    "remove D",
    "add D",
    "drop",
    "connect",
    "do issue A",
    "do send",
    "do read",
    "do take D NUM",
    "do apply NUM",
    "do collect D",
    "do answer",
    "do back",
    "cache add PORT TEXT TEXT HEX",
    "cache update TEXT HEX",
    "cache delete TEXT",
    "cache rename TEXT TEXT",
    "A open H D PATH",
    "A create H D PATH DISPOSITION ACCESS SHARE OPTIONS ATTRIBUTES",
    "A close H",
    "A read H OFFSET LENGTH",
    "A write H OFFSET HEX",
    "A query H CLASS",
    "A set H CLASS HEX",
    "A volume H CLASS",
    "A setvolume H CLASS HEX",
    "A dir H CLASS FLAG PATH",
    "A lock H OPERATION FLAG RANGES",
    "A control H CODE OUTPUT HEX",
    "A notify H FLAG FILTER",
];

/// What the words in capitals stand for; any other is a number below 2^32.
const MEANINGS: [(&str, &str); 13] = [
    ("A", "an application: a number from 1 to 64"),
    ("D", "the id of a device: a number from 1 on"),
    (
        "N",
        "how many requests were read on the channel: a number below 2^64",
    ),
    ("H", "a handle: 1 to 8 letters a to z or digits"),
    ("NAME", "1 to 7 visible ASCII characters"),
    ("PORT", "1 to 7 visible ASCII characters"),
    (
        "TEXT",
        "visible ASCII characters, % and four digits for any other unit, - for none",
    ),
    (
        "PATH",
        "a path from the root on, such as \\notes\\today.txt",
    ),
    (
        "HEX",
        "bytes: two lower-case hexadecimal digits each, - for none",
    ),
    ("FLAG", "0 or 1"),
    ("RANGES", "OFFSET:LENGTH, and more of these after commas"),
    ("OFFSET", "a number below 2^64"),
    ("PLACE", "a folder of this machine"),
];

/// What a word of a form stands for, where it isn't written as it is.
pub fn meaning(word: &str) -> Option<&'static str> {
    if !is_chosen(word) {
        return None;
    }
    for (name, said) in MEANINGS {
        if name == word {
            return Some(said);
        }
    }
    Some("a number below 2^32")
}

/// Whether a word of a form stands for what may be chosen.
fn is_chosen(word: &str) -> bool {
    matches!(word.as_bytes(), [b'A'..=b'Z', ..])
}

/// Whether a word of a line may stand for a word of a form. An application begins with a digit, and nothing else does.
fn may_be(word: &str, said: &[u8]) -> bool {
    if word == "A" {
        return matches!(said, [b'0'..=b'9', ..]);
    }
    is_chosen(word) || word.as_bytes() == said
}

/// The word at a place of a form, if the words of a line before that place are of this form.
pub fn word_at<'a>(form: &'a str, line: &[u8], place: usize) -> Option<&'a str> {
    let mut words = line.split(|byte| *byte == b' ');
    for (at, word) in form.split(' ').enumerate() {
        if at == place {
            return Some(word);
        }
        let said = words.next().unwrap_or_default();
        if !may_be(word, said) {
            return None;
        }
    }
    None
}
