//! The command that the words are.

ghost use Rattle.std.specs.Prelude.{◌≡◌, ◌⊎◌, ℕ, false, List, IfOk, IfErr, codes, get_or, map, nat_lt, option_map, string_bytes};
ghost use Rattle.std.specs.List.{list_any};
ghost use Rattle.clap.specs.Words.{app_of};
ghost use Rattle.rd_cli.specs.Shapes.{FindsAt, FindsLoad, FindsLoadNumber, HasShape, IsAt, StopsForWords, is_flag, is_path};
ghost use Rattle.rd_cli.specs.declared.words.Command.{Command};
ghost use Rattle.rd_cli.specs.Parser.{IsNameOf, commands, with_command};

use crate::stop::Stop;
use clap::Command as Parser;
use clap::error::ErrorKind;
use std::alloc::{AllocError, Global};

/// The greatest number of a load.
const MAX_LOAD: u32 = 1000;

/// What `rdr` is asked to do.
#[derive(Clone, Copy, Debug, PartialEq, Eq)]
pub enum Command<'a> {
    Both,
    Trace,
    Decode,
    Audit,
    /// The load of this number, which is from 1 to 1000.
    Load(u32),
    /// The client of the host that listens at this path.
    Client(&'a str),
    /// The host that listens at this path.
    Host(&'a str),
}

/// The command whose shape the words have.
pub fn command_of(alloc: Global, words: &[String]) -> Result<Command<'_>, Stop>
    ensures command { IfOk result (HasShape (map string_bytes words.now)) }
    ensures err { IfErr result (StopsForWords (map string_bytes words.now)) }
{
    if has_flag(words) {
        return Err(Stop::Words);
    }
    if let Some(path) = client_path_of(words) {
        return Ok(Command::Client(path));
    }
    if let Some(path) = host_path_of(words) {
        return Ok(Command::Host(path));
    }
    match load_of(words) {
        Some(number) => Ok(Command::Load(number)),
        None => parsed(alloc, words),
    }
}

/// Whether a word is a flag, which no command has.
fn has_flag(words: &[String]) -> bool
    ensures { result ≡ list_any (λ word. is_flag (string_bytes word)) words.now }
{
    words.iter().any(|word| is_flag(word))
}

/// Whether a word begins with a hyphen.
fn is_flag(word: &String) -> bool
    ensures { result ≡ is_flag (string_bytes word.now) }
{
    match word.as_bytes() {
        [] => false,
        [byte, ..] => *byte == b'-',
    }
}

/// The path of the client that the words are, if they are one.
pub fn client_path_of(words: &[String]) -> Option<&str>
    ensures { FindsAt (codes "client") (map string_bytes words.now) (option_map (λ path. path.now) result) }
{
    path_of("client", words)
}

/// The path of the host that the words are, if they are one.
pub fn host_path_of(words: &[String]) -> Option<&str>
    ensures { FindsAt (codes "host") (map string_bytes words.now) (option_map (λ path. path.now) result) }
{
    path_of("host", words)
}

/// The path of the command of this name that the words are, if they are one.
fn path_of<'a>(name: &str, words: &'a [String]) -> Option<&'a str>
    ensures { FindsAt name.now (map string_bytes words.now) (option_map (λ path. path.now) result) }
{
    match words {
        [first, path] => {
            if first.as_str() == name && is_path(path.as_bytes()) {
                Some(path.as_str())
            } else {
                None
            }
        }
        _ => None,
    }
}

/// Whether a word may be a path: it isn't empty, and no flag.
fn is_path(word: &[u8]) -> bool
    ensures { result ≡ is_path word.now }
{
    match word {
        [] => false,
        [byte, ..] => *byte != b'-',
    }
}

/// The number of the load that the words are, if they are one.
fn load_of(words: &[String]) -> Option<u32>
    ensures { FindsLoad (map string_bytes words.now) result }
{
    match words {
        [name, number] => {
            if name.as_str() == "load" {
                load_number(number.as_str())
            } else {
                None
            }
        }
        _ => None,
    }
}

/// The number of a load that a word is: from 1 to 1000, with no zero before it.
fn load_number(word: &str) -> Option<u32>
    ensures { FindsLoadNumber word.now result }
{
    if !is_above_zero(word.as_bytes()) {
        return None;
    }
    let Ok(number) = word.parse::<u32>() else {
        return None;
    };
    if number <= MAX_LOAD {
        Some(number)
    } else {
        None
    }
}

/// Whether a word's first character comes after the digit 0, as that of each number above 0 does.
fn is_above_zero(word: &[u8]) -> bool
    ensures { result ≡ nat_lt 48 (get_or word.now 0 0) }
{
    match word {
        [] => false,
        [byte, ..] => *byte > b'0',
    }
}

/// The command of one word that the parser finds in words of which none begins with a hyphen.
fn parsed<'a>(alloc: Global, words: &[String]) -> Result<Command<'a>, Stop>
    requires plain { list_any is_flag (map string_bytes words.now) ≡ false }
    requires no_client { (path : List ℕ) → ¬ (IsAt (codes "client") (map string_bytes words.now) path) }
    requires no_host { (path : List ℕ) → ¬ (IsAt (codes "host") (map string_bytes words.now) path) }
    requires no_load { (number : ℕ) → ¬ (HasShape (map string_bytes words.now) (Command.Load number)) }
    ensures command { IfOk result (HasShape (map string_bytes words.now)) }
    ensures err { IfErr result (StopsForWords (map string_bytes words.now)) }
{
    let parser = parser(alloc)?;
    match parser.try_get_matches_from(words) {
        Ok(matches) => named(matches.subcommand_name()),
        Err(error) => Err(stop_of(error.kind())),
    }
}

/// What ends the reading of words at an error of this kind.
fn stop_of(kind: ErrorKind) -> Stop
    ensures memory { kind ≡ ErrorKind.OutOfMemory → result ≡ Stop.Memory }
    ensures known { (result ≡ Stop.Words) ⊎ (result ≡ Stop.Memory) }
{
    match kind {
        ErrorKind::OutOfMemory => Stop::Memory,
        _ => Stop::Words,
    }
}

/// The parser of the words.
fn parser<'a>(alloc: Global) -> Result<Parser<'a>, AllocError>
    ensures { IfOk result (λ parser. app_of parser ≡ commands) }
{
    let none = Parser::new(alloc, "rdr")
        .no_binary_name(true)
        .disable_help_flag(true)
        .disable_help_subcommand(true)
        .subcommand_required(true);
    let both = with_command(alloc, none, "both")?;
    let trace = with_command(alloc, both, "trace")?;
    let decode = with_command(alloc, trace, "decode")?;
    with_command(alloc, decode, "audit")
}

/// The parser with one more command.
fn with_command<'a>(
    alloc: Global,
    parser: Parser<'a>,
    name: &'a str,
) -> Result<Parser<'a>, AllocError>
    ensures { IfOk result (λ more. app_of more ≡ with_command (app_of parser.entry) name.now) }
{
    parser.subcommand(Parser::new(alloc, name))
}

/// The command with this name.
fn named<'a>(name: Option<&str>) -> Result<Command<'a>, Stop>
    ensures command { IfOk result (IsNameOf (option_map (λ s. s.now) name.entry)) }
    ensures err { IfErr result (λ stop. (stop ≡ Stop.Words) × ((command : Command) → ¬ (IsNameOf (option_map (λ s. s.now) name.entry) command))) }
{
    match name {
        Some("both") => Ok(Command::Both),
        Some("trace") => Ok(Command::Trace),
        Some("decode") => Ok(Command::Decode),
        Some("audit") => Ok(Command::Audit),
        _ => Err(Stop::Words),
    }
}
