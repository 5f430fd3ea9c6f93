//! A name as the system has it.

ghost use Rattle.std.specs.Prelude.{◌≡◌, IsTrue};
ghost use Rattle.std.specs.List.{list_all};
ghost use Rattle.rd_folder.specs.OneName.{is_dot_name, is_name_byte, is_one_name};

use arrayvec::ArrayString;
use std::io;
use std::io::{Error, ErrorKind};

/// The most bytes of 255 units.
const MOST: usize = 768;

/// One name of the system: no separator, no zero, and neither the folder itself nor the one above it.
#[derive(Drop)]
pub struct OneName {
    text: ArrayString<MOST>,
    ghost one: { IsTrue (is_one_name text.bytes) },
}

fn is_name_byte(byte: u8) -> bool
    ensures { result ≡ is_name_byte byte }
{
    !(byte == b'/' || byte == 0)
}

fn are_name_bytes(bytes: &[u8]) -> bool
    ensures { result ≡ list_all is_name_byte bytes.now }
{
    bytes.iter().all(|byte| is_name_byte(*byte))
}

fn is_dot_name(bytes: &[u8]) -> bool
    ensures { result ≡ is_dot_name bytes.now }
{
    matches!(bytes, [0x2e] | [0x2e, 0x2e])
}

fn is_one_name(bytes: &[u8]) -> bool
    ensures { result ≡ is_one_name bytes.now }
{
    if bytes.is_empty() {
        return false;
    }
    are_name_bytes(bytes) && !is_dot_name(bytes)
}

/// The text of some units, if they are one and it fits.
fn text_of(units: &[u16]) -> Option<ArrayString<MOST>> {
    let mut text = ArrayString::new();
    for character in char::decode_utf16(units.iter().copied()) {
        let Ok(character) = character else {
            return None;
        };
        if text.try_push(character).is_err() {
            return None;
        }
    }
    Some(text)
}

impl OneName {
    /// The name with these units. Units that are no text are no name of the system, and nothing is there.
    pub fn of(units: &[u16]) -> io::Result<OneName> {
        let Some(text) = text_of(units) else {
            return Err(Error::from(ErrorKind::InvalidFilename));
        };
        if !is_one_name(text.as_str().as_bytes()) {
            return Err(Error::from(ErrorKind::InvalidFilename));
        }
        Ok(OneName { text })
    }

    pub fn as_str(&self) -> &str
        ensures { IsTrue (is_one_name result.now) }
    {
        self.text.as_str()
    }
}
