// Reads and writes hexadecimal text.
ghost use Rattle.std.specs.Prelude.{◌≡◌, IfOk, Ok, string_bytes};
ghost use Rattle.std.specs.Option.{option_map};
ghost use Rattle.hex_text.specs.Laws.{hex_of, Finds, Loose};
ghost use Rattle.hex_text.specs.Meaning.{Reads, meaning, nth, position_of, scan, start};
ghost use Rattle.hex_text.specs.declared.text.TextError.TheVariants.{Memory};

use super::reader::{Bytes, Mark};
use std::alloc::{AllocError, AllocFailed, Global};

// Where a character stands in a text. Lines and columns count from 1; a column is a byte of the line.
#[derive(Clone, Copy, Debug, PartialEq, Eq)]
pub struct Position {
    pub line: usize,
    pub column: usize,
}

// Why a text is no bytes.
#[derive(Clone, Copy, Debug, PartialEq, Eq)]
pub enum TextError {
    // outside comments a character is neither a hexadecimal digit nor white space
    Stray(Position),
    // a digit has no second one right after it
    Lone(Position),
    // there is no memory for the bytes
    Memory,
}

impl From<AllocError> for TextError {
    ghost from_gives = { λ _ e. e ≡ Memory };

    fn from(_: AllocError) -> TextError {
        TextError::Memory
    }
}

impl<T: Drop> From<AllocFailed<T>> for TextError {
    ghost from_gives = { λ _ e. e ≡ Memory };

    fn from(failed: AllocFailed<T>) -> TextError {
        TextError::from(AllocError::from(failed))
    }
}

// The bytes that a hexadecimal text says, or what is wrong with the text first, and where.
#[tactic(auto, using(crate::proofs::Gaps::loose))]
pub fn bytes_of(heap: Global, text: &[u8]) -> Result<Vec<u8>, TextError>
    ensures exact { Reads text.now result }
    ensures law { Loose text.now }
{
    // Not by `collect` into a Result: its contract does not say that it fails where an item fails.
    let mut bytes = Vec::new(heap);
    for byte in Bytes::of(text) {
        bytes.push(byte?.value)?;
    }
    Ok(bytes)
}

// The position of the first digit of byte number `place`; none where the text, up to its end or its first error, has
// no such byte.
pub fn position_of(text: &[u8], place: usize) -> Option<Position>
    ensures exact { result ≡ position_of text.now place }
    ensures law { Finds text.now place result }
{
    byte_at(text, place).map(|byte| byte.position)
}

// Byte number `place` of those that the text says before its end or its first error.
fn byte_at(text: &[u8], place: usize) -> Option<Mark>
    ensures exact { result ≡ nth place (scan start text.now) }
    ensures law { Finds text.now place (option_map (λ byte. byte.position) result) }
{
    Bytes::of(text).nth(place)?.ok()
}

// The bytes as hexadecimal text, two digits each.
#[tactic(auto, using(crate::proofs::Writes::encodes, crate::proofs::Writes::reads_back))]
pub fn text_of(heap: Global, bytes: &[u8]) -> Result<String, AllocError>
    ensures exact { IfOk result (λ s. string_bytes s ≡ hex_of bytes.now) }
    ensures law { meaning (hex_of bytes.now) ≡ Ok bytes.now }
{
    hex::encode_upper(heap, bytes)
}
