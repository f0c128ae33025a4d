// The words for refusals and errors.
ghost use Rattle.std.specs.Prelude.{◌≡◌, IfOk, Some, string_bytes};
ghost use Rattle.chart_text.specs.Words.{refusal_words, position_words, error_words};

use super::Words;
use chart::refusal::Refusal;
use hex_text::text::{Position, TextError};
use std::alloc::{AllocError, Global};
use std::fmt;

impl fmt::Display for Words<Refusal> {
    ghost output = { λ w. Some (refusal_words w.0) };

    fn fmt<W: fmt::Write>(&self, f: &mut fmt::Formatter<W>) -> fmt::Result {
        let refusal = self.0;
        write!(f, "refused {}", refusal.number())?;
        if let Some(rule) = refusal.rule() {
            write!(f, " rule {}", rule.number())?;
        }
        write!(f, " at {}", refusal.place())
    }
}

// Why bytes are refused as a chart: the number, the rule if one is broken, and the byte.
pub fn refusal_words(heap: Global, refusal: Refusal) -> Result<String, AllocError>
    ensures { IfOk result (λ s. string_bytes s ≡ refusal_words refusal) }
{
    Words(refusal).to_string(heap)
}

impl fmt::Display for Words<Option<Position>> {
    ghost output = { λ w. Some (position_words w.0) };

    fn fmt<W: fmt::Write>(&self, f: &mut fmt::Formatter<W>) -> fmt::Result {
        match self.0 {
            Some(position) => write!(f, "line {}, column {}", position.line, position.column),
            None => write!(f, "the end of the file"),
        }
    }
}

// Where in a file a byte stands; a byte that the file does not have is at its end.
pub fn position_words(heap: Global, position: Option<Position>) -> Result<String, AllocError>
    ensures { IfOk result (λ s. string_bytes s ≡ position_words position) }
{
    Words(position).to_string(heap)
}

impl fmt::Display for Words<TextError> {
    ghost output = { λ w. Some (error_words w.0) };

    fn fmt<W: fmt::Write>(&self, f: &mut fmt::Formatter<W>) -> fmt::Result {
        match self.0 {
            TextError::Stray(position) => {
                let position = Words(Some(position));
                write!(
                    f,
                    "{position}: no hexadecimal digit, white space or comment"
                )
            }
            TextError::Lone(position) => {
                let position = Words(Some(position));
                write!(f, "{position}: a digit without a second one right after it")
            }
            TextError::Memory => write!(f, "out of memory"),
        }
    }
}

// What is wrong with a text that should be bytes.
pub fn error_words(heap: Global, error: TextError) -> Result<String, AllocError>
    ensures { IfOk result (λ s. string_bytes s ≡ error_words error) }
{
    Words(error).to_string(heap)
}
