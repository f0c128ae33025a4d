// What the program answers to a chart file.
ghost use Rattle.std.specs.Prelude.{◌≡◌, IfOk, string_bytes};
ghost use Rattle.casework.specs.Answers.{Answers, Told, refused_words};

use chart::read::read;
use chart::refusal::{ReadError, Refusal};
use chart_text::describe::describe;
use chart_text::refusals::{position_words, refusal_words};
use hex_text::text::{TextError, bytes_of, position_of};
use std::alloc::{AllocError, Global};

// Why a chart is refused, and where in the file.
fn refused(heap: Global, text: &[u8], refusal: Refusal) -> Result<String, AllocError>
    ensures { IfOk result (λ s. string_bytes s ≡ refused_words text.now refusal) }
{
    let words = refusal_words(heap, refusal)?;
    let place = position_words(heap, position_of(text, refusal.place()))?;
    format!(in heap; "{words}\nat {place}\n")
}

// What the chart of these bytes says, or why they are refused and where in the text that they were read from.
fn words_of(heap: Global, text: &[u8], bytes: &[u8]) -> Result<String, AllocError>
    ensures { IfOk result (λ s. Told text.now bytes.now (string_bytes s)) }
{
    match read(heap, bytes) {
        Ok(chart) => describe(heap, chart.nodes(), chart.edges()),
        Err(ReadError::Refused(refusal)) => refused(heap, text, refusal),
        // no `?`: the other error is an answer, and this function's own error is want of memory alone
        Err(ReadError::Memory) => Err(AllocError),
    }
}

// What the chart in a file says, or why it is refused and where.
pub fn answer(heap: Global, text: &[u8]) -> Result<String, TextError>
    ensures { Answers text.now result }
{
    let bytes = bytes_of(heap, text)?;
    Ok(words_of(heap, text, bytes.as_slice())?)
}
