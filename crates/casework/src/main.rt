// The program: checks chart files and shows what the charts say.
#![tactic(auto)]

mod check;
mod command;

use chart_text::refusals::error_words;
use check::answer;
use command::{Command, command_of};
use std::alloc::Global;
use std::error::Error;
use std::fmt::{self, Debug, Display, Formatter, InlineText};
use std::{env, fs};

const HELP: &str =
    "casework check FILE   read the chart in FILE, and show what it says or why it is refused\ncasework help         show this help\n\nA chart file holds the bytes of a chart as hexadecimal text: two digits to a byte,\nwhite space between bytes, and comments from # to the end of the line.\n";

// Why there is no answer. It is shown between quotes.
#[derive(Drop)]
struct NoAnswer(InlineText<SHOWN>);

// How many bytes of the words are shown.
const SHOWN: usize = 120;

impl NoAnswer {
    // The words may be longer than what is shown.
    fn cut(heap: Global, words: impl Display + Drop) -> NoAnswer {
        match words.to_string(heap) {
            Ok(words) => {
                let words = words.as_str();
                NoAnswer(InlineText::of(&words[..words.floor_char_boundary(SHOWN)]))
            }
            Err(error) => NoAnswer::from(error),
        }
    }
}

impl<E: Error> From<E> for NoAnswer {
    fn from(error: E) -> NoAnswer {
        NoAnswer(InlineText::of(error))
    }
}

impl Debug for NoAnswer {
    fn fmt<W: fmt::Write>(&self, f: &mut Formatter<W>) -> fmt::Result {
        write!(f, "{:?}", self.0.as_str())
    }
}

// Shows what the chart in the file says, or why it is refused and where.
fn check_file(rt: &HostRuntime, file: &str) -> Result<(), NoAnswer> {
    let heap = rt.alloc();
    let text = fs::read(rt, file).map_err(|error| NoAnswer::cut(
        heap,
        format_args!("{error}: {file}"),
    ))?;
    match answer(heap, text.as_slice()) {
        Ok(words) => Ok(rt.print(words)?),
        Err(error) => {
            let words = error_words(heap, error)?;
            Err(NoAnswer::cut(heap, format_args!("{words}, in {file}")))
        }
    }
}

fn run(rt: &HostRuntime) -> Result<(), NoAnswer> {
    let words: Vec<String> = env::args(rt)?.skip(1).collect(rt.alloc())?;
    let Some((word, others)) = words.split_first() else {
        return Ok(rt.print(HELP)?);
    };
    match command_of(word.as_str(), others.len())? {
        Command::Check => check_file(rt, others[0].as_str()),
        Command::Help => Ok(rt.print(HELP)?),
    }
}

fn main(rt: HostRuntime) -> Result<(), NoAnswer> {
    run(&rt)
}
