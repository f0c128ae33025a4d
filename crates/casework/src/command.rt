// The commands of the program.
ghost use Rattle.std.specs.Prelude.{◌≡◌, Some};
ghost use Rattle.casework.specs.Answers.{Names, advice_words};

use std::error::Error;
use std::fmt;

#[derive(Clone, Copy)]
pub enum Command {
    // check a chart file
    Check,
    // say what commands there are
    Help,
}

// Why words are no command.
#[derive(Clone, Copy, Debug)]
pub enum Misuse {
    // check wants one file
    NotOneFile,
    // help wants no other word
    NotAlone,
    // there is no such command
    Unknown,
}

// The command with this name, which so many other words follow.
pub fn command_of(word: &str, others: usize) -> Result<Command, Misuse>
    ensures { Names word.now others result }
{
    match (word, others) {
        ("check", 1) => Ok(Command::Check),
        ("check", _) => Err(Misuse::NotOneFile),
        ("help", 0) => Ok(Command::Help),
        ("help", _) => Err(Misuse::NotAlone),
        _ => Err(Misuse::Unknown),
    }
}

// What to tell a person who used the program so.
pub fn advice(misuse: Misuse) -> &'static str
    ensures { result.now ≡ advice_words misuse }
{
    match misuse {
        Misuse::NotOneFile => "check wants one file: casework check FILE",
        Misuse::NotAlone => "help wants no other word: casework help",
        Misuse::Unknown => "no such command: see casework help",
    }
}

impl fmt::Display for Misuse {
    ghost output = { λ m. Some (advice_words m) };

    fn fmt<W: fmt::Write>(&self, f: &mut fmt::Formatter<W>) -> fmt::Result {
        f.write_str(advice(*self))
    }
}

impl Error for Misuse {}
