// Goes over a hexadecimal text byte by byte.
ghost use Rattle.std.specs.Prelude.{◌≡◌, ◌+◌, ◌^◌, ◌<◌, length, IfOk};
ghost use Rattle.hex_text.specs.Reader.{sign as sign_at, step as step_of, Small, first_digit};

use super::text::{Position, TextError};

// What a character of the text is.
#[derive(Clone, Copy)]
pub(crate) enum Sign {
    // a hexadecimal digit, with its value
    Digit(u8),
    // a space, a tab, a carriage return or a line feed
    Space,
    // the start of a comment
    Hash,
    // any other character
    Other,
}

// What a character is. White space is told by hand, since is_ascii_whitespace takes the form feed too.
fn sign_of(character: u8) -> Sign
    ensures value { result ≡ sign_at character }
    ensures small { Small result }
{
    match (character as char).to_digit(16) {
        Some(digit) => Sign::Digit(digit as u8),
        None => match character {
            b' ' | b'\t' | b'\r' | b'\n' => Sign::Space,
            b'#' => Sign::Hash,
            _ => Sign::Other,
        },
    }
}

// A byte of the text, with the position of its first digit.
#[derive(Clone, Copy)]
pub(crate) struct Mark {
    pub(crate) value: u8,
    pub(crate) position: Position,
}

// What the reader has just passed.
#[derive(Clone, Copy)]
pub(crate) enum State {
    // nothing that matters: it stands between two bytes
    Between,
    // the first digit of a byte, which stands at the position
    Half(u8, Position),
    // a part of a comment
    Comment,
}

impl State {
    // What comes after the next character, which stands here, and the byte that it completes, if it completes one.
    fn step(self, character: u8, here: Position) -> Result<(State, Option<Mark>), TextError>
        requires { first_digit self < 16 }
        ensures value { result ≡ step_of self character here }
        ensures half { IfOk result (λ next. first_digit next.0 < 16) }
    {
        match (self, sign_of(character)) {
            (State::Between, Sign::Digit(high)) => Ok((State::Half(high, here), None)),
            (State::Between, Sign::Space) => Ok((State::Between, None)),
            (State::Between, Sign::Hash) => Ok((State::Comment, None)),
            (State::Between, Sign::Other) => Err(TextError::Stray(here)),
            (State::Half(high, position), Sign::Digit(low)) => {
                let value = high * 16 + low;
                Ok((State::Between, Some(Mark { value, position })))
            }
            (State::Half(_, _), Sign::Other) => Err(TextError::Stray(here)),
            (State::Half(_, position), _) => Err(TextError::Lone(position)),
            (State::Comment, _) if character == b'\n' => Ok((State::Between, None)),
            (State::Comment, _) => Ok((State::Comment, None)),
        }
    }
}

// The bytes of a text that are still to come, and after them what is wrong with the text, if something is.
#[derive(Drop)]
pub(crate) struct Bytes<'a> {
    // the characters that are left
    rest: &'a [u8],
    // how many lines have ended, and how many characters of this line have passed
    lines: usize,
    columns: usize,
    // what came last
    state: State,
    ghost lines_fit: { lines + length rest.now < 2 ^ 64 },
    ghost columns_fit: { columns + length rest.now < 2 ^ 64 },
    ghost half: { first_digit state < 16 },
}

impl<'a> Bytes<'a> {
    ghost use Rattle.hex_text.specs.Meaning.{start, scan};
    ghost use Rattle.hex_text.specs.Bytes.{left, TakesFirst, TakesByte};

    pub(crate) fn of(text: &'a [u8]) -> Bytes<'a>
        ensures { left result ≡ scan start text.now }
    {
        Bytes {
            rest: text,
            lines: 0,
            columns: 0,
            state: State::Between,
        }
    }

    // Passes the next character, and gives it with its position.
    fn take(&mut self) -> Option<(u8, Position)>
        ensures { TakesFirst self.old result self.new }
    {
        let (character, rest) = self.rest.split_first()?;
        let position = Position {
            line: self.lines + 1,
            column: self.columns + 1,
        };
        if *character == b'\n' {
            self.lines += 1;
            self.columns = 0;
        } else {
            self.columns += 1;
        }
        self.rest = rest;
        Some((*character, position))
    }

    // The next byte, if there is one before the end and the first error. A loop, and no `find_map`: each character changes
    // the state, and an error ends it by `?`.
    fn byte(&mut self) -> Result<Option<Mark>, TextError>
        ensures { TakesByte self.old result self.new }
    {
        while let Some((character, here)) = self.take() {
            let (state, mark) = self.state.step(character, here)?;
            self.state = state;
            if mark.is_some() {
                return Ok(mark);
            }
        }
        match self.state {
            State::Half(_, position) => Err(TextError::Lone(position)),
            State::Between | State::Comment => Ok(None),
        }
    }
}

impl<'a> Iterator for Bytes<'a> {
    ghost use Rattle.std.specs.Iterator.{YieldsFirst, item_count};
    ghost use Rattle.hex_text.specs.Bytes.{left};

    type Item = Result<Mark, TextError>;

    ghost next_gives = { YieldsFirst left };

    ghost remaining = { item_count left };

    fn next(&mut self) -> Option<Result<Mark, TextError>> {
        let byte = self.byte();
        if byte.is_err() {
            // nothing comes after an error
            *self = Bytes::of(&[]);
        }
        byte.transpose()
    }
}
