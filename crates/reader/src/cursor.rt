// The bytes of a chart as they are walked.
ghost use Rattle.std.specs.Prelude.{◌≡◌, ◌≤◌, length};

use layout::refusal::{Fault, Refusal};

// The bytes of a chart, and how far they have been read. All bytes are kept, and not those that are left, since refusals
// and records tell their place.
#[derive(Clone, Copy)]
pub(crate) struct Cursor<'a> {
    pub(crate) bytes: &'a [u8],
    pub(crate) place: usize,
    ghost within: { place ≤ length bytes.now },
}

impl<'a> Cursor<'a> {
    ghost use Rattle.reader.specs.Walk.{Reads};
    ghost use Rattle.layout.specs.Reader.{byte as byte_at, number as number_at};

    pub(crate) fn new(bytes: &'a [u8]) -> Cursor<'a>
        ensures bytes { result.bytes.now ≡ bytes.now }
        ensures place { result.place ≡ 0 }
    {
        Cursor { bytes, place: 0 }
    }

    // The next byte.
    pub(crate) fn byte(&mut self) -> Result<u8, Refusal>
        ensures { Reads byte_at self.old self.new result }
    {
        let Some(&byte) = self.bytes.get(self.place) else {
            return Err(Fault::Short.at(self.bytes.len()));
        };
        self.place += 1;
        Ok(byte)
    }

    // The number of the next four bytes, the highest first.
    pub(crate) fn number(&mut self) -> Result<u32, Refusal>
        ensures { Reads number_at self.old self.new result }
    {
        Ok(u32::from_be_bytes([self.byte()?, self.byte()?, self.byte()?, self.byte()?]))
    }
}
