// A fact book that is a packed record.
ghost use Rattle.std.specs.Prelude.{◌≡◌, ◌+◌, ◌-◌, ◌*◌, ◌<◌, ◌≤◌, true, ◌++◌, length, take, drop, replicate, Some, None, is_some, IsSome, IsNone, count_ones, slice_index_or, slice_set};
ghost use Rattle.facts.specs.Record.{Held, Loaded, Written, OneForEach, WorkedExample, decode, encode, four, four_of, place_of, two, two_of, whole};
ghost use Rattle.facts.specs.Records.{decode-facts};

use crate::attribute::Attribute;
use crate::{FactBook, Refusal};

// The most that a record takes: two bytes of map, and four for each of the sixteen attributes. There is no heap, and how
// long a record is its map says, so no length stands beside the bytes.
const ROOM: usize = 66;

// A record in memory: two bytes of map with bit k for attribute k, then four bytes for each bit that stands, rising, highest byte first.
// What lies behind the record means nothing. So the facts do not give the bytes back, as `impl Model` asks of a `Copy` type.
#[derive(Clone, Copy)]
pub struct PackedRecord {
    bytes: [u8; ROOM],
    ghost ok: { Held bytes },
}

// Where a field stands or would stand in a record.
#[derive(Clone, Copy)]
struct Place {
    at: usize,
    ghost low: { at ≤ 62 },
}

// How long a record with the map is.
fn record_len(map: u16) -> usize
    ensures value { result ≡ 2 + 4 * count_ones map }
    ensures bound { result ≤ 66 }
{
    2 + 4 * map.count_ones() as usize
}

// Whether the bytes are a record: whether their map asks for as many as there are.
fn is_record(source: &[u8]) -> bool
    ensures { result ≡ whole source.now }
{
    source
        .first_chunk()
        .is_some_and(|&map| source.len() == record_len(u16::from_be_bytes(map)))
}

impl PackedRecord {
    // All attributes absent.
    #[tactic(auto, using(crate::proofs::Sets::nothing_held), unfolding(crate::specs::Record::decode))]
    pub fn new() -> PackedRecord
        ensures { decode result.bytes ≡ replicate 16 None }
    {
        PackedRecord { bytes: [0; ROOM] }
    }

    // Takes the facts of a record in place of those that the book has.
    #[tactic(auto, using(crate::specs::Records::taken_over, crate::specs::Records::given_back, crate::specs::Records::one_for_each, crate::specs::Records::worked_example))]
    pub fn load(&mut self, source: &[u8]) -> Result<(), Refusal>
        ensures loaded { Loaded (decode self.old.bytes) source.now result (decode self.new.bytes) }
        ensures law { OneForEach }
        ensures example { WorkedExample }
    {
        if !is_record(source) {
            return Err(Refusal::WrongLength);
        }
        // From `0..` on, since the check follows no loan of `[..n]` out of a field beside a ghost field.
        self.bytes[0..source.len()].copy_from_slice(source);
        Ok(())
    }

    // Writes the record to the front of the buffer, and says how long it is.
    pub fn write(&self, buffer: &mut [u8]) -> Result<usize, Refusal>
        ensures { Written (decode self.now.bytes) buffer.old result buffer.new }
    {
        let own = self.record();
        if buffer.len() < own.len() {
            return Err(Refusal::BufferTooShort);
        }
        buffer[..own.len()].copy_from_slice(own);
        Ok(own.len())
    }

    // The number that stands at the place.
    fn number_at(&self, place: Place) -> u32
        ensures { result ≡ four_of (drop place.at self.now.bytes) }
    {
        u32::from_be_bytes(*self.bytes[place.at..].first_chunk().unwrap())
    }

    // Writes the number at the place.
    fn put_number(&mut self, place: Place, number: u32)
        ensures { self.new.bytes ≡ take place.at self.old.bytes ++ (four number ++ drop (place.at + 4) self.old.bytes) }
    {
        self.bytes[place.at..place.at + 4].copy_from_slice(&number.to_be_bytes());
    }

    // Opens a gap of four bytes at the place. The last four bytes are lost.
    fn open_gap(&mut self, place: Place)
        ensures front { take place.at self.new.bytes ≡ take place.at self.old.bytes }
        ensures behind { drop (place.at + 4) self.new.bytes ≡ take (62 - place.at) (drop place.at self.old.bytes) }
    {
        self.bytes.copy_within(place.at..ROOM - 4, place.at + 4);
    }

    // Closes the gap that four bytes at the place leave. The last four bytes then mean nothing.
    fn close_gap(&mut self, place: Place)
        ensures front { take place.at self.new.bytes ≡ take place.at self.old.bytes }
        ensures behind { take (62 - place.at) (drop place.at self.new.bytes) ≡ drop (place.at + 4) self.old.bytes }
    {
        self.bytes.copy_within(place.at + 4.., place.at);
    }

    // Writes the map in front.
    fn put_map(&mut self, map: u16)
        ensures { self.new.bytes ≡ two map ++ drop 2 self.old.bytes }
    {
        self.bytes[0..2].copy_from_slice(&map.to_be_bytes());
    }

    // The record that the bytes begin with.
    #[tactic(auto, using(crate::specs::Records::record_front))]
    fn record(&self) -> &[u8]
        ensures { result.now ≡ encode (decode self.now.bytes) }
    {
        &self.bytes[..record_len(self.map())]
    }

    // The map in front.
    fn map(&self) -> u16
        ensures { result ≡ two_of self.now.bytes }
    {
        u16::from_be_bytes([self.bytes[0], self.bytes[1]])
    }

    // Whether the attribute has a number, which its bit of the map says.
    #[tactic(auto, using(crate::proofs::Fields::bit_there))]
    fn has(&self, attribute: Attribute) -> bool
        ensures { result ≡ is_some (slice_index_or (decode self.now.bytes) attribute.index None) }
    {
        (self.map() >> attribute.index) % 2 == 1
    }

    // Where the attribute's field stands or would stand: behind those of the attributes below it.
    #[tactic(auto, using(crate::proofs::Fields::place_low))]
    fn place(&self, attribute: Attribute) -> Place
        ensures { result.at ≡ place_of (two_of self.now.bytes) attribute.index }
    {
        Place {
            at: record_len(self.map() % attribute.bit()),
        }
    }

    // What the attribute has.
    #[tactic(auto, using(crate::proofs::Fields::look_there))]
    fn fact(&self, attribute: Attribute) -> Option<u32>
        ensures { result ≡ slice_index_or (decode self.now.bytes) attribute.index None }
    {
        self.has(attribute)
            .then(|| self.number_at(self.place(attribute)))
    }

    // Gives the attribute a number, or makes it absent.
    fn put(&mut self, attribute: Attribute, value: Option<u32>)
        ensures { decode self.new.bytes ≡ slice_set (decode self.old.bytes) attribute.index value }
    {
        match (value, self.has(attribute)) {
            (Some(number), true) => self.replace(attribute, number),
            (Some(number), false) => self.insert(attribute, number),
            (None, true) => self.remove(attribute),
            (None, false) => {}
        }
    }

    // Writes the number over the one that the attribute has.
    #[tactic(auto, using(crate::proofs::Fields::replaced))]
    fn replace(&mut self, attribute: Attribute, number: u32)
        requires { IsSome (slice_index_or (decode self.old.bytes) attribute.index None) }
        ensures { decode self.new.bytes ≡ slice_set (decode self.old.bytes) attribute.index (Some number) }
    {
        let place = self.place(attribute);
        self.put_number(place, number);
    }

    // Gives the attribute, which was absent, a field with the number.
    #[tactic(auto, using(crate::proofs::Fields::map_rises, crate::proofs::Fields::inserted))]
    fn insert(&mut self, attribute: Attribute, number: u32)
        requires { IsNone (slice_index_or (decode self.old.bytes) attribute.index None) }
        ensures { decode self.new.bytes ≡ slice_set (decode self.old.bytes) attribute.index (Some number) }
    {
        let map = self.map() + attribute.bit();
        let place = self.place(attribute);
        self.open_gap(place);
        self.put_number(place, number);
        self.put_map(map);
    }

    // Makes the attribute, which had a number, absent.
    #[tactic(auto, using(crate::proofs::Fields::map_falls, crate::proofs::Fields::removed))]
    fn remove(&mut self, attribute: Attribute)
        requires { IsSome (slice_index_or (decode self.old.bytes) attribute.index None) }
        ensures { decode self.new.bytes ≡ slice_set (decode self.old.bytes) attribute.index None }
    {
        let map = self.map() - attribute.bit();
        let place = self.place(attribute);
        self.close_gap(place);
        self.put_map(map);
    }
}

impl FactBook for PackedRecord {
    ghost facts = { λ b. decode b.bytes };

    ghost sixteen = { λ b. decode-facts b.bytes b.ok.1 };

    fn look(&self, attribute: u8) -> Result<Option<u32>, Refusal> {
        Ok(self.fact(Attribute::try_from(attribute)?))
    }

    fn set(&mut self, attribute: u8, value: Option<u32>) -> Result<(), Refusal> {
        self.put(Attribute::try_from(attribute)?, value);
        Ok(())
    }
}
