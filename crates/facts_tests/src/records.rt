use crate::checks::{check, check_eq};
use facts::packed::PackedRecord;
use facts::{FactBook, Refusal};
use std::test::Fail;

// Attribute 0 is 40, and attribute 2 is 7.
const EXAMPLE: [u8; 10] = [0x00, 0x05, 0x00, 0x00, 0x00, 0x28, 0x00, 0x00, 0x00, 0x07];

// The two bytes of a map in which one attribute's bit stands, 0 to 15.
const SINGLE: [[u8; 2]; 16] = [
    [0, 1],
    [0, 2],
    [0, 4],
    [0, 8],
    [0, 16],
    [0, 32],
    [0, 64],
    [0, 128],
    [1, 0],
    [2, 0],
    [4, 0],
    [8, 0],
    [16, 0],
    [32, 0],
    [64, 0],
    [128, 0],
];

// The book writes a record of `len` bytes, and leaves the buffer as `expected`.
fn check_written(
    book: &PackedRecord,
    buffer: &mut [u8],
    len: usize,
    expected: &[u8],
) -> Result<(), Fail> {
    check_eq(book.write(buffer), Ok(len))?;
    check(*buffer == *expected)
}

// The book does not write to the buffer.
fn check_short(book: &PackedRecord, buffer: &mut [u8], expected: &[u8]) -> Result<(), Fail> {
    check_eq(book.write(buffer), Err(Refusal::BufferTooShort))?;
    check(*buffer == *expected)
}

#[test]
fn example(rt: HostRuntime) {
    let mut book = PackedRecord::new();
    assert_eq!(rt; book.load(&EXAMPLE), Ok(()));
    assert_eq!(rt; book.look(0), Ok(Some(40)));
    assert_eq!(rt; book.look(1), Ok(None));
    assert_eq!(rt; book.look(2), Ok(Some(7)));
    assert_eq!(rt; book.look(3), Ok(None));
    assert_eq!(rt; book.look(15), Ok(None));
}

// A record of one attribute is loaded, written, and emptied.
fn check_single(attribute: u8, high: u8, low: u8) -> Result<(), Fail> {
    let mut book = PackedRecord::new();
    check_eq(book.load(&[high, low, 1, 2, 3, 4]), Ok(()))?;
    check_eq(book.look(attribute), Ok(Some(0x0102_0304)))?;
    check_short(&book, &mut [9; 5], &[9; 5])?;
    let mut buffer = [9; 7];
    check_written(&book, &mut buffer, 6, &[high, low, 1, 2, 3, 4, 9])?;
    check_eq(book.set(attribute, None), Ok(()))?;
    check_written(&book, &mut buffer, 2, &[0, 0, 1, 2, 3, 4, 9])
}

#[test]
fn each_attribute() -> Result<(), Fail> {
    for (attribute, [high, low]) in (0..).zip(SINGLE) {
        check_single(attribute, high, low)?;
    }
    Ok(())
}

#[test]
fn all_sixteen(rt: HostRuntime) -> Result<(), Fail> {
    let mut source = [255; 66];
    for (byte, value) in source[2..].iter_mut().zip(2..66) {
        *byte = value;
    }
    let mut book = PackedRecord::new();
    assert_eq!(rt; book.load(&source), Ok(()));
    assert_eq!(rt; book.look(0), Ok(Some(0x0203_0405)));
    assert_eq!(rt; book.look(15), Ok(Some(0x3E3F_4041)));
    check_short(&book, &mut [9; 65], &[9; 65])?;
    check_written(&book, &mut [9; 66], 66, &source)
}

#[test]
fn none(rt: HostRuntime) -> Result<(), Fail> {
    let mut book = PackedRecord::new();
    assert_eq!(rt; book.load(&EXAMPLE), Ok(()));
    assert_eq!(rt; book.load(&[0, 0]), Ok(()));
    assert_eq!(rt; book.look(0), Ok(None));
    assert_eq!(rt; book.look(2), Ok(None));
    check_short(&book, &mut [9], &[9])?;
    check_written(&book, &mut [9, 9], 2, &[0, 0])
}

// The bytes are no record, and the book keeps its facts.
fn check_refused(book: &mut PackedRecord, source: &[u8]) -> Result<(), Fail> {
    check_eq(book.load(source), Err(Refusal::WrongLength))?;
    check_written(book, &mut [9; 10], 10, &EXAMPLE)
}

#[test]
fn wrong_lengths(rt: HostRuntime) -> Result<(), Fail> {
    let mut book = PackedRecord::new();
    assert_eq!(rt; book.load(&EXAMPLE), Ok(()));
    check_refused(&mut book, &[])?;
    check_refused(&mut book, &[0])?;
    check_refused(&mut book, &[0, 0, 0])?;
    check_refused(&mut book, &[0, 1])?;
    check_refused(&mut book, &[0, 1, 0, 0, 5])?;
    check_refused(&mut book, &[0, 1, 0, 0, 0, 5, 0])?;
    check_refused(&mut book, &[0, 3, 0, 0, 0, 5])?;
    check_refused(&mut book, &[255; 65])?;
    check_refused(&mut book, &[255; 67])
}

#[test]
fn gaps(rt: HostRuntime) -> Result<(), Fail> {
    let mut book = PackedRecord::new();
    assert_eq!(rt; book.set(9, Some(0x0909_0909)), Ok(()));
    assert_eq!(rt; book.set(0, Some(0x0A0A_0A0A)), Ok(()));
    assert_eq!(rt; book.set(5, Some(0x0505_0505)), Ok(()));
    let mut buffer = [1; 14];
    check_written(
        &book,
        &mut buffer,
        14,
        &[2, 33, 10, 10, 10, 10, 5, 5, 5, 5, 9, 9, 9, 9],
    )?;
    assert_eq!(rt; book.set(5, None), Ok(()));
    assert_eq!(rt; book.set(9, Some(7)), Ok(()));
    check_written(
        &book,
        &mut buffer,
        10,
        &[2, 1, 10, 10, 10, 10, 0, 0, 0, 7, 9, 9, 9, 9],
    )
}
