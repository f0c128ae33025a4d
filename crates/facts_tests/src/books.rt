use crate::checks::check_eq;
use facts::packed::PackedRecord;
use facts::table::Table;
use facts::{FactBook, Refusal};
use std::test::Fail;

// Sets each attribute of a book without facts, from the last to the first, and looks at what it then has.
fn fill<B: FactBook>(book: &mut B) -> Result<(), Fail> {
    for attribute in (0..16u8).rev() {
        check_eq(book.look(attribute), Ok(None))?;
        check_eq(
            book.set(attribute, Some(u32::MAX - attribute as u32)),
            Ok(()),
        )?;
    }
    for attribute in 0..16u8 {
        check_eq(book.look(attribute), Ok(Some(u32::MAX - attribute as u32)))?;
        check_eq(book.value(attribute), Some(u32::MAX - attribute as u32))?;
    }
    Ok(())
}

// Makes every other attribute absent, and looks at all.
fn thin_out<B: FactBook>(book: &mut B) -> Result<(), Fail> {
    for k in 0..8u8 {
        check_eq(book.set(2 * k, None), Ok(()))?;
        check_eq(book.set(2 * k + 1, Some(0)), Ok(()))?;
    }
    for k in 0..8u8 {
        check_eq(book.look(2 * k), Ok(None))?;
        check_eq(book.look(2 * k + 1), Ok(Some(0)))?;
    }
    Ok(())
}

fn drive<B: FactBook>(book: &mut B) -> Result<(), Fail> {
    fill(book)?;
    thin_out(book)?;
    for attribute in [16, 255] {
        check_eq(book.look(attribute), Err(Refusal::NoSuchAttribute))?;
        check_eq(book.set(attribute, Some(1)), Err(Refusal::NoSuchAttribute))?;
        check_eq(book.value(attribute), None)?;
    }
    check_eq(book.look(15), Ok(Some(0)))
}

#[test]
fn table() -> Result<(), Fail> {
    drive(&mut Table::new())
}

#[test]
fn packed_record() -> Result<(), Fail> {
    drive(&mut PackedRecord::new())
}

#[test]
fn numbers(rt: HostRuntime) {
    assert_eq!(rt; Refusal::NoSuchAttribute.number(), 44);
    assert_eq!(rt; Refusal::WrongLength.number(), 45);
    assert_eq!(rt; Refusal::BufferTooShort.number(), 46);
}
