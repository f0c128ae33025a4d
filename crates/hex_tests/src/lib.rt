// Both sides of each rule of hexadecimal text.
#![tactic(auto)]

#[cfg(test)]
mod tests {
    use hex_text::text::{Position, TextError, bytes_of, position_of};

    fn at(line: usize, column: usize) -> Position {
        Position { line, column }
    }

    #[test]
    fn good_texts(rt: HostRuntime) -> Result<(), TextError> {
        let heap = rt.alloc();
        assert_eq!(rt; bytes_of(heap, b"")?.as_slice(), b"".as_slice());
        assert_eq!(rt;
            bytes_of(heap, b"00fF09aA")?.as_slice(),
            [0, 255, 9, 170].as_slice()
        );
        assert_eq!(rt;
            bytes_of(heap, b"01 02\t03\r\n04\n")?.as_slice(),
            [1, 2, 3, 4].as_slice()
        );
        assert_eq!(rt;
            bytes_of(heap, b"# 01 g\n02#03")?.as_slice(),
            [2].as_slice()
        );
        assert_eq!(rt; bytes_of(heap, b"#")?.as_slice(), b"".as_slice());
        Ok(())
    }

    #[test]
    fn bad_texts(rt: HostRuntime) {
        let heap = rt.alloc();
        assert_eq!(rt; bytes_of(heap, b"01 0g"), Err(TextError::Stray(at(1, 5))));
        assert_eq!(rt;
            bytes_of(heap, b"01\r\n  -"),
            Err(TextError::Stray(at(2, 3)))
        );
        assert_eq!(rt;
            bytes_of(heap, b"01 #\n0102 3"),
            Err(TextError::Lone(at(2, 6)))
        );
        assert_eq!(rt; bytes_of(heap, b"0 1"), Err(TextError::Lone(at(1, 1))));
        assert_eq!(rt; bytes_of(heap, b"012#"), Err(TextError::Lone(at(1, 3))));
    }

    #[test]
    fn positions(rt: HostRuntime) {
        assert_eq!(rt; position_of(b"01 #\n 0203", 2), Some(at(2, 4)));
        assert_eq!(rt; position_of(b"01 #\n 0203", 3), None);
    }
}
