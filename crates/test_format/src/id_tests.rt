//! Ids and their text.

use eden_ids::{HexFault, Id};
use std::alloc::Global;
use std::test::Fail;

/// The digits of the empty blob's id.
const EMPTY_BLOB: &[u8] = b"e69de29bb2d1d6434b8b29ae775ad8c2e48c5391";

#[test]
fn first_digits_and_lengths_of_an_ids_text(rt: HostRuntime) {
    let mut bytes = [0; 20];
    bytes[0] = 0xe6;
    bytes[19] = 0x0f;
    let text = b"e60000000000000000000000000000000000000f";
    assert!(rt; Id::from_hex(text.as_slice()) == Ok(Id(bytes)));
    assert!(rt; Id(bytes).to_hex() == *text);
    assert!(rt; Id::from_hex([b'0'; 40].as_slice()) == Ok(Id::ZERO));
    let long = [b'0'; 81];
    for length in 0..82usize {
        if length != 40 {
            assert!(rt;
                Id::from_hex(&long[..length]) == Err(HexFault::WrongLength),
                "at {length}"
            );
        }
    }
    // The length is looked at before the digits.
    assert!(rt; Id::from_hex(b"G".as_slice()) == Err(HexFault::WrongLength));
}

/// The digits that an id's text may have.
const DIGITS: &[u8] = b"0123456789abcdef";

/// The text of an id with another byte at a place of it.
fn with_byte(alloc: Global, place: usize, byte: u8) -> Result<Vec<u8>, Fail> {
    let mut text = EMPTY_BLOB.to_vec(alloc)?;
    if let Some(digit) = text.get_mut(place) {
        *digit = byte;
    }
    Ok(text)
}

/// The text of the id that a text is, or why it is none.
fn read_and_told(text: &[u8]) -> Result<[u8; 40], HexFault> {
    Ok(Id::from_hex(text)?.to_hex())
}

#[test]
fn wrong_digits_of_an_ids_text(rt: HostRuntime) -> Result<(), Fail> {
    for byte in 0..=255u8 {
        for place in [0, 1, 20, 38, 39] {
            let text = with_byte(rt.alloc(), place, byte)?;
            match read_and_told(text.as_slice()) {
                Ok(told) => assert!(rt;
                    DIGITS.contains(&byte) && told.as_slice() == text.as_slice(),
                    "at {byte}"
                ),
                Err(fault) => assert!(rt;
                    !DIGITS.contains(&byte) && fault == HexFault::BadDigit,
                    "at {byte}"
                ),
            }
        }
    }
    Ok(())
}
