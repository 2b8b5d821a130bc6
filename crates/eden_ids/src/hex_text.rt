//! Ids as forty hexadecimal digits, and back.

ghost use Rattle.std.specs.Prelude.{◌≡◌};
ghost use Rattle.std.specs.List.{list_all};
ghost use Rattle.eden_ids.specs.Hex.{is_lower_digit, id_of_hex, TextIsReadBack, TextIsTheOnlyOne};
ghost use Rattle.hex.specs.Hex.{encode_lower};

use crate::id::Id;
use hex::FromHex;
use thiserror::Error;

/// Why bytes do not spell an id. The first cause in this order is reported.
#[derive(Clone, Copy, Debug, PartialEq, Eq, Error)]
pub enum HexFault {
    /// The length is not 40 bytes.
    #[error("WrongLength")]
    WrongLength,
    /// A byte is not a lowercase hexadecimal digit.
    ///
    /// Capital letters are refused too.
    #[error("BadDigit")]
    BadDigit,
}

/// Returns true if a byte is a lower-case hex digit.
fn is_lower_digit(byte: &u8) -> bool
    ensures { result ≡ is_lower_digit byte.now }
{
    byte.is_ascii_digit() || (b'a' <= *byte && *byte <= b'f')
}

/// Returns true if each byte is a lower-case hex digit.
fn has_lower_digits_alone(text: &[u8]) -> bool
    ensures { result ≡ list_all is_lower_digit text.now }
{
    text.iter().all(is_lower_digit)
}

impl Id {
    /// Reads an id from its 40 lowercase hexadecimal digits.
    ///
    /// The first two digits spell the first byte. Does not allocate.
    ///
    /// # Errors
    ///
    /// The first of these that applies:
    ///
    /// - `WrongLength` if there are not exactly 40 bytes.
    /// - `BadDigit` if a byte is not a lowercase hexadecimal digit.
    #[tactic(auto, using(crate::proofs::HexTexts::reads, crate::proofs::HexTexts::no_other_fault))]
    pub fn from_hex(text: &[u8]) -> Result<Id, HexFault>
        ensures { result ≡ id_of_hex text.now }
    {
        if text.len() != 40 {
            return Err(HexFault::WrongLength);
        }
        if !has_lower_digits_alone(text) {
            return Err(HexFault::BadDigit);
        }
        match <[u8; 20] as FromHex>::from_hex(text) {
            Ok(bytes) => Ok(Id(bytes)),
            Err(_) => Err(HexFault::BadDigit),
        }
    }

    /// Returns the id's 40 lowercase hexadecimal digits. Does not allocate.
    pub fn to_hex(self) -> [u8; 40]
        ensures { result ≡ encode_lower self.0 }
    {
        let mut text = [0; 40];
        let _ = hex::encode_to_slice(self.0.as_slice(), text.as_mut_slice());
        text
    }
}

/// States that `from_hex` reads back the text that `to_hex` returns.
#[tactic(auto, using(crate::proofs::HexTexts::text_is_read_back))]
pub fn hex_law()
    ensures { TextIsReadBack }
{}

/// States that `from_hex` reads an id from one text alone: that of `to_hex`.
#[tactic(auto, using(crate::proofs::HexTexts::text_is_the_only_one))]
pub fn hex_text_law()
    ensures { TextIsTheOnlyOne }
{}
