//! Lines of commented hexadecimal.
use hex::{FromHex, FromHexError};
use std::alloc::AllocError;
use thiserror::Error;

/// Why a line gives no bytes.
#[derive(Debug, Drop, Error)]
pub enum Fault {
    #[error("not hexadecimal")]
    NotHexadecimal(#[from] FromHexError),
    #[error(transparent)]
    NoMemory(#[from(alloc)] AllocError),
}

/// Appends the bytes of a line up to its comment. Of a line that is not hexadecimal, what stands before the fault is
/// appended.
pub fn decode(line: &[u8], bytes: &mut Vec<u8>) -> Result<(), Fault> {
    let mut rest = line;
    loop {
        rest = match rest {
            [] | [b'#', ..] => return Ok(()),
            [b' ' | b'\t' | b'\r', after @ ..] => after,
            [high, low, after @ ..] => {
                let [byte] = <[u8; 1]>::from_hex([*high, *low])?;
                bytes.push(byte)?;
                after
            }
            [_] => return Err(FromHexError::OddLength.into()),
        };
    }
}
