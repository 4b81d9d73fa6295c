//! Bytes as the characters of a line, and back: `\n` is a line feed, `\\` a backslash, and any other byte outside ASCII's printed
//! characters is `\x` and two digits.
use std::alloc::{AllocError, Global};

/// Adds bytes as the characters that stand for them.
pub fn push_shown(out: &mut String, bytes: &[u8]) -> Result<(), AllocError> {
    for byte in bytes {
        match byte {
            b'\n' => out.push_str("\\n")?,
            b'\\' => out.push_str("\\\\")?,
            b' '..=b'~' => out.push(char::from(*byte))?,
            _ => write!(out, "\\x{byte:02x}")?,
        }
    }
    Ok(())
}

/// Adds bytes as two digits each.
pub fn push_digits(out: &mut String, bytes: &[u8]) -> Result<(), AllocError> {
    for byte in bytes {
        write!(out, "{byte:02x}")?;
    }
    Ok(())
}

/// The bytes that characters stand for: a backslash before any other one than `n` and a backslash stays.
pub fn bytes_of(alloc: Global, text: &[u8]) -> Result<Vec<u8>, AllocError> {
    let mut bytes = Vec::new(alloc);
    let mut escaped = false;
    for byte in text {
        if escaped {
            push_escaped(&mut bytes, *byte)?;
            escaped = false;
        } else if *byte == b'\\' {
            escaped = true;
        } else {
            bytes.push(*byte)?;
        }
    }
    Ok(bytes)
}

/// Adds what a backslash and the character behind it stand for.
fn push_escaped(bytes: &mut Vec<u8>, byte: u8) -> Result<(), AllocError> {
    match byte {
        b'n' => bytes.push(b'\n')?,
        b'\\' => bytes.push(b'\\')?,
        _ => {
            bytes.push(b'\\')?;
            bytes.push(byte)?;
        }
    }
    Ok(())
}
