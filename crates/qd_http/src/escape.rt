//! Texts in JSON.
ghost use Rattle.std.specs.Prelude.{◌≡◌, ◌<◌, ◌++◌, false, IsTrue, OnOk};
ghost use Rattle.std.specs.Fmt.{digit_glyph};
ghost use Rattle.qd_http.specs.Json.{escaped, json_text, needs_escape};

use qd_base::Memory;

/// Appends a text as a string of JSON: in quotes, with a backslash before a quote and before a backslash, and with the
/// code of each byte below 32. Other bytes stand. It takes time linear in the text.
pub(crate) fn push_text(out: &mut Vec<u8>, text: &[u8]) -> Result<(), Memory>
    ensures { OnOk result (out.new.items ≡ out.old.items ++ json_text text.now) }
{
    out.push(b'"')?;
    // What lies before `start` is written.
    let mut start = 0;
    for (i, byte) in text.iter().enumerate() {
        if is_escaped(*byte) {
            out.extend_from_slice(&text[start..i])?;
            push_escape(out, *byte)?;
            start = i + 1;
        }
    }
    out.extend_from_slice(&text[start..])?;
    out.push(b'"')?;
    Ok(())
}

// Says whether a byte does not stand in a string by itself.
fn is_escaped(byte: u8) -> bool
    ensures { result ≡ needs_escape byte }
{
    byte < 32 || byte == b'"' || byte == b'\\'
}

// Appends a byte that does not stand in a string by itself.
fn push_escape(out: &mut Vec<u8>, byte: u8) -> Result<(), Memory>
    requires { IsTrue (needs_escape byte) }
    ensures { OnOk result (out.new.items ≡ out.old.items ++ escaped byte) }
{
    if byte < 32 {
        out.extend_from_slice(b"\\u00")?;
        out.push(hex_digit(byte / 16))?;
        out.push(hex_digit(byte % 16))?;
    } else {
        out.push(b'\\')?;
        out.push(byte)?;
    }
    Ok(())
}

// A hexadecimal digit in lower case.
fn hex_digit(n: u8) -> u8
    requires { n < 16 }
    ensures { result ≡ digit_glyph false n }
{
    if n < 10 { b'0' + n } else { b'a' + (n - 10) }
}
