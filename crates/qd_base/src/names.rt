//! Names of tables and columns.
ghost use Rattle.std.specs.Prelude.{◌≡◌, ◌<◌, ◌≤◌, ◌↔◌, length, IsTrue};
ghost use Rattle.std.specs.Str.{str_eq_ignore_ascii_case, IsUtf8};
ghost use Rattle.qd_base.specs.NameIndex.{name_cmp};
ghost use Rattle.qd_base.specs.Names.{is_column_byte, is_table_byte, IsApart, IsColumnName, IsTableName};

use crate::limits::MAX_NAME_BYTES;
use std::cmp::Ordering;

/// Says whether two names are one: ASCII case is ignored. It costs time linear in the shorter name.
pub fn same_name(a: &[u8], b: &[u8]) -> bool
    ensures same { result ≡ str_eq_ignore_ascii_case a.now b.now }
{
    a.eq_ignore_ascii_case(b)
}

/// Says which of two names comes first: byte by byte in lower case, and a name before those that begin with it. It
/// costs time linear in the shorter name.
pub(crate) fn name_order(a: &[u8], b: &[u8]) -> Ordering
    ensures order { result ≡ name_cmp a.now b.now }
{
    let first = a.iter().map(|byte| byte.to_ascii_lowercase());
    first.cmp(b.iter().map(|byte| byte.to_ascii_lowercase()))
}

/// Says whether a column may have this name: 1 to 127 bytes of UTF-8 without control characters and without
/// ``? . , ' " \ / : ( ) + - * % ~``. It costs time linear in the name, and takes no memory.
pub fn column_name_ok(name: &[u8]) -> bool
    ensures ok { IsTrue result ↔ IsColumnName name.now }
{
    is_text_of_name_length(name) && name.iter().all(|byte| column_byte_ok(*byte))
}

/// Says whether a table may have this name: 1 to 127 bytes of UTF-8 without control characters and without
/// ``? , ' " \ / : ( ) + * % ~``, where no dot stands first, last or beside another dot. It costs time linear
/// in the name, and takes no memory.
pub fn table_name_ok(name: &[u8]) -> bool
    ensures ok { IsTrue result ↔ IsTableName name.now }
{
    is_text_of_name_length(name) && name.iter().all(|byte| table_byte_ok(*byte)) && dots_apart(name)
}

fn is_text_of_name_length(name: &[u8]) -> bool
    ensures ok { IsTrue result ↔ ((1 ≤ length name.now) × (length name.now ≤ MAX_NAME_BYTES) × IsUtf8 name.now) }
{
    1 <= name.len() && name.len() <= MAX_NAME_BYTES && std::str::from_utf8(name).is_ok()
}

/// Neither a control character nor a sign that no name has.
fn table_byte_ok(byte: u8) -> bool
    ensures ok { result ≡ is_table_byte byte }
{
    match byte {
        0..=31 | 127 => false,
        b'?' | b',' | b'\'' | b'"' | b'\\' | b'/' | b':' => false,
        b'(' | b')' | b'+' | b'*' | b'%' | b'~' => false,
        _ => true,
    }
}

fn column_byte_ok(byte: u8) -> bool
    ensures ok { result ≡ is_column_byte byte }
{
    byte != b'.' && byte != b'-' && table_byte_ok(byte)
}

/// Whether no dot stands first, last or beside another.
fn dots_apart(name: &[u8]) -> bool
    requires { 1 ≤ length name.now }
    ensures ok { IsTrue result ↔ IsApart name.now }
{
    let mut after_dot = true;
    for byte in name {
        let is_dot = *byte == b'.';
        if is_dot && after_dot {
            return false;
        }
        after_dot = is_dot;
    }
    !after_dot
}
