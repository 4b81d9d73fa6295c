//! The first bytes of a version file.
ghost use Rattle.std.specs.Int.{to_le_bytes, w64};
ghost use Rattle.std.specs.Prelude.{◌≡◌, ◌∷◌, ◌++◌};

/// The gate of a file that holds a version.
pub(crate) const OPEN: u8 = 1;

/// The gate of a file that holds none, or one that isn't to count yet.
pub(crate) const CLOSED: u8 = 0;

/// How many bytes stand before the manifest: the gate, the number and the length.
pub(crate) const HEAD: usize = 17;

/// What stands before a manifest of so many bytes in a file whose gate is open.
pub(crate) fn head_of(n: u64, size: u64) -> [u8; HEAD]
    ensures bytes { result ≡ 1 ∷ (to_le_bytes w64 n ++ to_le_bytes w64 size) }
{
    let mut head = [OPEN; HEAD];
    head[1..9].copy_from_slice(&n.to_le_bytes());
    head[9..].copy_from_slice(&size.to_le_bytes());
    head
}
