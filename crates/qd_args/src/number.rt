//! Numbers among the words.
ghost use Rattle.std.specs.Prelude.{◌≡◌, ◌^◌, ◌<◌, ◌↔◌, ℕ, decimal, Some};

use itoa::Buffer;

/// The number that a text spells in decimal, without a sign or a leading zero: the one that is printed as the text.
pub(super) fn number_of(text: &str) -> Option<u32>
    ensures some { (n : ℕ) → n < 2 ^ 32 → text.now ≡ decimal n → result ≡ Some n }
    ensures cause { (n : ℕ) → result ≡ Some n → (n < 2 ^ 32) × (text.now ≡ decimal n) }
{
    match text.parse::<u32>() {
        Ok(number) => {
            if Buffer::new().format(number) == text {
                Some(number)
            } else {
                None
            }
        }
        Err(_) => None,
    }
}
