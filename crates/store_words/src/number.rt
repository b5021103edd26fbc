// Numbers among the words.
ghost use Rattle.std.specs.Prelude.{◌≡◌, IfSome, Some, ℕ};
ghost use Rattle.store_words.specs.Numbers.{IsNumber, IsChannelCount, is_tidy};

/// Whether no sign and no needless zero stands in front.
fn is_tidy(word: &[u8]) -> bool
    ensures { result ≡ is_tidy word.now }
{
    match word {
        [] => true,
        [first] => *first != b'+',
        [first, ..] => *first != b'+' && *first != b'0',
    }
}

/// The number that the word spells, if it is from `least` to `most`.
pub(crate) fn number(word: &str, least: u64, most: u64) -> Option<u64>
    ensures spelled { IfSome result (IsNumber least most word.now) }
    ensures only { (n : ℕ) → IsNumber least most word.now n → result ≡ Some n }
{
    if !is_tidy(word.as_bytes()) {
        return None;
    }
    match word.parse::<u64>() {
        Ok(n) if least <= n && n <= most => Some(n),
        _ => None,
    }
}

/// The count of channels that the word spells.
pub(crate) fn channel_count(word: &str) -> Option<u32>
    ensures spelled { IfSome result (IsChannelCount word.now) }
    ensures only { (n : ℕ) → IsChannelCount word.now n → result ≡ Some n }
{
    match number(word, 1, 64)? {
        1 => Some(1),
        2 => Some(2),
        4 => Some(4),
        8 => Some(8),
        16 => Some(16),
        32 => Some(32),
        64 => Some(64),
        _ => None,
    }
}
