ghost use Rattle.std.specs.Prelude.{◌≡◌};
ghost use Rattle.text_words.specs.Words.{lower};

/// Whether no byte is a capital letter, which decoding would take.
pub fn is_lower(word: &[u8]) -> bool
    ensures { result ≡ lower word.now }
{
    'bytes: for byte in word {
        if byte.is_ascii_uppercase() {
            return false;
        }
    }
    true
}
