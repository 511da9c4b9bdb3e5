//! Bytes and words in a text.
ghost use Rattle.std.specs.Prelude.{◌≡◌, ◌<◌, ◌==◌, length, IfSome};
ghost use Rattle.std.specs.List.{position};
ghost use Rattle.gixp_remote_rules.specs.IgnoreCase.{is_word};

// The offset of the first such byte.
pub(crate) fn find_byte(text: &[u8], byte: u8) -> Option<usize>
    ensures offset { result ≡ position (λ b. b == byte) text.now }
    ensures within { IfSome result (λ at. at < length text.now) }
{
    text.iter().position(|b| *b == byte)
}

// Whether a text is this word. Case is ignored.
pub(crate) fn is_word(text: &[u8], word: &[u8]) -> bool
    ensures { result ≡ is_word text.now word.now }
{
    text.eq_ignore_ascii_case(word)
}
