//! Texts cut at a byte.
ghost use Rattle.std.specs.Prelude.{◌≡◌, ◌==◌, ℕ, IfSome, IfNone, position};
ghost use Rattle.number_text.specs.Parts.{IsCut, IsFreeOf};

/// The first place of the byte.
fn first_place(byte: u8, text: &[u8]) -> Option<usize>
    ensures { result ≡ position (λ b. b == byte) text.now }
{
    text.iter().position(|&b| b == byte)
}

/// What stands before the first place of the byte, and what stands behind it; `None` where it stands nowhere.
pub fn cut_at(byte: u8, text: &[u8]) -> Option<(&[u8], &[u8])>
    ensures some { IfSome result (λ parts. IsCut byte text.now parts.0.now parts.1.now) }
    ensures none { IfNone result (IsFreeOf byte text.now) }
{
    let at = first_place(byte, text)?;
    Some((&text[..at], &text[at + 1..]))
}
