ghost use Rattle.std.specs.Prelude.{◌≡◌, ◌+◌, ◌<◌, ◌≤◌, length, IfSome};
ghost use Rattle.std.specs.Option.{option_map};
ghost use Rattle.std.specs.List.{list_all};
ghost use Rattle.mig_base.specs.FuseText as spec;

/// What stands before the first such byte, and behind it.
pub fn cut_at(byte: u8, bytes: &[u8]) -> Option<(&[u8], &[u8])>
    ensures parts { option_map (λ p. (p.0.now, p.1.now)) result ≡ spec.cut_at byte bytes.now }
    ensures lengths { IfSome result (λ p. length p.0.now + 1 + length p.1.now ≡ length bytes.now) }
{
    for (i, b) in bytes.iter().enumerate() {
        if *b == byte {
            return Some((&bytes[..i], &bytes[i + 1..]));
        }
    }
    None
}

/// Whether a byte is a blank: one from 0x00 to 0x20 other than STX and ETX.
pub fn is_blank(byte: u8) -> bool
    ensures { result ≡ spec.is_blank byte }
{
    byte <= 0x20 && byte != 0x02 && byte != 0x03
}

/// Whether a text holds blanks alone.
pub fn all_blank(text: &[u8]) -> bool
    ensures { result ≡ list_all spec.is_blank text.now }
{
    text.iter().all(|byte| is_blank(*byte))
}

/// The text behind the blanks at its front.
pub fn skip_blanks(text: &[u8]) -> &[u8]
    ensures rest { result.now ≡ spec.skip_blanks text.now }
    ensures shorter { length result.now ≤ length text.now }
{
    for (i, byte) in text.iter().enumerate() {
        if !is_blank(*byte) {
            return &text[i..];
        }
    }
    &[]
}
