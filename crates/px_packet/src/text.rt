//! A key as it is in a file.

ghost use Rattle.std.specs.Prelude.{◌≡◌, ◌↔◌, Ok, IsSome, IsOk, IfSome};
ghost use Rattle.hex.specs.Hex.{decode_sized};
ghost use Rattle.px_packet.specs.Texts.{line};

/// The text without a newline at its end.
fn line(text: &[u8]) -> &[u8]
    ensures { result.now ≡ line text.now }
{
    match text {
        [front @ .., b'\n'] => front,
        _ => text,
    }
}

/// The key of 64 hexadecimal digits, which a newline may follow; none for every other text.
pub fn parse_key(text: &[u8]) -> Option<[u8; 32]>
    ensures key { IfSome result (λ k. decode_sized (line text.now) 32 ≡ Ok k) }
    ensures some { IsSome result ↔ IsOk (decode_sized (line text.now) 32) }
{
    let mut key = [0u8; 32];
    hex::decode_to_slice(line(text), &mut key).ok()?;
    Some(key)
}
