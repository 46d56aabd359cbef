// Numbers in bytes, least byte first, at a place of a lent slice. A byte past its end counts as 0.
#![tactic(auto)]

ghost use Rattle.std.specs.Prelude.{◌≡◌, ◌<◌, get_or};
ghost use Rattle.little_endian.specs.Number.{number, number32_at, farthest};

// The byte at a place.
fn byte_at(bytes: &[u8], at: usize) -> u8
    ensures { result ≡ get_or bytes.now at 0 }
{
    bytes.get(at).copied().unwrap_or(0)
}

// The number of 32 bits at a place.
pub fn number32(bytes: &[u8], at: usize) -> u32
    requires { at < farthest }
    ensures { result ≡ number32_at bytes.now at }
{
    let a = byte_at(bytes, at);
    let b = byte_at(bytes, at + 1);
    let c = byte_at(bytes, at + 2);
    let d = byte_at(bytes, at + 3);
    u32::from_le_bytes([a, b, c, d])
}
