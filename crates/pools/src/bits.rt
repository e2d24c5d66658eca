// The bits of a byte.
ghost use Rattle.std.specs.Prelude.{◌≡◌, ◌/◌, ◌%◌, ◌^◌, ◌<◌, ◌==◌};

// Bit i of a byte, the lowest being bit 0.
pub fn bit(byte: u8, i: usize) -> bool
    requires { i < 8 }
    ensures { result ≡ (byte / 2 ^ i % 2 == 1) }
{
    (byte >> i) % 2 == 1
}
