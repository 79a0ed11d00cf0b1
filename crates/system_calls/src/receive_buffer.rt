//! A wider receive buffer.

ghost use Rattle.std.specs.Prelude.{◌≡◌, ◌++◌, ◌^◌, replicate};
ghost use Rattle.std.specs.Int.{to_le_bytes, w32};

/// The octets that are asked for: room for some thousands of questions.
const ROOM: i32 = 1 << 20;

/// The value of the option: its first four octets are the asked size, in the machine's byte order.
pub(crate) fn room_asked() -> [u8; 16]
    ensures { result ≡ to_le_bytes w32 (2 ^ 20) ++ replicate 12 0 }
{
    let mut value = [0u8; 16];
    value[..4].copy_from_slice(&ROOM.to_ne_bytes());
    value
}
