//! A written message is read back: a law over writing and reading.

ghost use Rattle.std.specs.Prelude.{◌≡◌, ◌≤◌, Ok, length};
ghost use Rattle.dns_message.specs.Values as values;
ghost use Rattle.dns_message.specs.Messages.{HasShapes, message_of};
ghost use Rattle.dns_message.specs.Writing.{written};
ghost use Rattle.dns_message.specs.Written.{IsMessage, IsCounted};

/// The written octets of a message are read as the message, if its header counts its lists, the
/// data of its records has their shapes, and the octets are not longer than a message can be. So no
/// two such messages have equal texts.
pub fn what_is_written_is_read_back()
    ensures back { (message : values.Message) → IsMessage message → IsCounted message → HasShapes message
        → length (written message) ≤ 65535 → message_of (written message) ≡ Ok message }
    ensures one { (first second : values.Message) → IsMessage first → IsCounted first → HasShapes first
        → length (written first) ≤ 65535
        → IsMessage second → IsCounted second → HasShapes second → length (written second) ≤ 65535
        → written first ≡ written second → first ≡ second }
{}
