//! A written message is read back, and a message read can be written: laws about the definitions in
//! the contracts.

ghost use Rattle.std.specs.Prelude.{List, ℕ};
ghost use Rattle.dns_name.specs.PlainValues.Octets.{AreOctets};
ghost use Rattle.dns_message.specs.Messages.{Spells};
ghost use Rattle.dns_message.specs.Values as values;
ghost use Rattle.dns_message.specs.Written.{IsMessage, IsSpelledBack};

/// The octets of a message spell the message, if its header counts its lists, the data of its
/// records has their shapes, and the octets are not longer than a message can be: a message read
/// back is the written message.
pub fn what_is_written_is_spelled()
    ensures { (message : values.Message) → IsMessage message → IsSpelledBack message }
{}

/// The names of a message read from octets are names, and its numbers fit their fields: so the
/// message can be written.
pub fn what_is_read_can_be_written()
    ensures { (bytes : List ℕ) (message : values.Message) → AreOctets bytes → Spells bytes message → IsMessage message }
{}
