//! Verdicts on octets as the reply to an ask.

ghost use Rattle.std.specs.Prelude.{◌≡◌};
ghost use Rattle.reply_match.specs.Judged.{verdict_of};

use dns_message::MessageRef;

/// The verdict on octets as the reply to an ask: the first that holds.
#[derive(Clone, Copy, Debug, PartialEq, Eq)]
pub enum Verdict {
    /// No reply to the ask (RFC 5452 9.1): under 12 or over 65,535 octets, QR clear, an opcode
    /// other than 0, a wrong identifier, source address or port, a QDCOUNT other than 1, or a
    /// question that is unreadable or not equal to the ask's question.
    Stranger,
    /// TC is set: the server had more to say (RFC 1035 4.1.1).
    Truncated,
    /// The RCODE is this one, neither 0 (NOERROR) nor 3 (NXDOMAIN).
    Failed(u8),
    /// The message is not readable whole: counted records are missing or malformed.
    Malformed,
    /// Header, counted questions and counted records can be read.
    Whole,
}

/// The verdict on octets, with the view of a whole message, made while judging.
#[derive(Drop)]
pub enum Judged<'a> {
    /// As [`Verdict::Stranger`].
    Stranger,
    /// As [`Verdict::Truncated`].
    Truncated,
    /// As [`Verdict::Failed`].
    Failed(u8),
    /// As [`Verdict::Malformed`].
    Malformed,
    /// As [`Verdict::Whole`]; the octets, viewed.
    Whole(MessageRef<'a>),
}

impl Judged<'_> {
    /// The verdict alone.
    pub fn verdict(&self) -> Verdict
        ensures { result ≡ verdict_of self.now }
    {
        match self {
            Judged::Stranger => Verdict::Stranger,
            Judged::Truncated => Verdict::Truncated,
            Judged::Failed(rcode) => Verdict::Failed(*rcode),
            Judged::Malformed => Verdict::Malformed,
            Judged::Whole(_) => Verdict::Whole,
        }
    }
}
