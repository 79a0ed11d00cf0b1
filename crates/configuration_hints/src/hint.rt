//! Hints, and their texts.

use std::fmt;
use suffix_routes::Position;

/// A hint at what a person may mend. Its text follows the fault's text.
#[derive(Clone, Copy, Debug, PartialEq, Eq)]
pub enum Hint {
    /// A number begins with a zero.
    LeadingZero,
    /// A number has characters that are not digits.
    DigitsAlone,
    /// This character is not ASCII.
    NotAscii(char),
    /// This character of a name is not ASCII.
    NotAsciiName(char),
    /// This character can't be in a name.
    Character(char),
    /// A carriage return has no line feed after it.
    CarriageReturn,
    /// A comment begins in another way.
    Comment,
    /// A boolean is spelled in another way.
    Boolean,
    /// A string has no quotation marks.
    Quotes,
    /// A number has quotation marks.
    NoQuotes,
    /// A number has a unit or quotation marks; the counted thing.
    Counts(&'static str),
    /// The bracket or quotation mark at this position is not closed.
    NotClosed(Position),
    /// A route is no table of an array.
    RouteHeader,
    /// Servers are no array.
    Array,
    /// This key has capital letters.
    SmallLetters(&'static str),
    /// This key is nearly the unknown key.
    Nearly(&'static str),
    /// This key belongs to the document.
    AtTop(&'static str),
    /// This key belongs to `limits`.
    OfLimits(&'static str),
    /// This key belongs to a route.
    OfRoute(&'static str),
    /// An address is of IPv6.
    OnlyIpv4,
    /// A name is given for an address.
    AddressNotName,
    /// A port is missing.
    PortMissing,
    /// A port follows another character than a colon.
    PortAfterColon,
    /// An address and its port have a scheme, brackets, words or several colons.
    AddressAlone,
    /// The port or the name belongs to TLS.
    NotEncrypted,
    /// An interface follows an address.
    NoInterface,
    /// Several servers are in one string.
    OneServer,
    /// Several addresses to listen at are in one string.
    OneAddress,
    /// All addresses to listen at are spelled in another way.
    AllAddresses,
    /// A domain and its servers are in one string.
    RouteParts,
    /// A suffix begins with a dot, or with `*`.
    SuffixAlone,
    /// A suffix is a network.
    Network,
    /// This character of a name can't be seen.
    Unseen(char),
    /// This letter of a name is of this script, next to Latin letters in its label.
    OtherScript(char, &'static str),
}

impl fmt::Display for Hint {
    fn fmt<W: fmt::Write>(&self, f: &mut fmt::Formatter<W>) -> fmt::Result {
        match self {
            Hint::NotAscii(character) => write!(
                f,
                "{character:?} (U+{:04X}) is not ASCII",
                u32::from(*character)
            ),
            Hint::NotAsciiName(character) => write!(
                f,
                "{character:?} is not ASCII: write the label in its form that begins with `xn--`"
            ),
            Hint::Character(character) => write!(f, "{character:?} can't be in it"),
            Hint::Unseen(character) => write!(
                f,
                "U+{:04X} can't be seen: type the name again",
                u32::from(*character)
            ),
            Hint::OtherScript(letter, script) => write!(
                f,
                "{letter:?} (U+{:04X}) is {script} among Latin letters: type the name again",
                u32::from(*letter)
            ),
            Hint::NotClosed(position) => write!(f, "what {position} opens is not closed"),
            Hint::SmallLetters(key) => write!(f, "keys are in small letters: `{key}`"),
            Hint::Nearly(key) => write!(f, "did you mean `{key}`?"),
            Hint::AtTop(key) => write!(f, "`{key}` belongs above the first line in brackets"),
            Hint::OfLimits(key) => write!(f, "`{key}` is a key of `[limits]`"),
            Hint::OfRoute(key) => write!(f, "`{key}` is a key of `[[route]]`"),
            Hint::Counts(what) => write!(
                f,
                "digits alone, without quotation marks: it counts {what}"
            ),
            _ => f.write_str(self.words()),
        }
    }
}

impl Hint {
    /// The text of a hint without a quotation from the configuration.
    fn words(&self) -> &'static str {
        match self {
            Hint::LeadingZero => "numbers are written without leading zeros",
            Hint::DigitsAlone => "a number has digits alone",
            Hint::CarriageReturn => "a carriage return has no line feed after it",
            Hint::Comment => "a comment begins with `#`",
            Hint::Boolean => "a boolean is `true` or `false`, in small letters",
            Hint::Quotes => "a string is between quotation marks",
            Hint::NoQuotes => "it is written without quotation marks",
            Hint::RouteHeader => "each route begins with `[[route]]`",
            Hint::Array => "write `[\"ADDRESS:PORT\"]`, also for one server",
            Hint::OnlyIpv4 => "only addresses of IPv4 can be given",
            Hint::AddressNotName => "an address is wanted, no name",
            Hint::PortMissing => "the port is missing, as in `192.0.2.1:53`",
            Hint::PortAfterColon => "the port follows a colon, as in `192.0.2.1:53`",
            Hint::AddressAlone => "an address, a colon and a port alone, as in `192.0.2.1:53`",
            Hint::NotEncrypted => "the port follows a colon, and nothing is encrypted",
            Hint::NoInterface => "no interface can be given",
            Hint::OneServer => "each server is a string of its own",
            Hint::OneAddress => "only one address can be given",
            Hint::AllAddresses => "all addresses are `0.0.0.0`, as in `0.0.0.0:53`",
            Hint::RouteParts => "a domain is the `suffix` of a route, its servers are in `servers`",
            Hint::Network =>
                "a network is written as names, each of 8, 16 or 24 bits: `16.172.in-addr.arpa` is 172.16.0.0/16",
            Hint::SuffixAlone =>
                "a suffix is for all names below it: leave out what is before its first label",
            _ => "",
        }
    }
}
