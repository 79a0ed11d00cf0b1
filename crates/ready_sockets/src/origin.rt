//! The sockets of a wire by their tokens.

ghost use Rattle.std.specs.Prelude.{◌≡◌, ◌+◌, ◌*◌, ◌%◌, ◌<◌, ◌^◌, None, Some};
ghost use Rattle.ready_sockets.specs.declared.origin.Origin.{Origin};
ghost use Rattle.ready_sockets.specs.Tokens.{HasToken, token_of};

use mio::Token;

/// How many numbers of connections have a token of their own.
const NUMBERS: u64 = 1 << 61;

/// A socket of the wire.
#[derive(Clone, Copy, PartialEq, Eq, Debug)]
pub enum Origin {
    /// The socket for datagrams of clients.
    Datagrams,
    /// The listener for connections of clients.
    Connections,
    /// The connection of a client with this number.
    Client(u64),
    /// The socket of an ask, by its port.
    Ask(u16),
    /// The connection of an ask with this number.
    Server(u64),
}

impl Origin {
    /// The token for the system's reports about the socket. A connection with a number of 2^61 or
    /// more shares the token of an earlier one.
    pub fn token(self) -> Token
        ensures { result.0 ≡ token_of self }
    {
        Token(match self {
            Origin::Datagrams => numbered(0, 0),
            Origin::Connections => numbered(1, 0),
            Origin::Client(conn) => numbered(2, conn),
            Origin::Ask(port) => numbered(3, u64::from(port)),
            Origin::Server(conn) => numbered(4, conn),
        })
    }

    /// The socket with this token; `None` for a token of no kind of socket.
    pub fn of(token: Token) -> Option<Origin>
        ensures some { (origin : Origin) → HasToken origin → token_of origin ≡ token.0
            → result ≡ Some origin }
        ensures none { 4 < token.0 % 8 → result ≡ None }
    {
        let number = (token.0 / 8) as u64;
        match token.0 % 8 {
            0 => Some(Origin::Datagrams),
            1 => Some(Origin::Connections),
            2 => Some(Origin::Client(number)),
            3 => u16::try_from(number).ok().map(Origin::Ask),
            4 => Some(Origin::Server(number)),
            _ => None,
        }
    }
}

/// The number of a socket of this kind, below 8.
fn numbered(kind: usize, number: u64) -> usize
    requires { kind < 8 }
    ensures { result ≡ number % 2 ^ 61 * 8 + kind }
{
    (number % NUMBERS) as usize * 8 + kind
}
