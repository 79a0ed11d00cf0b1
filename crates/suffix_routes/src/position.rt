//! A position in a text, as shown to a person.

ghost use Rattle.std.specs.Prelude.{◌≡◌};
ghost use Rattle.suffix_routes.specs.Positions.{begins_character, position_of};

use std::fmt;

/// A line and a column of a text, both counted from 1; a column counts characters.
#[derive(Clone, Copy, Debug, PartialEq, Eq)]
pub struct Position {
    /// The line; a line feed ends a line.
    pub line: usize,
    /// The column in the line.
    pub column: usize,
}

impl Position {
    /// The position after these octets of UTF-8.
    pub fn after(octets: &[u8]) -> Position
        ensures { result ≡ position_of octets.now }
    {
        let mut line = 1;
        let mut column = 1;
        for octet in octets {
            if *octet == b'\n' {
                line += 1;
                column = 1;
            } else if begins_character(*octet) {
                column += 1;
            }
        }
        Position { line, column }
    }
}

/// An octet of UTF-8 is the first of a character (RFC 3629 3).
fn begins_character(octet: u8) -> bool
    ensures { result ≡ begins_character octet }
{
    !(128..=191).contains(&octet)
}

impl fmt::Display for Position {
    fn fmt<W: fmt::Write>(&self, f: &mut fmt::Formatter<W>) -> fmt::Result {
        write!(f, "line {}, column {}", self.line, self.column)
    }
}
