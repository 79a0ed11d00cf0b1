//! The open brackets and quotation marks at a place of a text of TOML.

/// The most nested brackets with a stored place; deeper brackets are only counted.
const DEEPEST: usize = 16;

/// The brackets, string or comment open after the octets so far.
#[derive(Drop)]
struct Opened {
    /// The places of the open brackets.
    brackets: [usize; DEEPEST],
    depth: usize,
    /// The open quotation mark and its place.
    quote: Option<(u8, usize)>,
    is_escaped: bool,
    is_comment: bool,
}

/// The place of the quotation mark or the innermost bracket open after these octets, and true for a
/// quotation mark. `None` if nothing is open.
pub(crate) fn open_after(octets: &[u8]) -> Option<(usize, bool)> {
    let mut opened = Opened {
        brackets: [0; DEEPEST],
        depth: 0,
        quote: None,
        is_escaped: false,
        is_comment: false,
    };
    for (place, octet) in octets.iter().enumerate() {
        opened.read(*octet, place);
    }
    opened.innermost()
}

impl Opened {
    fn read(&mut self, octet: u8, place: usize) {
        if self.is_comment {
            self.is_comment = octet != b'\n';
        } else if let Some((quote, _)) = self.quote {
            self.read_string(octet, quote);
        } else {
            self.read_bare(octet, place);
        }
    }

    /// Reads an octet in a string.
    fn read_string(&mut self, octet: u8, quote: u8) {
        if self.is_escaped {
            self.is_escaped = false;
        } else if octet == b'\\' && quote == b'"' {
            self.is_escaped = true;
        } else if octet == quote {
            self.quote = None;
        }
    }

    /// Reads an octet outside strings and comments.
    fn read_bare(&mut self, octet: u8, place: usize) {
        match octet {
            b'#' => self.is_comment = true,
            b'"' | b'\'' => self.quote = Some((octet, place)),
            b'[' | b'{' => {
                if let Some(bracket) = self.brackets.get_mut(self.depth) {
                    *bracket = place;
                }
                self.depth = self.depth.saturating_add(1);
            }
            b']' | b'}' => self.depth = self.depth.saturating_sub(1),
            _ => {}
        }
    }

    fn innermost(&self) -> Option<(usize, bool)> {
        if let Some((_, place)) = self.quote {
            return Some((place, true));
        }
        let last = self.depth.checked_sub(1)?;
        let place = self.brackets.get(last)?;
        Some((*place, false))
    }
}
