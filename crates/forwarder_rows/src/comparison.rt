//! Two texts, compared by lines.

ghost use Rattle.std.specs.Prelude.{◌≡◌, ◌↔◌, IsNone, IfSome};
ghost use Rattle.forwarder_rows.specs.Lines.{line_feeds_before};

/// The first different line of the texts, from 0; `None` if they are equal.
pub fn differing_line(expected: &[u8], printed: &[u8]) -> Option<usize>
    ensures equal { IsNone result ↔ (expected.now ≡ printed.now) }
    ensures line { IfSome result (λ line. line ≡ line_feeds_before expected.now printed.now) }
{
    if expected == printed {
        return None;
    }
    let mut line = 0;
    let mut given = printed;
    let mut wanted = expected;
    while let Some((octet, wanted_rest)) = wanted.split_first() {
        let Some((other, given_rest)) = given.split_first() else {
            return Some(line);
        };
        if octet != other {
            return Some(line);
        }
        if *octet == b'\n' {
            line += 1;
        }
        wanted = wanted_rest;
        given = given_rest;
    }
    Some(line)
}
