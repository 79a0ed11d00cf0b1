//! The program's arguments, as octets: a file's name need not be text.

use std::env::FillError;
use std::rt::Env;
use std::str;

/// How many octets an argument may have: no path has more.
pub const LONGEST: usize = 4095;

/// The number of arguments counted: one more than any command has.
const MOST_COUNTED: usize = 4;

/// The argument at this place, in this room; the program's own name is at 0. `TooLong` if the
/// argument is longer than the room.
pub fn argument<'a, R: Env>(
    rt: &R,
    place: usize,
    room: &'a mut [u8],
) -> Result<&'a [u8], FillError> {
    let count = rt.arg(place, room)?;
    Ok(&room[..count])
}

/// The argument at this place, if there and text.
pub fn text<'a, R: Env>(rt: &R, place: usize, room: &'a mut [u8]) -> Option<&'a str> {
    let octets = argument(rt, place, room).ok()?;
    str::from_utf8(octets).ok()
}

/// How many arguments there are after the program's own name; four are counted at most.
pub fn count<R: Env>(rt: &R) -> usize {
    for place in 1..=MOST_COUNTED {
        if !is_there(rt, place) {
            return place - 1;
        }
    }
    MOST_COUNTED
}

fn is_there<R: Env>(rt: &R, place: usize) -> bool {
    !matches!(rt.arg(place, &mut []), Err(FillError::NotPresent))
}
