//! The places to which pointers alone lead, remembered.
//!
//! `ends` has a number for each of the first places of a message: one more than the place that a
//! run from here reaches by pointers alone, or 0 if unknown. So a long chain of pointers, used by
//! many names, is walked once; with an empty slice, by each name.

ghost use Rattle.std.specs.Prelude.{◌≤◌, ◌<◌, IfSome, IfNone};
ghost use Rattle.dns_message.specs.Shortcuts.{SameRun, IsShortcut, AreShortcuts, LeadsBack};

/// The most octets of a message read without remembering its pointers' targets.
pub(crate) const SMALL: usize = 1024;

/// The number of possible targets of a pointer: an offset has 14 bits.
pub(crate) const PLACES: usize = 16384;

/// The place that a run from `start` reaches by pointers alone. All calls with one `ends` together
/// take a few steps for each place of `ends`.
pub fn resolve(bytes: &[u8], ends: &mut [u16], start: usize) -> usize
    requires { AreShortcuts bytes.now ends.old }
    ensures leads { SameRun bytes.now start result }
    ensures back { result ≤ start }
    ensures ends { LeadsBack bytes.now result → ⊥ }
    ensures known { AreShortcuts bytes.now ends.new }
{
    let end = end_of(bytes, ends, start);
    remember(bytes, ends, start, end);
    end
}

/// The place that a run from `start` reaches by pointers alone.
fn end_of(bytes: &[u8], ends: &[u16], start: usize) -> usize
    requires { AreShortcuts bytes.now ends.now }
    ensures leads { SameRun bytes.now start result }
    ensures back { result ≤ start }
    ensures ends { LeadsBack bytes.now result → ⊥ }
{
    let mut place = start;
    while let Some(next) = next_place(bytes, ends, place) {
        place = next;
    }
    place
}

/// Remembers the end for each place on the way.
fn remember(bytes: &[u8], ends: &mut [u16], start: usize, end: usize)
    requires known { AreShortcuts bytes.now ends.old }
    requires leads { SameRun bytes.now start end }
    ensures { AreShortcuts bytes.now ends.new }
{
    let mut place = start;
    while place > end && place < ends.len() {
        let Some(next) = next_place(bytes, ends, place) else {
            return;
        };
        ends[place] = u16::try_from(end + 1).unwrap_or(0);
        place = next;
    }
}

/// A place before this one from which a run is read alike: the remembered place, otherwise the
/// pointer's target.
fn next_place(bytes: &[u8], ends: &[u16], place: usize) -> Option<usize>
    requires { AreShortcuts bytes.now ends.now }
    ensures leads { IfSome result (λ next. IsShortcut bytes.now place next) }
    ensures none { IfNone result (LeadsBack bytes.now place → ⊥) }
{
    if place < ends.len() && ends[place] > 0 {
        return Some(ends[place] as usize - 1);
    }
    pointer_at(bytes, place)
}

/// The target of the pointer at a place, if there is a pointer with which a run may begin.
#[tactic(auto, using(crate::proofs::names::ShortcutLaws::shortcut_behind))]
fn pointer_at(bytes: &[u8], place: usize) -> Option<usize>
    ensures leads { IfSome result (λ target. IsShortcut bytes.now place target) }
    ensures none { IfNone result (LeadsBack bytes.now place → ⊥) }
{
    if place >= bytes.len() || bytes.len() - place < 2 || bytes[place] < 192 {
        return None;
    }
    let target = (bytes[place] as usize - 192) * 256 + bytes[place + 1] as usize;
    if target < place { Some(target) } else { None }
}
