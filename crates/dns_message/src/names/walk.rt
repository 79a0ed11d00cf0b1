//! A name in a message, label by label.

ghost use Rattle.std.specs.Prelude.{◌≡◌, ◌≤◌, ◌+◌, length, take, drop, IfOk, Err, None};
ghost use Rattle.dns_message.specs.declared.names.fault.Fault.TheVariants.{Memory};
ghost use Rattle.dns_message.specs.Shortcuts.{AreShortcuts};
ghost use Rattle.dns_message.specs.Names.{whole, inside, skipped, after_labels, step, Stays, Resumes, resume};
ghost use Rattle.dns_message.specs.Names.{name_within};

use crate::names::fault::Fault;
use crate::names::shortcuts::resolve;

/// The bound before which a run of labels must end, in octets from the front of the message. A run
/// is consecutive labels of a name, with the zero octet or the pointer at their end (RFC 1035
/// 4.1.4).
#[derive(Clone, Copy)]
pub struct Bound {
    /// No octet of the run is here or later.
    pub stop: usize,
    /// The fault of a run with an octet at or after `stop`.
    pub beyond: Fault,
}

impl Bound {
    /// The end of the message; an octet beyond is `Short`.
    pub fn whole(bytes: &[u8]) -> Bound
        ensures { result ≡ whole bytes.now }
    {
        Bound {
            stop: bytes.len(),
            beyond: Fault::Short,
        }
    }

    /// The end of a record's data; an octet beyond is `Rdata`, even within the message.
    pub fn data(stop: usize) -> Bound
        ensures { result ≡ inside stop }
    {
        Bound {
            stop,
            beyond: Fault::Rdata,
        }
    }

    /// The place after `count` octets, none of which may be at the bound or beyond it.
    pub(crate) fn skip(self, offset: usize, count: usize) -> Result<usize, Fault>
        ensures { result ≡ skipped self offset count }
    {
        if offset > self.stop || self.stop - offset < count {
            return Err(self.beyond);
        }
        Ok(offset + count)
    }
}

/// The item at a place of a name.
#[derive(Clone, Copy)]
pub(crate) enum NameOctet {
    /// The name ends.
    End,
    /// A label of this many octets.
    Label(usize),
    /// A pointer to a place before the run.
    Pointer(usize),
}

/// The state of reading a name: a cursor, in octets from the front of the message.
#[derive(Clone, Copy)]
pub(crate) struct NameCursor {
    /// The place to read next.
    pub offset: usize,
    /// The first place of the present run of labels.
    pub run: usize,
    /// The octets of the labels so far, with their lengths.
    pub used: usize,
    /// The bound before which the present run must end.
    pub bound: Bound,
    /// The end of the name in the octets, once a pointer was followed.
    pub end: Option<usize>,
}

impl NameCursor {
    /// The beginning of the name at a place. Nothing is read yet.
    #[tactic(auto, unfolding(crate::specs::Names::resume, crate::specs::Names::name_within))]
    pub fn new(bytes: &[u8], bound: Bound, offset: usize) -> NameCursor
        ensures used { result.used ≡ 0 }
        ensures bound { result.bound ≡ bound }
        ensures end { result.end ≡ None }
        ensures start { resume bytes.now result ≡ name_within bytes.now bound offset }
    {
        NameCursor {
            bound,
            ..NameCursor::after(bytes, offset, 0)
        }
    }

    /// The beginning of a pointer's target name, after labels of `used` octets.
    pub(crate) fn after(bytes: &[u8], offset: usize, used: usize) -> NameCursor
        ensures { result ≡ after_labels bytes.now offset used }
    {
        NameCursor {
            offset,
            run: offset,
            used,
            bound: Bound::whole(bytes),
            end: None,
        }
    }
}

/// The next part of a name.
pub(crate) enum NextLabel<'a> {
    /// A label of 1 to 63 octets without its length, and the cursor after it.
    Label(&'a [u8], NameCursor),
    /// The name ends, and its own octets end before this place.
    End(usize),
}

/// The `len` octets from `start` on, if they are there.
pub(crate) fn part(bytes: &[u8], start: usize, len: usize) -> &[u8]
    requires { start + len ≤ length bytes.now }
    ensures { result.now ≡ take len (drop start bytes.now) }
{
    let (_, rest) = bytes.split_at(start);
    let (part, _) = rest.split_at(len);
    part
}

/// The item at the next place (RFC 1035 4.1.4). The order of the tests is the order of the faults.
#[tactic(auto, unfolding(crate::specs::Names::step))]
pub(crate) fn step_at(bytes: &[u8], walk: NameCursor) -> Result<NameOctet, Fault>
    requires used { walk.used ≤ 254 }
    requires stop { walk.bound.stop ≤ length bytes.now }
    ensures exact { result ≡ step bytes.now walk.bound walk.offset walk.run walk.used }
    ensures stays { IfOk result (Stays bytes.now walk.bound walk.offset walk.run walk.used) }
    ensures memory { result ≡ Err Memory → walk.bound.beyond ≡ Memory }
{
    let at = walk.offset;
    let Bound { stop, beyond } = walk.bound;
    if at >= stop {
        return Err(beyond);
    }
    let first = bytes[at] as usize;
    if first == 0 {
        return Ok(NameOctet::End);
    }
    if first < 64 {
        if stop - at - 1 < first {
            return Err(beyond);
        }
        if walk.used + first > 253 {
            return Err(Fault::NameLong);
        }
        return Ok(NameOctet::Label(first));
    }
    if first < 192 {
        return Err(Fault::LabelForm);
    }
    if stop - at < 2 {
        return Err(beyond);
    }
    let target = (first - 192) * 256 + bytes[at + 1] as usize;
    if target < walk.run {
        Ok(NameOctet::Pointer(target))
    } else {
        Err(Fault::Pointer)
    }
}

/// The next label of a name, pointers followed; their targets are remembered in `ends`, which may
/// be empty. Does not allocate.
///
/// The fault is the first from the cursor on (RFC 1035 4.1.4): `Short` or `Rdata` for an octet
/// beyond the bound, `NameLong` for a name of more than 255 octets, `LabelForm` for an octet that
/// begins neither a label nor a pointer, `Pointer` for a pointer that does not lead to a place
/// before its own run.
pub(crate) fn next_label<'a>(
    bytes: &'a [u8],
    ends: &mut [u16],
    walk: NameCursor,
) -> Result<NextLabel<'a>, Fault>
    requires used { walk.used ≤ 254 }
    requires stop { walk.bound.stop ≤ length bytes.now }
    requires known { AreShortcuts bytes.now ends.old }
    ensures resumes { Resumes bytes.now walk result }
    ensures known { AreShortcuts bytes.now ends.new }
{
    let mut walk = walk;
    loop {
        match step_at(bytes, walk)? {
            NameOctet::End => return Ok(NextLabel::End(walk.end.unwrap_or(walk.offset + 1))),
            NameOctet::Label(len) => {
                let label = part(bytes, walk.offset + 1, len);
                let after = NameCursor {
                    offset: walk.offset + 1 + len,
                    used: walk.used + len + 1,
                    ..walk
                };
                return Ok(NextLabel::Label(label, after));
            }
            NameOctet::Pointer(target) => {
                let start = resolve(bytes, ends, target);
                walk = NameCursor {
                    offset: start,
                    run: start,
                    used: walk.used,
                    bound: Bound::whole(bytes),
                    end: Some(walk.end.unwrap_or(walk.offset + 2)),
                };
            }
        }
    }
}
