//! Names in concrete octets (RFC 1035 2.3.4, 3.1), and a fact that no contract can state:
//! allocations succeed if there is memory.

use dns_name::{Name, NameFault, NameKey};
use refusing_allocator::Refusing;
use std::alloc::{AllocError, Allocator, Global};
use std::hash::{BuildHasher, BuildHasherDefault, FoldHasher};
use std::test::Fail;

/// The number of labels of a text's name, or the fault.
fn label_count(heap: Global, text: &str) -> Result<usize, NameFault> {
    Ok(Name::from_text(heap, text)?.labels().count())
}

/// Texts, each with the number of labels or the first fault.
const TEXTS: [(&str, Result<usize, NameFault>); 20] = [
    (".", Ok(0)),
    ("a.example", Ok(2)),
    ("a.example.", Ok(2)),
    ("_dns-1.A0", Ok(2)),
    ("-a.example", Ok(2)),
    ("a-.example", Ok(2)),
    ("0.example", Ok(2)),
    ("_a.example", Ok(2)),
    ("-", Ok(1)),
    ("_", Ok(1)),
    ("9", Ok(1)),
    ("", Err(NameFault::EmptyLabel)),
    ("..", Err(NameFault::EmptyLabel)),
    (".a", Err(NameFault::EmptyLabel)),
    ("a..b", Err(NameFault::EmptyLabel)),
    ("a..", Err(NameFault::EmptyLabel)),
    ("a b", Err(NameFault::BadCharacter)),
    ("\u{e4}", Err(NameFault::BadCharacter)),
    ("a*..b", Err(NameFault::BadCharacter)),
    ("a..b*", Err(NameFault::EmptyLabel)),
];

#[test]
fn texts_and_their_first_fault(rt: HostRuntime) {
    for (text, wanted) in &TEXTS {
        assert_eq!(rt; label_count(rt.alloc(), text), *wanted, "of {text}");
    }
}

/// A text of `labels` labels of `letters` letters, each followed by a dot.
fn text_of(heap: Global, labels: usize, letters: usize) -> Result<String, AllocError> {
    let mut text = String::new(heap);
    for _ in 0..labels {
        for _ in 0..letters {
            text.push('a')?;
        }
        text.push('.')?;
    }
    Ok(text)
}

/// The number of labels, the letters of each label, and the result: the number of labels or the
/// first fault.
const LONGEST: [(usize, usize, Result<usize, NameFault>); 5] = [
    (127, 1, Ok(127)),
    (128, 1, Err(NameFault::NameLong)),
    (1, 63, Ok(1)),
    (1, 64, Err(NameFault::LabelLong)),
    (200, 64, Err(NameFault::LabelLong)),
];

/// The number of labels of the name of a text of `labels` labels.
fn count_of_text(heap: Global, labels: usize, letters: usize) -> Result<usize, NameFault> {
    let text = text_of(heap, labels, letters)?;
    label_count(heap, text.as_str())
}

/// `labels` labels of `letters` letters.
fn parts_of(heap: Global, labels: usize, letters: usize) -> Result<Vec<Vec<u8>>, AllocError> {
    let mut parts = Vec::new(heap);
    for _ in 0..labels {
        parts.push(vec![in heap; b'a'; letters]?)?;
    }
    Ok(parts)
}

/// The number of labels of the name of `labels` labels.
fn count_of_labels(heap: Global, labels: usize, letters: usize) -> Result<usize, NameFault> {
    let parts = parts_of(heap, labels, letters)?;
    Ok(Name::from_labels(heap, parts.as_slice())?.labels().count())
}

#[test]
fn the_longest_labels_and_names(rt: HostRuntime) -> Result<(), Fail> {
    let heap = rt.alloc();
    for (labels, letters, wanted) in &LONGEST {
        assert_eq!(rt;
            count_of_text(heap, *labels, *letters),
            *wanted,
            "{labels} labels"
        );
        assert_eq!(rt;
            count_of_labels(heap, *labels, *letters),
            *wanted,
            "{labels} labels"
        );
    }
    let longest = Name::from_text(heap, text_of(heap, 127, 1)?.as_str())?;
    assert_eq!(rt; longest.octets().len(), 254);
    Ok(())
}

/// The hash of a key.
fn hash_of(key: &NameKey) -> u64 {
    let hasher: BuildHasherDefault<FoldHasher> = BuildHasherDefault::default();
    hasher.hash_one(key)
}

/// Whether the names are the same, their keys equal, and the hashes of the keys equal.
fn sameness(heap: Global, one: &str, other: &str) -> Result<[bool; 3], NameFault> {
    let one = Name::from_text(heap, one)?;
    let other = Name::from_text(heap, other)?;
    Ok([
        one.same(&other),
        one.key() == other.key(),
        hash_of(&one.key()) == hash_of(&other.key()),
    ])
}

/// Pairs of names, and whether they are the same.
const SAME: [(&str, &str, bool); 2] = [
    ("a.example", "A.EXAMPLE.", true),
    ("a.example", "b.example", false),
];

#[test]
fn names_that_are_the_same(rt: HostRuntime) -> Result<(), Fail> {
    for (one, other, is_same) in &SAME {
        let met = sameness(rt.alloc(), one, other)?;
        assert_eq!(rt; met, [*is_same; 3], "{one} and {other}");
    }
    Ok(())
}

/// Whether the first name is at or under the second, for the names and for their keys.
fn is_under(heap: Global, name: &str, suffix: &str) -> Result<[bool; 2], NameFault> {
    let name = Name::from_text(heap, name)?;
    let suffix = Name::from_text(heap, suffix)?;
    Ok([name.is_under(&suffix), name.key().is_under(&suffix)])
}

/// Two names, and whether the first is at or under the second.
const UNDER: [(&str, &str, bool); 4] = [
    ("A.EXAMPLE.", "example", true),
    ("a.example", ".", true),
    ("notexample", "example", false),
    ("example", "a.example", false),
];

#[test]
fn names_under_names(rt: HostRuntime) -> Result<(), Fail> {
    for (name, suffix, wanted) in &UNDER {
        let met = is_under(rt.alloc(), name, suffix)?;
        assert_eq!(rt; met, [*wanted; 2], "{name} under {suffix}");
    }
    Ok(())
}

/// Whether a name and its copy have these octets.
fn has_octets(heap: Global, name: &str, octets: &[u8]) -> Result<bool, NameFault> {
    let name = Name::from_text(heap, name)?;
    let copy = name.copy(heap)?;
    Ok(name.octets() == octets && copy.octets() == octets)
}

/// Whether the second name is the first name's parent, for the names and for their keys.
fn has_parent(heap: Global, name: &str, parent: &str) -> Result<bool, NameFault> {
    let name = Name::from_text(heap, name)?;
    let wanted = Name::from_text(heap, parent)?;
    match name.parent(heap)? {
        Some(parent) => Ok(
            parent.octets() == wanted.octets() && name.key().parent() == Some(wanted.key()),
        ),
        None => Ok(false),
    }
}

#[test]
fn parents_and_copies(rt: HostRuntime) -> Result<(), Fail> {
    let heap = rt.alloc();
    assert!(rt; has_octets(heap, "a.example", b"\x01a\x07example")?);
    assert!(rt; has_octets(heap, ".", b"")?);
    assert!(rt; has_octets(heap, LONG, b"\x01a\x16abcdefghijklmnopqrstuv\x07example")?);
    assert!(rt; has_parent(heap, "a.example", "example")?);
    assert!(rt; has_parent(heap, LONG, LONGER)?);
    let root: Name = Name::root();
    assert!(rt; root.parent(heap)?.is_none());
    assert!(rt; root.key().parent().is_none());
    Ok(())
}

/// A name of 30 octets.
const SHORT: &str = "abcdefghijklmnopqrstu.example";

/// A name of 31 octets.
const LONGER: &str = "abcdefghijklmnopqrstuv.example";

/// A name of 33 octets with a parent of 31.
const LONG: &str = "a.abcdefghijklmnopqrstuv.example";

/// A name of 255 octets, the most allowed: four labels, the first three of 63 octets.
const WHOLE: &str = "abcdefghijklmnopqrstuvwxyz0123456789abcdefghijklmnopqrstuvwxyz0.\
abcdefghijklmnopqrstuvwxyz0123456789abcdefghijklmnopqrstuvwxyz0.\
abcdefghijklmnopqrstuvwxyz0123456789abcdefghijklmnopqrstuvwxyz0.\
abcdefghijklmnopqrstuvwxyz0123456789abcdefghijklmnopqrstuvwxy";

/// The sum of labels in a name's copy and parent.
fn made<A: Allocator + Copy>(heap: A, text: &str) -> Result<usize, NameFault> {
    let name = Name::from_text(heap, text)?;
    let copy = name.copy(heap)?;
    let parent = name.parent(heap)?;
    let count = copy.labels().count();
    Ok(count + parent.map_or(0, |parent| parent.labels().count()))
}

/// Grants `growths` allocations and refuses the next, alone or with all later allocations.
fn refuse(heap: &Refusing<Global>, growths: u64, is_alone: bool) {
    if is_alone {
        heap.refuse_one(growths);
    } else {
        heap.allow(growths);
    }
}

/// The number of allocations refused in turn, alone or with all later allocations, until the result
/// has `labels` labels. `None` for any fault but out of memory.
fn growths_of(heap: &Refusing<Global>, text: &str, labels: usize, is_alone: bool) -> Option<u64> {
    for count in 0..100u64 {
        refuse(heap, count, is_alone);
        match made(heap, text) {
            Ok(made) if made == labels => return Some(count),
            Err(NameFault::Memory) => {}
            _ => return None,
        }
    }
    None
}

/// A name, the sum of labels in copy and parent, and the number of allocations. A name up to 30
/// octets is kept in place. A longer name, copy or parent takes an allocation each.
const GROWTHS: [(&str, usize, u64); 5] = [
    ("a.example", 3, 0),
    (SHORT, 3, 0),
    (LONGER, 3, 2),
    (LONG, 5, 3),
    (WHOLE, 7, 3),
];

#[test]
fn each_growth_may_be_refused(rt: HostRuntime) {
    let heap = Refusing::new(rt.alloc());
    for (text, labels, growths) in &GROWTHS {
        assert_eq!(rt;
            growths_of(&heap, text, *labels, false),
            Some(*growths),
            "{text}"
        );
        assert_eq!(rt;
            growths_of(&heap, text, *labels, true),
            Some(*growths),
            "{text}"
        );
    }
}

/// The label of a name of 31 octets.
const LABEL: [u8; 30] = [b'a'; 30];

/// A list of [`LABEL`] alone.
fn one_label<A: Allocator + Copy>(heap: A) -> Result<Vec<Vec<u8, A>, A>, AllocError> {
    let mut labels = Vec::new(heap);
    labels.push(Vec::from_slice(heap, &LABEL)?)?;
    Ok(labels)
}

/// The number of labels of the name of [`LABEL`], with a refused allocation after `growths`.
fn of_one_label(heap: &Refusing<Global>, growths: u64, is_alone: bool) -> Result<usize, NameFault> {
    heap.allow(u64::MAX);
    let labels = one_label(heap)?;
    refuse(heap, growths, is_alone);
    Ok(Name::from_labels(heap, labels.as_slice())?.labels().count())
}

#[test]
fn each_growth_of_a_name_of_labels_may_be_refused(rt: HostRuntime) {
    let heap = Refusing::new(rt.alloc());
    for is_alone in &[false, true] {
        assert_eq!(rt; of_one_label(&heap, 0, *is_alone), Err(NameFault::Memory));
        assert_eq!(rt; of_one_label(&heap, 1, *is_alone), Ok(1));
    }
}
