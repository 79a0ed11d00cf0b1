//! A fault's quoted text, and the texts of name faults.

use dns_name::NameFault;
use std::test::Fail;
use suffix_routes::{ConfigFault, Excerpt};

/// Texts, and as shown.
const SHOWN: [(&str, &str); 7] = [
    ("", "\"\""),
    ("a\nb\"\\\u{7}", "\"a\\nb\\\"\\\\\\u{7}\""),
    ("\u{e4}\u{20ac}", "\"\u{e4}\u{20ac}\""),
    // 63, 64 and 65 octets; the fourth text's last character begins at octet 62 and has three.
    (
        "abcdefghiabcdefghiabcdefghiabcdefghiabcdefghiabcdefghiabcdefghi",
        "\"abcdefghiabcdefghiabcdefghiabcdefghiabcdefghiabcdefghiabcdefghi\"",
    ),
    (
        "abcdefghiabcdefghiabcdefghiabcdefghiabcdefghiabcdefghiabcdefghij",
        "\"abcdefghiabcdefghiabcdefghiabcdefghiabcdefghiabcdefghiabcdefghi\"..",
    ),
    (
        "abcdefghiabcdefghiabcdefghiabcdefghiabcdefghiabcdefghiabcdefghijk",
        "\"abcdefghiabcdefghiabcdefghiabcdefghiabcdefghiabcdefghiabcdefghi\"..",
    ),
    (
        "abcdefghiabcdefghiabcdefghiabcdefghiabcdefghiabcdefghiabcdefgh\u{20ac}",
        "\"abcdefghiabcdefghiabcdefghiabcdefghiabcdefghiabcdefghiabcdefgh\"..",
    ),
];

#[test]
fn what_is_shown_of_a_text(rt: HostRuntime) -> Result<(), Fail> {
    let heap = rt.alloc();
    for (text, wanted) in &SHOWN {
        let shown = format!(in heap; "{}", Excerpt::of(text))?;
        assert_eq!(rt; shown.as_str(), *wanted);
    }
    assert_eq!(rt; Excerpt::of("a b").octets(), b"a b".as_slice());
    Ok(())
}

/// The text of each fault of a name.
const NAMES: [(NameFault, &str); 5] = [
    (NameFault::EmptyLabel, "a label is empty"),
    (NameFault::LabelLong, "a label has more than 63 octets"),
    (NameFault::NameLong, "the name has more than 255 octets"),
    (
        NameFault::BadCharacter,
        "a character is no letter, digit, hyphen, underscore or dot",
    ),
    (NameFault::Memory, "memory ran out"),
];

#[test]
fn what_is_said_of_a_name(rt: HostRuntime) -> Result<(), Fail> {
    let heap = rt.alloc();
    for (fault, wanted) in &NAMES {
        let said = format!(in heap; "{fault}")?;
        assert_eq!(rt; said.as_str(), *wanted);
    }
    let memory = format!(in heap; "{}", ConfigFault::Memory)?;
    assert_eq!(rt; memory.as_str(), "memory ran out");
    Ok(())
}
