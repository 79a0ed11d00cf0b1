//! Each allocation of a configuration, of its copy, and of a name made from labels is refused once.
//! Then all allocations are granted.

use dns_name::{Name, NameFault};
use refusing_allocator::Refusing;
use std::alloc::{AllocError, Global};
use std::test::Fail;
use suffix_routes::{Config, ConfigFault};

/// Two routes with a server each.
const SERVING: &str = r#"version = 1
[[route]]
suffix = "."
servers = ["192.0.2.1:53"]
[[route]]
suffix = "corp.example"
servers = ["192.0.2.9:53"]
"#;

/// A route with a server, and a denying route with a suffix too long to be kept in place.
const DENYING: &str = r#"version = 2
[limits]
stale_s = 600
[[route]]
suffix = "."
servers = ["192.0.2.1:53"]
[[route]]
suffix = "names-that-nobody-is-to-be-asked-for.example"
deny = true
"#;

/// The sum of routes in a text's configuration and its copy.
fn read_and_copied(
    table_heap: Global,
    heap: &Refusing<Global>,
    text: &str,
) -> Result<usize, ConfigFault> {
    let config = Config::read(table_heap, heap, text)?;
    let copy = config.copy(heap)?;
    let count = config.routes().len();
    Ok(copy.routes().len().saturating_add(count))
}

#[test]
fn each_growth_may_be_refused(rt: HostRuntime) {
    let heap = Refusing::new(rt.alloc());
    for text in [SERVING, DENYING] {
        for count in 0..6u64 {
            heap.allow(count);
            assert_eq!(rt;
                read_and_copied(rt.alloc(), &heap, text),
                Err(ConfigFault::Memory)
            );
        }
        heap.allow(6);
        assert_eq!(rt; read_and_copied(rt.alloc(), &heap, text), Ok(4));
    }
}

/// `count` labels of a letter each.
fn labels_of<'a>(
    heap: &'a Refusing<Global>,
    count: u8,
) -> Result<Vec<Vec<u8, &'a Refusing<Global>>, &'a Refusing<Global>>, AllocError> {
    let mut labels = Vec::new(heap);
    for _ in 0..count {
        labels.push(Vec::from_slice(heap, b"a")?)?;
    }
    Ok(labels)
}

/// The number of octets of the name of `labels` labels, with `growths` allocations granted.
fn named_with(heap: &Refusing<Global>, labels: u8, growths: u64) -> Result<usize, NameFault> {
    let labels = labels_of(heap, labels)?;
    heap.allow(growths);
    let octets = Name::from_labels(heap, labels.as_slice()).map(|name| name.octets().len());
    heap.allow(u64::MAX);
    octets
}

/// A name up to 30 octets does not allocate; a longer name allocates once.
#[test]
fn each_growth_of_a_name_of_labels_may_be_refused(rt: HostRuntime) {
    let heap = Refusing::new(rt.alloc());
    for (labels, growths, octets) in [(0, 0, 0), (15, 0, 30), (16, 1, 32), (127, 1, 254)] {
        for count in 0..growths {
            assert_eq!(rt;
                named_with(&heap, labels, count),
                Err(NameFault::Memory),
                "{labels} labels, {count} growths"
            );
        }
        assert_eq!(rt;
            named_with(&heap, labels, growths),
            Ok(octets),
            "{labels} labels"
        );
    }
}
