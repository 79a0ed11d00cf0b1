//! Pieces to offer.

ghost use Rattle.std.specs.Prelude.{◌≢◌, ◌≤◌, []};

use dns_message::{MessageRef, QuestionRef, Rdata};
use dns_name::{Name, NameFault};
use lru::DefaultHasher;
use negative_cache::{CacheAt, Found};
use plain_values::PlainList;
use record_cache::{Cache, LookUpSlot, Offered};
use std::alloc::{Allocator, Global};
use std::hash::BuildHasher;
use std::test::Fail;
use suffix_routes::{Config, RouteId};
use trust_rank::{Body, Piece, Rows, Slot, pieces};

/// A single route for all names.
pub(crate) const CONFIG: &str = r#"version = 1
[[route]]
suffix = "."
servers = ["192.0.2.1:53"]
"#;

/// A route for all names, and a route denying the names under `lan`.
pub(crate) const DENYING: &str = r#"version = 2
[[route]]
suffix = "."
servers = ["192.0.2.1:53"]
[[route]]
suffix = "lan"
deny = true
"#;

/// The first worked reply: a.example has an address for five minutes.
pub(crate) const ADDRESS: &str =
    "0008850000010001000000000161076578616d706c650000010001c00c000100010000012c0004c6336405";

/// A reply to a question for a.example's address. a.example is an alias of b.example; b.example has
/// two addresses. The authority section has a name server of example.
pub(crate) const ALIAS: &str =
    "0008850000010003000100000161076578616d706c650000010001c00c000500010000003c00040162c00ec027000100010000012c0004c6336405c02700010001000002580004c6336406c00e0002000100000e100005026e73c00e";

/// The name x.example does not exist: TTL 3,600 and MINIMUM 600.
pub(crate) const NAME_ERROR: &str =
    "0008850300010000000100000178076578616d706c650000010001c00e0006000100000e10001d026e73c00e0168c00e0000000100000002000000030000000400000258";

/// The name x.example has no address: with an equal SOA.
pub(crate) const NO_DATA: &str =
    "0008850000010000000100000178076578616d706c650000010001c00e0006000100000e10001d026e73c00e0168c00e0000000100000002000000030000000400000258";

/// A denial without SOA: of a type (NODATA), or, without a type, of the whole name (a name error).
#[derive(Clone, Copy)]
pub(crate) struct Denial<'a> {
    pub owner: &'a str,
    pub kind: Option<u16>,
    /// In seconds.
    pub lifetime: u16,
    pub rank: u8,
}

impl<'a> Denial<'a> {
    /// A denial of an hour.
    pub(crate) fn of(owner: &'a str, kind: Option<u16>) -> Denial<'a> {
        Denial {
            owner,
            kind,
            lifetime: 3600,
            rank: 3,
        }
    }

    pub(crate) fn slot<A: Allocator + Copy>(self, alloc: A) -> Result<Slot, NameFault> {
        Ok(Slot {
            key: Name::from_text(alloc, self.owner)?.key(),
            class: 1,
            kind: self.kind,
        })
    }

    pub(crate) fn piece<A: Allocator + Copy>(self, alloc: A) -> Result<Piece<A>, NameFault> {
        let owner = Name::from_text(alloc, self.owner)?;
        Ok(piece_of(owner, self.kind, self.lifetime, self.rank))
    }

    /// Offers the denial at a moment.
    pub(crate) fn offer<A: Allocator + Copy>(
        self,
        alloc: A,
        cache: &mut Cache<DefaultHasher, A>,
        moment: u64,
    ) -> Result<Offered, NameFault> {
        Ok(cache.offer(self.piece(alloc)?, moment))
    }
}

fn piece_of<A: Allocator>(owner: Name<A>, kind: Option<u16>, lifetime: u16, rank: u8) -> Piece<A> {
    let body = match kind {
        Some(_) => Body::NoData(None),
        None => Body::Denied(None),
    };
    Piece {
        owner,
        class: 1,
        kind,
        body,
        lifetime: u32::from(lifetime),
        rank,
        route: RouteId { place: 0 },
    }
}

/// A name's addresses: a single address, for five minutes.
pub(crate) fn set<A: Allocator + Copy>(alloc: A, owner: &str) -> Result<Piece<A>, Fail> {
    let owner = Name::from_text(alloc, owner)?;
    let mut rows = PlainList::new(alloc);
    rows.push(Rdata::from_octets(alloc, b"\xc6\x33\x64\x05")?)?;
    Ok(set_of(owner, Rows::from_list(rows)))
}

fn set_of<A: Allocator>(owner: Name<A>, rows: Rows<A>) -> Piece<A>
    requires { rows ≢ [] }
{
    Piece {
        owner,
        class: 1,
        kind: Some(1),
        body: Body::Rows(rows),
        lifetime: 300,
        rank: 3,
        route: RouteId { place: 0 },
    }
}

/// The pieces of a message, taken as the reply to its own question.
fn pieces_in(
    alloc: Global,
    config: &Config,
    octets: &[u8],
) -> Result<PlainList<Piece, Global>, Fail> {
    let view = MessageRef::view(octets)?;
    let question = view.question(alloc)?;
    let message = view.read_whole(alloc)?;
    let walk = pieces(alloc, &message, &question, RouteId { place: 0 }, config)?;
    Ok(walk.pieces)
}

/// The pieces of a message in hexadecimal digits, taken as the reply to its own question, with a
/// configuration serving all names.
pub(crate) fn pieces_of(alloc: Global, digits: &str) -> Result<PlainList<Piece, Global>, Fail> {
    let octets = hex::decode(alloc, digits)?;
    let config = Config::read(alloc, alloc, CONFIG)?;
    pieces_in(alloc, &config, &octets)
}

/// Looks up a name's address, expired entries too, with a window in seconds.
pub(crate) fn found_stale<'a, H: BuildHasher + Drop, A: Allocator + Copy>(
    at: &CacheAt<'a, H, A>,
    name: &Name<A>,
    window: u64,
) -> Found<'a, A>
    requires { window ≤ 86400 }
{
    let mut slot = LookUpSlot::new();
    let question = QuestionRef::from_octets(name.octets(), 1, 1);
    at.find_stale(&mut slot, &question, window)
}
