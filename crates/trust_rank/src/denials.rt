//! Denials, with the SOA of the zone: RFC 2308 2, 3 and 5.

ghost use Rattle.std.specs.Prelude.{◌≡◌, Some, None, IfOk, MatchOption, length, ◌≤◌};
ghost use Rattle.std.specs.Option.{IfSome};
ghost use Rattle.dns_message.specs.DnsName.Labels.{is_under};
ghost use Rattle.dns_message.specs.Messages.{AreShaped};
ghost use Rattle.trust_rank.specs.Denials.{is_soa_for, soa_for, minimum_of, denial_lifetime, no_data_with};
ghost use Rattle.trust_rank.specs.Denials.{name_error_with};
ghost use Rattle.trust_rank.specs.Formed.{IsSoa};
ghost use Rattle.trust_rank.specs.Values.{unboxed};

use crate::piece::{Body, Piece, boxed_copy};
use crate::sets::{SetKey, Source, seconds_from};
use byteorder::{BigEndian, ByteOrder};
use dns_message::types::SOA;
use dns_message::{Name, Record};
use std::alloc::{AllocError, Allocator};

/// The longest lifetime of a denial, in seconds: three hours.
const LONGEST_DENIAL: u32 = 10_800;

/// The name is at or under `suffix`, ASCII letter case aside.
pub(crate) fn is_name_under<A: Allocator>(name: &Name<A>, suffix: &Name<A>) -> bool
    ensures { result ≡ is_under name.now suffix.now }
{
    name.is_under(suffix)
}

/// A boxed copy of the SOA record for a denial at the name.
pub(crate) fn soa_for<A: Allocator + Copy>(
    alloc: A,
    name: &Name<A>,
    class: u16,
    authority: &[Record<A>],
) -> Result<Option<Box<Record<A>, A>>, AllocError>
    requires { AreShaped authority.now }
    ensures found { IfOk result (λ soa. unboxed soa ≡ soa_for name.now class authority.now) }
    ensures soa { IfOk result (λ soa. IfSome (unboxed soa) IsSoa) }
{
    match find_soa(name, class, authority) {
        None => Ok(None),
        Some(soa) => Ok(Some(boxed_copy(alloc, soa)?)),
    }
}

/// NODATA: the name has no records of this type (RFC 2308 2.2).
pub(crate) fn no_data<A: Allocator + Copy>(
    alloc: A,
    source: Source,
    denied: &SetKey<'_, A>,
    soa: Option<Box<Record<A>, A>>,
) -> Result<Piece<A>, AllocError>
    requires { IfSome (unboxed soa) IsSoa }
    ensures { IfOk result (λ p. p ≡ no_data_with source.rank source.route denied.now.name denied.now.class
        denied.now.kind (unboxed soa)) }
{
    let owner = denied.name.copy(alloc)?;
    Ok(Piece {
        class: denied.class,
        kind: Some(denied.kind),
        owner,
        lifetime: lifetime_with(&soa),
        body: Body::NoData(soa),
        rank: source.rank,
        route: source.route,
    })
}

/// A name error: there is no such name (RFC 2308 2.1), nor any name below (RFC 8020 2).
pub(crate) fn name_error<A: Allocator + Copy>(
    alloc: A,
    source: Source,
    denied: &SetKey<'_, A>,
    soa: Option<Box<Record<A>, A>>,
) -> Result<Piece<A>, AllocError>
    requires { IfSome (unboxed soa) IsSoa }
    ensures { IfOk result (λ p. p ≡ name_error_with source.rank source.route denied.now.name denied.now.class
        (unboxed soa)) }
{
    let owner = denied.name.copy(alloc)?;
    Ok(Piece {
        class: denied.class,
        kind: None,
        owner,
        lifetime: lifetime_with(&soa),
        body: Body::Denied(soa),
        rank: source.rank,
        route: source.route,
    })
}

/// The first fitting SOA record of the authority section for a denial at the name.
fn find_soa<'a, A: Allocator>(
    name: &Name<A>,
    class: u16,
    authority: &'a [Record<A>],
) -> Option<&'a Record<A>>
    ensures { MatchOption result (soa_for name.now class authority.now ≡ None)
        (λ soa. soa_for name.now class authority.now ≡ Some soa.now) }
{
    for record in authority {
        if is_soa_for(record, name, class) {
            return Some(record);
        }
    }
    None
}

/// The record is an SOA of the class whose owner is at or above the name.
fn is_soa_for<A: Allocator>(record: &Record<A>, name: &Name<A>, class: u16) -> bool
    ensures { result ≡ is_soa_for name.now class record.now }
{
    record.kind == SOA && record.class == class && is_name_under(name, &record.owner)
}

/// The lifetime of a denial, in seconds; a denial without SOA is used once and not kept.
fn lifetime_with<A: Allocator>(soa: &Option<Box<Record<A>, A>>) -> u32
    requires { IfSome (unboxed soa.now) IsSoa }
    ensures { result ≡ denial_lifetime (unboxed soa.now) }
{
    match soa {
        None => 0,
        Some(soa) => lifetime_from(soa.as_ref()),
    }
}

/// The lifetime of a denial with this SOA, in seconds: the least of the SOA's TTL, its MINIMUM and
/// three hours (RFC 2308 5).
fn lifetime_from<A: Allocator>(soa: &Record<A>) -> u32
    requires { IsSoa soa.now }
    ensures { result ≡ denial_lifetime (Some soa.now) }
{
    seconds_from(soa.ttl)
        .min(minimum_from(soa.rdata.octets()))
        .min(LONGEST_DENIAL)
}

/// MINIMUM, the last field of an SOA's data, in seconds (RFC 1035 3.3.13, RFC 2308 4).
fn minimum_from(rdata: &[u8]) -> u32
    requires { 4 ≤ length rdata.now }
    ensures { result ≡ minimum_of rdata.now }
{
    BigEndian::read_u32(&rdata[rdata.len() - 4..])
}
