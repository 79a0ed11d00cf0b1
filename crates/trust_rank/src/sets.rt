//! Record sets, gathered from a section: RFC 2181 5.

ghost use Rattle.std.specs.Prelude.{◌≡◌, [], ◌∷◌, ◌++◌, min, take, IfOk, OnOk};
ghost use Rattle.std.specs.List.{list_any};
ghost use Rattle.dns_message.specs.PlainValues.Octets.{same_octets};
ghost use Rattle.dns_message.specs.DnsName.Labels.{same};
ghost use Rattle.dns_message.specs.Data.{IsShaped};
ghost use Rattle.dns_message.specs.Messages.{AreShaped};
ghost use Rattle.trust_rank.specs.Sets.{is_of, records_for, with_data, seconds_of, longest, set_with, set_of};
ghost use Rattle.trust_rank.specs.Gathering.{Indexes, few, added, added_all, lowered_by, lowered_by_all};

use crate::piece::{Body, Piece};
use crate::rows::Rows;
use dns_message::{Name, PlainList, Rdata, Record};
use std::alloc::{AllocError, Allocator};
use std::collections::BTreeSet;
use std::marker::Model;
use suffix_routes::RouteId;

/// The longest lifetime of a piece, in seconds: a week.
const LONGEST: u32 = 604_800;

/// The number of a set's data compared one by one; further data is found by an index.
const FEW: usize = 16;

/// The records of a set.
#[derive(Drop)]
pub(crate) struct SetKey<'a, A: Allocator> {
    pub name: &'a Name<A>,
    pub kind: u16,
    pub class: u16,
}

impl<'a, A: Allocator> Model for SetKey<'a, A> {
    ghost use Rattle.dns_message.specs.Values.{Question};

    ghost Value = { Question };

    ghost view = { λ s. record { name = s.name.now; kind = s.kind; class = s.class } };
}

/// The rank of a piece (RFC 2181 5.4.1), and the route of the answered ask.
#[derive(Clone, Copy)]
pub(crate) struct Source {
    pub rank: u8,
    pub route: RouteId,
}

/// Equal names, ASCII letter case aside (RFC 4343).
pub(crate) fn is_same_name<A: Allocator>(a: &Name<A>, b: &Name<A>) -> bool
    ensures { result ≡ same a.now b.now }
{
    a.same(b)
}

impl<'a, A: Allocator + Copy> SetKey<'a, A> {
    /// The record belongs to the set.
    fn includes(&self, record: &Record<A>) -> bool
        ensures { result ≡ is_of self.now record.now }
    {
        record.kind == self.kind
            && record.class == self.class
            && is_same_name(&record.owner, self.name)
    }
}

/// The seconds of a TTL; 0 with its top bit set (RFC 2181 8).
pub(crate) fn seconds_from(ttl: u32) -> u32
    ensures { result ≡ seconds_of ttl }
{
    if ttl >= 1 << 31 { 0 } else { ttl }
}

/// The set that begins with this record and goes on in the rest.
pub(crate) fn set_with<'a, A: Allocator + Copy>(
    alloc: A,
    source: Source,
    first: &'a Record<A>,
    others: &'a [Record<A>],
    key: &SetKey<'_, A>,
) -> Result<Piece<A>, AllocError>
    requires shaped { IsShaped first.now.kind first.now.rdata }
    requires others_shaped { AreShaped others.now }
    requires kind { first.now.kind ≡ key.now.kind }
    ensures { IfOk result (λ p. p ≡ set_with source.rank source.route first.now (records_for key.now others.now)) }
{
    let (rows, lifetime) = gather(alloc, first, others, key)?;
    let owner = first.owner.copy(alloc)?;
    Ok(Piece {
        class: first.class,
        kind: Some(first.kind),
        owner,
        body: Body::Rows(rows),
        lifetime,
        rank: source.rank,
        route: source.route,
    })
}

/// The set of these records, if any.
pub(crate) fn set_among<'a, A: Allocator + Copy>(
    alloc: A,
    source: Source,
    records: &'a [Record<A>],
    key: &SetKey<'_, A>,
) -> Result<Option<Piece<A>>, AllocError>
    requires { AreShaped records.now }
    ensures { IfOk result (λ s. s ≡ set_of source.rank source.route (records_for key.now records.now)) }
{
    let mut rest = records;
    while let Some((first, others)) = rest.split_first() {
        if key.includes(first) {
            return Ok(Some(set_with(alloc, source, first, others, key)?));
        }
        rest = others;
    }
    Ok(None)
}

/// The data of a set and its lifetime, from the records so far.
#[derive(Drop)]
struct Gathered<'a, A: Allocator> {
    rows: PlainList<Rdata<A>, A>,
    /// The data after the first few.
    index: BTreeSet<&'a [u8], A>,
    lifetime: u32,
}

impl<'a, A: Allocator + Copy> Gathered<'a, A> {
    /// Nothing but the set's first record.
    fn begin(alloc: A, first: &Record<A>) -> Result<Gathered<'a, A>, AllocError>
        ensures rows { IfOk result (λ g. g.rows ≡ first.now.rdata ∷ []) }
        ensures index { IfOk result (λ g. Indexes g.index g.rows) }
        ensures lifetime { IfOk result (λ g. g.lifetime ≡ min longest (seconds_of first.now.ttl)) }
    {
        let mut rows = PlainList::new(alloc);
        rows.push(first.rdata.copy(alloc)?)?;
        Ok(Gathered {
            rows,
            index: BTreeSet::new(alloc),
            lifetime: LONGEST.min(seconds_from(first.ttl)),
        })
    }

    /// Puts the data last, if new.
    fn put_new(&mut self, alloc: A, row: &'a Rdata<A>) -> Result<(), AllocError>
        requires { Indexes self.old.index self.old.rows }
        ensures rows { OnOk result (self.new.rows ≡ with_data self.old.rows row.now) }
        ensures index { OnOk result (Indexes self.new.index self.new.rows) }
        ensures lifetime { self.new.lifetime ≡ self.old.lifetime }
    {
        let octets = row.octets();
        if is_among(octets, first_few(self.rows.as_slice())) {
            return Ok(());
        }
        if self.rows.as_slice().len() < FEW {
            return push_copy(alloc, &mut self.rows, row);
        }
        let added = self.index.insert(octets)?;
        if !added {
            return Ok(());
        }
        push_copy(alloc, &mut self.rows, row)
    }

    /// One more record of the section.
    fn add(
        &mut self,
        alloc: A,
        record: &'a Record<A>,
        key: &SetKey<'_, A>,
    ) -> Result<(), AllocError>
        requires { Indexes self.old.index self.old.rows }
        ensures rows { OnOk result (self.new.rows ≡ added key.now self.old.rows record.now) }
        ensures index { OnOk result (Indexes self.new.index self.new.rows) }
        ensures lifetime { OnOk result (self.new.lifetime ≡ lowered_by key.now self.old.lifetime record.now) }
    {
        if !key.includes(record) {
            return Ok(());
        }
        self.put_new(alloc, &record.rdata)?;
        self.lifetime = self.lifetime.min(seconds_from(record.ttl));
        Ok(())
    }
}

/// The data and the lifetime of the set that begins with this record and goes on in the rest.
fn gather<'a, A: Allocator + Copy>(
    alloc: A,
    first: &'a Record<A>,
    others: &'a [Record<A>],
    key: &SetKey<'_, A>,
) -> Result<(Rows<A>, u32), AllocError>
    ensures rows { IfOk result (λ g. g.0 ≡ added_all key.now (first.now.rdata ∷ []) others.now) }
    ensures lifetime { IfOk result (λ g. g.1 ≡ lowered_by_all key.now
        (min longest (seconds_of first.now.ttl)) others.now) }
{
    let mut gathered = Gathered::begin(alloc, first)?;
    for record in others {
        gathered.add(alloc, record, key)?;
    }
    let Gathered { rows, lifetime, .. } = gathered;
    Ok((Rows::from_list(rows), lifetime))
}

fn is_among<A: Allocator>(octets: &[u8], rows: &[Rdata<A>]) -> bool
    ensures { result ≡ list_any (same_octets octets.now) rows.now }
{
    rows.iter().any(|row| is_same_octets(octets, row.octets()))
}

fn is_same_octets(a: &[u8], b: &[u8]) -> bool
    ensures { result ≡ same_octets a.now b.now }
{
    a == b
}

/// The data compared one by one.
fn first_few<A: Allocator>(rows: &[Rdata<A>]) -> &[Rdata<A>]
    ensures { result.now ≡ take few rows.now }
{
    &rows[..rows.len().min(FEW)]
}

/// Puts a copy of the data last.
fn push_copy<A: Allocator + Copy>(
    alloc: A,
    rows: &mut PlainList<Rdata<A>, A>,
    row: &Rdata<A>,
) -> Result<(), AllocError>
    ensures { OnOk result (rows.new ≡ rows.old ++ row.now ∷ []) }
{
    rows.push(row.copy(alloc)?)
}
