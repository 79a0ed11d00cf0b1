//! A message as the reply to a question, and its findings at one name of the walk: RFC 1034 3.6.2,
//! RFC 2308 2.

ghost use Rattle.std.specs.Prelude.{◌≡◌, ◌≢◌, IfOk, OnErr, None, is_none};
ghost use Rattle.std.specs.List.{list_any};
ghost use Rattle.std.specs.Option.{IfSome};
ghost use Rattle.trust_rank.specs.Denials.{soa_for};
ghost use Rattle.trust_rank.specs.Formed.{IsSoa};
ghost use Rattle.trust_rank.specs.Values.{unboxed};
ghost use Rattle.trust_rank.specs.Walks.{is_on_route, rank_at, at_name, answer_set, alias_set, has_many, target_of};
ghost use Rattle.trust_rank.specs.Walks.{is_referral, denial_at, leads, set_met, met_at, is_name_server, met_of};

use crate::denials::{name_error, no_data, soa_for};
use crate::piece::{Body, Piece};
use crate::sets::{SetKey, Source, is_same_name, set_among};
use dns_message::codes::NXDOMAIN;
use dns_message::types::{CNAME, NS};
use dns_message::{Name, Record};
use std::alloc::{AllocError, Allocator};
use std::marker::Model;
use suffix_routes::{Config, RouteId};

/// A reply, without the parts that no walk needs. The data of its records has their shapes.
#[derive(Drop)]
pub(crate) struct Reply<'a, A: Allocator> {
    pub config: &'a Config<A>,
    /// The asked route.
    pub route: RouteId,
    /// The asked name.
    pub name: &'a Name<A>,
    /// The asked type.
    pub kind: u16,
    /// The asked class.
    pub class: u16,
    /// AA is set.
    pub is_authoritative: bool,
    pub rcode: u8,
    pub answers: &'a [Record<A>],
    pub authority: &'a [Record<A>],
}

impl<'a, A: Allocator> Model for Reply<'a, A> {
    ghost use Rattle.trust_rank.specs.Values.{Reply};
    ghost use Rattle.trust_rank.specs.Formed.{AreShapedSections};

    ghost Value = { Reply };

    ghost view = { λ r. record {
      config = r.config.now;
      route = r.route;
      question = record { name = r.name.now; kind = r.kind; class = r.class };
      is_authoritative = r.is_authoritative;
      rcode = r.rcode;
      answers = r.answers.now;
      authority = r.authority.now;
    } };

    ghost invariant = { λ r. AreShapedSections r.answers.now r.authority.now };
}

/// The finding of a reply at a name.
#[derive(Drop)]
pub(crate) enum AtName<A: Allocator> {
    /// Nothing that counts: the name has to be asked for.
    Nothing,
    /// The asked set.
    Set(Piece<A>),
    /// A denial of the type.
    NoData(Piece<A>),
    /// A denial of the name.
    NameError(Piece<A>),
    /// An alias, and its target.
    Alias(Piece<A>, Name<A>),
    /// A finding for which the whole reply is lame.
    Lame,
}

impl<'a, A: Allocator + Copy> Reply<'a, A> {
    /// The name is on the asked route.
    pub fn is_on_route(&self, name: &Name<A>) -> bool
        ensures { result ≡ is_on_route self.now name.now }
    {
        match self.config.route_of(name) {
            None => false,
            Some(route) => route.place == self.route.place,
        }
    }

    /// The finding at a name, first of the walk or not: the asked set, otherwise an alias,
    /// otherwise a denial.
    pub fn met_at(&self, alloc: A, is_first: bool, name: &Name<A>) -> Result<AtName<A>, AllocError>
        ensures { IfOk result (λ met. met_of met ≡ met_at self.now is_first name.now) }
    {
        if !self.is_on_route(name) {
            return Ok(AtName::Nothing);
        }
        if let Some(set) = self.answer_set(alloc, self.kind, name)? {
            return Ok(set_met(self.kind, set));
        }
        if let Some(alias) = self.alias_set(alloc, name)? {
            return alias_met(alloc, alias);
        }
        self.met_denial(alloc, is_first, name)
    }

    /// The CNAME set at the name. A question for CNAME follows none.
    fn alias_set(&self, alloc: A, name: &Name<A>) -> Result<Option<Piece<A>>, AllocError>
        ensures { IfOk result (λ s. s ≡ alias_set self.now name.now) }
    {
        if self.kind == CNAME {
            return Ok(None);
        }
        self.answer_set(alloc, CNAME, name)
    }

    /// The set of this type in the answer section, at the name.
    fn answer_set(
        &self,
        alloc: A,
        kind: u16,
        name: &Name<A>,
    ) -> Result<Option<Piece<A>>, AllocError>
        ensures { IfOk result (λ s. s ≡ answer_set self.now kind name.now) }
    {
        set_among(
            alloc,
            self.source_at(name),
            self.answers,
            &self.at_name(kind, name),
        )
    }

    /// The finding at a name with neither the asked set nor an alias.
    fn met_denial(&self, alloc: A, is_first: bool, name: &Name<A>) -> Result<AtName<A>, AllocError>
        ensures { IfOk result (λ met. met_of met ≡ denial_at self.now is_first name.now) }
    {
        let soa = self.soa_for(alloc, name)?;
        let source = self.source_at(name);
        let denied = self.at_name(self.kind, name);
        if self.rcode == NXDOMAIN {
            return Ok(AtName::NameError(name_error(alloc, source, &denied, soa)?));
        }
        let lacks_soa = is_missing(&soa);
        if lacks_soa && !is_first {
            return Ok(AtName::Nothing);
        }
        if lacks_soa && self.is_referral() {
            return Ok(AtName::Lame);
        }
        Ok(AtName::NoData(no_data(alloc, source, &denied, soa)?))
    }

    /// The boxed SOA for a denial at the name.
    fn soa_for(&self, alloc: A, name: &Name<A>) -> Result<Option<Box<Record<A>, A>>, AllocError>
        ensures found { IfOk result (λ soa. unboxed soa ≡ soa_for name.now self.now.question.class self.now.authority) }
        ensures soa { IfOk result (λ soa. IfSome (unboxed soa) IsSoa) }
    {
        soa_for(alloc, name, self.class, self.authority)
    }

    /// The rank of a piece at the name: highest for the asked name, by its own server.
    fn source_at(&self, name: &Name<A>) -> Source
        ensures rank { result.rank ≡ rank_at self.now name.now }
        ensures route { result.route ≡ self.now.route }
    {
        let is_own = self.is_authoritative && is_same_name(name, self.name);
        Source {
            rank: if is_own { 3 } else { 1 },
            route: self.route,
        }
    }

    /// The asked class and this type, at the name.
    fn at_name<'n>(&self, kind: u16, name: &'n Name<A>) -> SetKey<'n, A>
        ensures { result ≡ at_name self.now kind name.now }
    {
        SetKey {
            name,
            kind,
            class: self.class,
        }
    }

    /// The authority section has name servers, and the reply is not authoritative: different
    /// servers are to be asked.
    fn is_referral(&self) -> bool
        ensures { result ≡ is_referral self.now }
    {
        !self.is_authoritative && has_name_servers(self.authority)
    }
}

/// There is no record.
fn is_missing<A: Allocator>(soa: &Option<Box<Record<A>, A>>) -> bool
    ensures { result ≡ is_none (unboxed soa.now) }
{
    match soa {
        None => true,
        Some(_) => false,
    }
}

pub(crate) fn is_name_server<A: Allocator>(record: &Record<A>) -> bool
    ensures { result ≡ is_name_server record.now }
{
    record.kind == NS
}

fn has_name_servers<A: Allocator>(records: &[Record<A>]) -> bool
    ensures { result ≡ list_any is_name_server records.now }
{
    records.iter().any(|record| is_name_server(record))
}

/// A set of more than one record.
fn has_many<A: Allocator>(piece: &Piece<A>) -> bool
    ensures { result ≡ has_many piece.now.body }
{
    match &piece.body {
        Body::Rows(rows) => rows.len() > 1,
        _ => false,
    }
}

/// The asked set ends the walk; a CNAME set of more than one record is lame.
fn set_met<A: Allocator>(kind: u16, set: Piece<A>) -> AtName<A>
    ensures { met_of result ≡ set_met kind set }
{
    if kind == CNAME && has_many(&set) {
        return AtName::Lame;
    }
    AtName::Set(set)
}

/// The target of an alias's only record.
#[tactic(auto, using(crate::proofs::PieceLaws::no_target))]
pub fn target_of<A: Allocator + Copy>(
    alloc: A,
    piece: &Piece<A>,
) -> Result<Option<Name<A>>, AllocError>
    ensures target { IfOk result (λ target. target ≡ target_of piece.now.body) }
    ensures memory { OnErr result (target_of piece.now.body ≢ None) }
{
    let Body::Rows(rows) = &piece.body else {
        return Ok(None);
    };
    match rows.only() {
        Some(data) => data.name(alloc),
        None => Ok(None),
    }
}

/// An alias leads on; a CNAME set of more than one record is lame.
fn alias_met<A: Allocator + Copy>(alloc: A, alias: Piece<A>) -> Result<AtName<A>, AllocError>
    ensures met { IfOk result (λ met. met_of met ≡ leads alias (target_of alias.body)) }
    ensures memory { OnErr result (target_of alias.body ≢ None) }
{
    match target_of(alloc, &alias)? {
        None => Ok(AtName::Lame),
        Some(target) => Ok(AtName::Alias(alias, target)),
    }
}
