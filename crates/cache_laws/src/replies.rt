//! The pieces of a reply.

ghost use Rattle.cache_laws.specs.Carried.{CarriedExactly};
ghost use Rattle.cache_laws.specs.Denials.{DeniesExactly};
ghost use Rattle.cache_laws.specs.Ends.{AliasesAloneLeadOn, NoDataExactly, ReferralsAreLame};
ghost use Rattle.cache_laws.specs.Lifetimes.{DenialsLiveByTheirSoa};
ghost use Rattle.cache_laws.specs.Ranks.{RanksAreByAuthority};
ghost use Rattle.cache_laws.specs.Servers.{OthersCarryNone, ServersAreAll, ServersAreApart};
ghost use Rattle.cache_laws.specs.Sets.{ServerSetsAreWhole, SetsAreWhole, TopBitIsNone};

/// Each set of a reply is the section's whole set of its name, type and class: each row is the data
/// of a record, the data of each record is a row, without duplicates (RFC 2181 5). Rows are in the
/// order in which their data comes first in the section, and the owner is spelled as in the first
/// record. The set lives no longer than any of its records and than a week, and as long as one of
/// them or a week (RFC 2181 5.2).
pub fn sets_are_whole()
    ensures walk { SetsAreWhole }
    ensures servers { ServerSetsAreWhole }
{}

/// A TTL with its top bit set counts as 0 seconds, any other as its own number (RFC 2181 8).
pub fn top_bit_is_none()
    ensures { TopBitIsNone }
{}

/// The pieces of a reply for the asked name have rank 3 exactly if it is authoritative; all others
/// on its walk have rank 1, and the name servers next to it rank 2 (RFC 2181 5.4.1).
pub fn ranks_are_by_authority()
    ensures { RanksAreByAuthority }
{}

/// A reply ends with a name error exactly if its response code is 3 and its aliases, fewer than
/// eight, lead on the asked route to a name of which its answer section has neither the asked type
/// nor an alias (RFC 2308 2.1).
pub fn denies_exactly()
    ensures { DeniesExactly }
{}

/// A denial holds the first SOA of the authority section that is of the asked class and whose owner
/// is at or above its name. It lives for the least of the SOA's TTL, of MINIMUM and of three hours;
/// without SOA it has no lifetime (RFC 2308 5).
pub fn denials_live_by_their_soa()
    ensures { DenialsLiveByTheirSoa }
{}

/// Fewer than eight aliases lead on the asked route to a name of which the answer section has
/// neither the asked type nor an alias, and the response code is not 3. Then a reply with an SOA
/// for that name ends with NODATA. Without SOA the name has to be asked for, where an alias leads
/// to it. The asked name itself has then no data, but a referral to others is lame (RFC 2308 2.2).
/// In no other case does a reply end with NODATA.
pub fn no_data_exactly()
    ensures no_data { NoDataExactly }
    ensures aliases { AliasesAloneLeadOn }
    ensures referral { ReferralsAreLame }
{}

/// An authoritative reply that is not lame carries each NS record of its authority section that is
/// of the asked class, whose owner is at or above the asked name and on the asked route, and is the
/// owner of no piece on the walk, in one set for each owner. A reply that is not authoritative
/// carries none.
pub fn servers_are_all()
    ensures all { ServersAreAll }
    ensures apart { ServersAreApart }
    ensures none { OthersCarryNone }
{}

/// The content of a reply, by its records alone (`IsCarriedBy`): sets whole, in order, spelled and
/// ranked; aliases one by one; NODATA, name errors, referrals and two aliases each exactly;
/// lifetimes by TTL and SOA; all name servers that fit. If no two routes have the same suffix, as
/// in each accepted configuration, code and table compute a content of this kind. There is no other
/// if the record data has the shapes of its types, as in each message that was read.
pub fn carried_exactly()
    ensures { CarriedExactly }
{}
