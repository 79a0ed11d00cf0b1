//! The server of an ask, its path, and the ask itself.

ghost use Rattle.std.specs.Prelude.{◌≡◌, ◌≤◌, ◌+◌, ◌<◌, length, IfOk};
ghost use Rattle.suffix_routes.specs.Values.{IsConfig};
ghost use Rattle.outstanding.specs.Draws.{drawn_by_tcp};
ghost use Rattle.step_texts.specs.StepTable.Attempts.{group_of, servers_in, peer_at, over_udp, over_tcp};
ghost use Rattle.step_texts.specs.StepTable.Attempts.{ask_by, freed_by};
ghost use Rattle.step_texts.specs.StepTable.Attempts.{plan_of};
ghost use Rattle.step_actions.specs.Attempts.{pair_of};

use crate::step_start::StepStartRef;
use dns_message::Question;
use outstanding::{Ask, Path};
use retry_failover::Plan;
use std::alloc::{AllocError, Allocator};
use std::hash::BuildHasher;
use suffix_routes::{Config, Peer, RouteId};

/// The identifier of an ask, and the path it goes over.
#[derive(Clone, Copy)]
pub struct Drawn {
    pub id: u16,
    pub path: Path,
}

/// The identifier of the first word, and the next connection, whose number is the count of asks by
/// TCP before. `None` for the last number, which is never given.
pub fn draw_connection(words: [u32; 8], count: u64) -> Option<Drawn>
    ensures { pair_of result ≡ over_tcp (drawn_by_tcp words count) }
{
    if count == u64::MAX {
        return None;
    }
    Some(Drawn {
        id: (words[0] % 65536) as u16,
        path: Path::Tcp(count),
    })
}

/// A drawn identifier, with the drawn port as a path.
pub fn by_udp(drawn: Option<(u16, u16)>) -> Option<Drawn>
    ensures { pair_of result ≡ over_udp drawn }
{
    match drawn {
        Some((id, port)) => Some(Drawn {
            id,
            path: Path::Udp(port),
        }),
        None => None,
    }
}

/// The port given up with a path.
pub fn freed_port(path: Path) -> Option<u16>
    ensures { result ≡ freed_by path }
{
    match path {
        Path::Udp(port) => Some(port),
        Path::Tcp(_) => None,
    }
}

/// An ask of an inquiry: the server in the route's group, and the number of the try.
#[derive(Clone, Copy)]
pub struct Attempt {
    pub route: RouteId,
    pub server: usize,
    pub used: u8,
}

/// The ask of a server over the drawn path. `None` without such a server, or without a drawn path.
pub fn new_ask<'a, H: BuildHasher + Drop, A: Allocator + Copy>(
    start: &StepStartRef<'a, H, A>,
    question: &Question<A>,
    attempt: Attempt,
    drawn: Option<Drawn>,
) -> Result<Option<Ask<A>>, AllocError>
    ensures { IfOk result (λ ask. ask ≡ ask_by start.now.moment question.now attempt.route attempt.server attempt.used
        (peer_at start.now.config attempt.route attempt.server) (pair_of drawn)) }
{
    let Some(peer) = server_at(start.config, attempt.route, attempt.server) else {
        return Ok(None);
    };
    let Some(Drawn { id, path }) = drawn else {
        return Ok(None);
    };
    let question = question.copy(start.alloc)?;
    Ok(Some(Ask {
        question,
        route: attempt.route,
        server: attempt.server,
        peer,
        used: attempt.used,
        path,
        id,
        asked: start.moment,
    }))
}

/// The input of the table of attempts: the number of the group's servers, at most 8, and the tries.
pub fn plan<A: Allocator>(config: &Config<A>, ask: &Ask<A>) -> Plan
    requires accepted { IsConfig config.now }
    requires server { ask.now.server < length (servers_in (group_of config.now ask.now.route)) }
    ensures { result ≡ plan_of config.now ask.now }
{
    Plan {
        servers: group(config, ask.route).len() as u8,
        tries: config.limits.tries,
        used: ask.used,
        server: ask.server as u8,
        tcp: matches!(ask.path, Path::Tcp(_)),
    }
}

/// The server at a place of a route's group.
fn server_at<A: Allocator>(config: &Config<A>, route: RouteId, place: usize) -> Option<Peer>
    ensures { result ≡ peer_at config.now route place }
{
    group(config, route).get(place).copied()
}

/// The servers of a route, in the order of the configuration.
fn group<A: Allocator>(config: &Config<A>, route: RouteId) -> &[Peer]
    ensures { result.now ≡ servers_in (group_of config.now route) }
{
    match config.routes.as_slice().get(route.place) {
        Some(route) => route.servers.as_slice(),
        None => &[],
    }
}
