//! The port and the identifier of an ask by UDP: both are drawn, so a forger has to guess them (RFC
//! 5452 9.2).

ghost use Rattle.std.specs.Prelude.{◌≡◌, None, IfSome};
ghost use Rattle.outstanding.specs.Draws.{is_freed, is_used, port_of, udp_draw, without_port};
ghost use Rattle.outstanding.specs.Lists.{on_path};

use crate::ask::Path;
use crate::inquiries::Inquiries;
use std::alloc::Allocator;

/// Identifier and port of the first word whose port has no listed ask; the port `freed`, about to
/// be given up, counts as free. A word `w` gives identifier `w mod 65536` and port
/// `1024 + (w / 65536) mod 64512`. `None` exactly if all eight ports are listed and not freed. So
/// no ask is listed on the port once `freed` is given up.
pub fn draw<A: Allocator>(
    words: [u32; 8],
    inquiries: &Inquiries<A>,
    freed: Option<u16>,
) -> Option<(u16, u16)>
    ensures drawn { result ≡ udp_draw words inquiries.now.asks freed }
    ensures free { IfSome result (λ draw. on_path (Path.Udp draw.1) (without_port freed inquiries.now.asks) ≡ None) }
{
    for word in words {
        let port = port_from(word);
        if is_freed(port, freed) || !is_used(port, inquiries) {
            return Some(((word % 65536) as u16, port));
        }
    }
    None
}

/// The port of a random word, from 1024 on.
fn port_from(word: u32) -> u16
    ensures { result ≡ port_of word }
{
    (1024 + (word / 65536) % 64512) as u16
}

/// Whether the port is about to be given up.
fn is_freed(port: u16, freed: Option<u16>) -> bool
    ensures { result ≡ is_freed port freed }
{
    match freed {
        Some(freed) => port == freed,
        None => false,
    }
}

/// Whether an ask is listed on the port.
fn is_used<A: Allocator>(port: u16, inquiries: &Inquiries<A>) -> bool
    ensures { result ≡ is_used port inquiries.now.asks }
{
    inquiries.by_path(Path::Udp(port)).is_some()
}
