//! The octets of a file or of standard input, and the parts of a script.

ghost use Rattle.std.specs.Prelude.{◌≡◌, ◌≤◌, ◌++◌, false, Ok, IfOk, IfErr, IfSome, IfNone, vec_len};
ghost use Rattle.std.specs.List.{list_any, position};
ghost use Rattle.suffix_routes.specs.Reading.{IsReadIn};
ghost use Rattle.replay_script.specs.Configs.{IsOfStream, IsFaultOf, IsFaultIn};
ghost use Rattle.replay_script.specs.Parts.{AreParts, HasOnePart, ended, is_feed};

use crate::fault::ReplayFault;
use std::alloc::{Allocator, Global};
use std::io::Read;
use suffix_routes::{Config, ConfigFault, Position};

/// How many octets a file or standard input may have.
pub(crate) const LARGEST: usize = 16_777_216;

/// The line between a script's configuration and its event lines.
const SEPARATOR: &[u8] = b"---";

/// All octets left to the reader. `Device` if reading fails or there are more than 16,777,216; at
/// most one octet more is read. `Memory` if memory ran out.
pub fn read_limited<A: Allocator, R: Read>(
    alloc: A,
    reader: &mut R,
) -> Result<Vec<u8, A>, ReplayFault>
    ensures fits { IfOk result (λ octets. vec_len octets ≤ LARGEST) }
    ensures whole { IfOk result (λ octets. IfSome (R.remaining reader.old) (λ all. octets.items ≡ all)) }
    ensures faults { IfErr result IsOfStream }
{
    let mut octets = Vec::new(alloc);
    let mut limited = reader.take(LARGEST as u64 + 1);
    limited.read_to_end(&mut octets)?;
    if octets.len() > LARGEST {
        return Err(ReplayFault::Device);
    }
    Ok(octets)
}

/// The two parts of a script.
pub struct ScriptParts<'a> {
    /// The text of the configuration.
    pub config: &'a [u8],
    /// The event lines after the first line `---`.
    pub events: &'a [u8],
}

/// A script's parts; `None` without a line `---`.
pub fn parts(script: &[u8]) -> Option<ScriptParts<'_>>
    ensures some { IfSome result (λ parts. AreParts script.now parts.config.now parts.events.now) }
    ensures none { IfNone result (HasOnePart script.now) }
{
    let mut rest = script;
    while let Some((line, after)) = first_line(rest) {
        if line == SEPARATOR {
            return Some(ScriptParts {
                config: &script[..script.len() - rest.len()],
                events: after,
            });
        }
        rest = after;
    }
    if rest == SEPARATOR {
        return Some(ScriptParts {
            config: &script[..script.len() - rest.len()],
            events: &[],
        });
    }
    None
}

/// The first line, and the text after its line feed; `None` without a line feed.
pub(crate) fn first_line(text: &[u8]) -> Option<(&[u8], &[u8])>
    ensures some { IfSome result (λ cut. (list_any is_feed cut.0.now ≡ false)
        × (text.now ≡ ended cut.0.now ++ cut.1.now)) }
    ensures none { IfNone result (list_any is_feed text.now ≡ false) }
{
    let end = first_feed(text)?;
    Some((&text[..end], &text[end + 1..]))
}

/// The place of the first line feed.
fn first_feed(text: &[u8]) -> Option<usize>
    ensures { result ≡ position is_feed text.now }
{
    text.iter().position(|octet| *octet == b'\n')
}

/// The configuration in these octets; octets that are not UTF-8 are no TOML. `heap` is for reading
/// TOML, `alloc` for everything else. `Config` if the configuration is refused, `Memory` if memory
/// ran out.
pub fn config_in<A: Allocator + Copy>(
    heap: Global,
    alloc: A,
    octets: &[u8],
) -> Result<Config<A>, ReplayFault>
    ensures read { IfOk result (λ config. IsReadIn octets.now (Ok config)) }
    ensures refused { IfErr result (IsFaultOf octets.now) }
{
    let text = match str::from_utf8(octets) {
        Ok(text) => text,
        Err(error) => {
            let position = Position::after(&octets[..error.valid_up_to()]);
            return Err(ReplayFault::Config(ConfigFault::Toml(position)));
        }
    };
    let config = Config::read(heap, alloc, text)?;
    Ok(config)
}

/// The configuration of a reader, which is read to its end. `heap` is for reading TOML, `alloc` for
/// everything else. `Device` if reading fails or there are more than 16,777,216 octets, `Config` if
/// the configuration is refused, `Memory` if memory ran out.
pub fn read_config<A: Allocator + Copy, R: Read>(
    heap: Global,
    alloc: A,
    reader: &mut R,
) -> Result<Config<A>, ReplayFault>
    ensures read { IfOk result (λ config. IfSome (R.remaining reader.old) (λ octets. IsReadIn octets (Ok config))) }
    ensures refused { IfErr result (IsFaultIn (R.remaining reader.old)) }
{
    let octets = read_limited(alloc, reader)?;
    config_in(heap, alloc, &octets)
}
