//! The rows, run.

use crate::comparison::differing_line;
use crate::folder::{has, names_in};
use crate::manner::{Manner, output_of};
use crate::script::Way;
use crate::tally::Tally;
use std::rt::Files;
use std::{fs, io};

/// The kind of a row, by its file.
#[derive(Clone, Copy)]
enum Kind {
    /// A script.
    Replay,
    /// A script with equal words for all lines.
    Steps,
    /// A script with equal words for all lines, and with counts of refused allocations.
    Counted,
    /// A long script, without probes.
    Long,
    /// A configuration.
    Check,
}

impl Kind {
    /// The folder of the rows of this kind.
    fn folder(self) -> &'static str {
        match self {
            Kind::Replay => "replay",
            Kind::Steps => "steps",
            Kind::Counted => "counted",
            Kind::Long => "long",
            Kind::Check => "check",
        }
    }

    /// The manners in which each row of this kind is run; its output has to be equal each time.
    fn manners(self) -> &'static [Manner] {
        match self {
            Kind::Replay => &[
                Manner::Plain,
                Manner::Stepped(Way::OwnWords),
                Manner::Stepped(Way::Narrow),
            ],
            Kind::Steps => &[Manner::Stepped(Way::SameWords)],
            Kind::Counted => &[Manner::Stepped(Way::Counted)],
            Kind::Long => &[Manner::Plain],
            Kind::Check => &[Manner::Check],
        }
    }
}

/// A folder with the rows of one kind.
#[derive(Clone, Copy)]
struct Folder<'f> {
    kind: Kind,
    path: &'f str,
    /// The names of the folder's files.
    names: &'f [String],
}

/// Runs the rows of each kind in a folder, prints each difference, and counts.
pub(crate) fn run_all<R: Files + Print + AllocGlobal + Clone + Drop>(
    rt: &R,
    folder: &str,
) -> io::Result<Tally> {
    let mut tally = Tally::default();
    let kinds = [
        Kind::Replay,
        Kind::Steps,
        Kind::Counted,
        Kind::Long,
        Kind::Check,
    ];
    for kind in kinds {
        let name = kind.folder();
        let rows = format!(in rt.alloc(); "{folder}/{name}")?;
        run_folder(rt, kind, rows.as_str(), &mut tally)?;
    }
    let rows = tally.rows;
    let differ = tally.differ;
    println!(rt; "{rows} rows, {differ} differ")?;
    Ok(tally)
}

/// Runs the rows of one kind. A folder without rows and a file without a row count as differences.
fn run_folder<R: Files + Print + AllocGlobal + Clone + Drop>(
    rt: &R,
    kind: Kind,
    path: &str,
    tally: &mut Tally,
) -> io::Result<()> {
    let names = names_in(rt, path)?;
    let names = names.as_slice();
    let folder = Folder { kind, path, names };
    let before = tally.rows;
    for name in names {
        run_file(rt, folder, name.as_str(), tally)?;
    }
    if tally.rows == before {
        println!(rt; "{path}: no rows")?;
        tally.count_difference();
    }
    Ok(())
}

/// Runs the row of a file in a folder with these names, if the file is a row.
fn run_file<R: Files + Print + AllocGlobal>(
    rt: &R,
    folder: Folder<'_>,
    name: &str,
    tally: &mut Tally,
) -> io::Result<()> {
    let path = folder.path;
    match name.split_once('.') {
        None => {
            let row = format!(in rt.alloc(); "{path}/{name}")?;
            run_row(rt, folder, row.as_str(), tally)
        }
        Some((row, "stdout" | "stderr")) if has(folder.names, row) => Ok(()),
        Some(_) => {
            println!(rt; "{path}/{name}: belongs to no row")?;
            tally.count_difference();
            Ok(())
        }
    }
}

/// Runs a row in each manner, and prints the differences from its files. Without a file
/// `NAME.stderr` the row has to end well.
fn run_row<R: Files + Print + AllocGlobal>(
    rt: &R,
    folder: Folder<'_>,
    row: &str,
    tally: &mut Tally,
) -> io::Result<()> {
    tally.count_row();
    let mut is_well = true;
    for manner in folder.kind.manners() {
        if manner.leaves_out(row) {
            continue;
        }
        is_well = is_as_expected(rt, *manner, row, folder.names)? && is_well;
    }
    if !is_well {
        tally.count_difference();
    }
    Ok(())
}

/// Runs a row in one manner, and prints the differences from its files.
fn is_as_expected<R: Files + Print + AllocGlobal>(
    rt: &R,
    manner: Manner,
    row: &str,
    names: &[String],
) -> io::Result<bool> {
    let output = output_of(rt, manner, row)?;
    let prints = prints_as_expected(rt, manner, row, names, &output.stdout)?;
    let ends = ends_as_expected(rt, manner, row, names, output.stderr.as_bytes())?;
    Ok(prints && ends)
}

/// Whether a row prints the text of its file `NAME.stdout`, which has to be there.
fn prints_as_expected<R: Files + Print + AllocGlobal>(
    rt: &R,
    manner: Manner,
    row: &str,
    names: &[String],
    text: &[u8],
) -> io::Result<bool> {
    let path = format!(in rt.alloc(); "{row}.stdout")?;
    let Some(expected) = expected_in(rt, path.as_str(), names)? else {
        println!(rt; "{path}: missing")?;
        return Ok(false);
    };
    is_expected(rt, manner, path.as_str(), &expected, text)
}

/// Whether a row ends with the text of its file `NAME.stderr`, or well without such a file.
fn ends_as_expected<R: Files + Print + AllocGlobal>(
    rt: &R,
    manner: Manner,
    row: &str,
    names: &[String],
    text: &[u8],
) -> io::Result<bool> {
    let path = format!(in rt.alloc(); "{row}.stderr")?;
    let expected = expected_in(rt, path.as_str(), names)?;
    let expected = expected.unwrap_or(Vec::new(rt.alloc()));
    is_expected(rt, manner, path.as_str(), &expected, text)
}

/// The octets of a file with expected output; `None` if the folder does not have the file.
fn expected_in<R: Files + AllocGlobal>(
    rt: &R,
    path: &str,
    names: &[String],
) -> io::Result<Option<Vec<u8>>> {
    match path.rsplit_once('/') {
        Some((_, name)) if has(names, name) => Ok(Some(fs::read(rt, path)?)),
        _ => Ok(None),
    }
}

/// Whether a text is the expected text; otherwise prints the first different line.
fn is_expected(
    rt: &impl Print,
    manner: Manner,
    path: &str,
    expected: &[u8],
    text: &[u8],
) -> io::Result<bool> {
    let Some(place) = differing_line(expected, text) else {
        return Ok(true);
    };
    let line = place.saturating_add(1);
    let wanted = line_at(expected, place);
    let given = line_at(text, place);
    let manner = manner.name();
    println!(rt;
        "{path}, {manner}: line {line} differs\n  expected {wanted:?}\n  printed  {given:?}"
    )?;
    Ok(false)
}

/// The line of a text at a place from 0, with its line feed; empty after the last, and `no text` if
/// the octets are not UTF-8.
fn line_at(text: &[u8], place: usize) -> &str {
    let mut lines = text.split_inclusive(|octet| *octet == b'\n');
    lines
        .nth(place)
        .map_or("", |line| str::from_utf8(line).unwrap_or("no text"))
}
