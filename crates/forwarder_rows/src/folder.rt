//! The files of a folder.

use std::rt::Files;
use std::{fs, io};

/// The names of all files of a folder, in order.
pub(crate) fn names_in<R: Files + AllocGlobal + Clone + Drop>(
    rt: &R,
    folder: &str,
) -> io::Result<Vec<String>> {
    let mut names = Vec::new(rt.alloc());
    for entry in fs::read_dir(rt, folder)? {
        let entry = entry?;
        names.push(String::from_str(rt.alloc(), entry.file_name())?)?;
    }
    names.sort_unstable();
    Ok(names)
}

/// Whether there is a file of this name among the names.
pub(crate) fn has(names: &[String], wanted: &str) -> bool {
    names.iter().any(|name| name.as_str() == wanted)
}
