//! The bytes of a text, from a file or from standard input.
use crate::quit::Quit;
use std::fs::File;
use std::io;
use std::io::Read;
use text::whole::MAX_BYTES;

/// The bytes of the file, or of standard input where the path is "-", but at most one more than a text may have.
/// An input that cannot be read is told of.
pub(crate) fn read(rt: &HostRuntime, path: &str) -> Result<Vec<u8>, Quit> {
    read_path(rt, path).or_else(|fault| {
        eprintln!(rt; "changeover: {path}: {fault}")?;
        Err(Quit::Told)
    })
}

fn read_path(rt: &HostRuntime, path: &str) -> io::Result<Vec<u8>> {
    if path == "-" {
        read_from(rt, rt.stdin())
    } else {
        read_from(rt, File::open(rt, path)?)
    }
}

fn read_from(rt: &HostRuntime, input: impl Read + Drop) -> io::Result<Vec<u8>> {
    let mut text = Vec::new(rt.alloc());
    // The most bytes that a text has, and one: a constant that fits.
    input.take(MAX_BYTES as u64 + 1).read_to_end(&mut text)?;
    Ok(text)
}
