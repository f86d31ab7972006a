// Files that the arguments name.
use crate::failed::Failed;
use std::fs::File;
use std::{fs, io};

fn not_read<T>(rt: &HostRuntime, path: &str, e: io::Error) -> anyhow::Result<T> {
    eprintln!(rt; "{path} is not read: {e}")?;
    Err(Failed.into())
}

pub(crate) fn read_file(rt: &HostRuntime, path: &str) -> anyhow::Result<Vec<u8>> {
    fs::read(rt, path).or_else(|e| not_read(rt, path, e))
}

pub(crate) fn open_file(rt: &HostRuntime, path: &str) -> anyhow::Result<File> {
    File::open(rt, path).or_else(|e| not_read(rt, path, e))
}
