//! Whether orders and reports use the same file.

use std::fs::Metadata;
use std::io::{self, ErrorKind};
use std::os::unix::fs::{FileTypeExt, MetadataExt};
use std::rt::Files;

/// Whether readers of a file get the octets written to it: a regular file or a FIFO.
fn is_kept(data: &Metadata) -> bool {
    data.is_file() || data.file_type().is_fifo()
}

/// Whether two files are the same, whatever their names.
fn is_same(one: &Metadata, other: &Metadata) -> bool {
    one.dev() == other.dev() && one.ino() == other.ino()
}

/// Refuses orders and reports in one regular file or FIFO, where each report would become an order, whatever the names:
/// also links, `/dev/stdin`, `/dev/stdout`, `/dev/fd/N`. Reports without a path go to standard error.
///
/// # Errors
///
/// If they are in the same file.
pub fn keep_apart<R: Files>(rt: &R, orders: Option<&str>, reports: Option<&str>) -> io::Result<()> {
    let Some(orders) = orders else {
        return Ok(());
    };
    let Ok(source) = rt.metadata(orders) else {
        return Ok(());
    };
    let Ok(sink) = rt.metadata(reports.unwrap_or("/dev/stderr")) else {
        return Ok(());
    };
    if is_kept(&source) && is_same(&source, &sink) {
        let why = "reports can't go where orders come from";
        return Err(io::Error::new(ErrorKind::InvalidInput, why));
    }
    Ok(())
}
