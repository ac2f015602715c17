// The bucket of a text, and how many bytes at its front are a name that goes on, with the bucket of these.
use std::io;
use std::io::Print;

pub(crate) fn show(printer: &impl Print, text: &[u8]) -> io::Result<()> {
    let whole = hashing::bucket_of(text);
    let name = hashing::scan_name(text, 0, 0);
    let end = name.end;
    let front = hashing::bucket_at(name.hash);
    println!(printer; " is in {whole}, its first {end} in {front}")
}
