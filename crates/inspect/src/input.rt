// The bytes of a file or of standard input, no more of them than decide that there are too many.
use std::alloc::Global;
use std::fs::File;
use std::io;
use std::io::Read;
use syntax::TEXT_LIMIT;

pub fn read_file(rt: &HostRuntime, path: &str) -> io::Result<Vec<u8>> {
    read_bounded(rt.alloc(), File::open(rt, path)?)
}

pub fn read_stdin(rt: &HostRuntime) -> io::Result<Vec<u8>> {
    read_bounded(rt.alloc(), rt.stdin())
}

// One byte above the limit is enough to refuse the text.
fn read_bounded<R: Read + Drop>(heap: Global, source: R) -> io::Result<Vec<u8>> {
    let mut bytes = Vec::new(heap);
    // `u64::try_from` would have a failure that cannot come.
    source.take(TEXT_LIMIT as u64 + 1).read_to_end(&mut bytes)?;
    Ok(bytes)
}
