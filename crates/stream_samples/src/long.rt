//! A stream of some 790,000 octets, in pieces: three of the longest messages, and 170 that are headers alone.

use dia_message::Frames;
use std::alloc::Global;

fn stream(alloc: Global) -> anyhow::Result<Vec<u8>> {
    let mut stream = Vec::new(alloc);
    for end in [262_144, 524_288, 786_432] {
        stream.extend_from_slice(&[1, 4, 0, 0, 0x80, 0, 1, 24])?;
        stream.resize(end, 0)?;
    }
    for _ in 0..170 {
        stream.extend_from_slice(&[1, 0, 0, 20])?;
        stream.extend_from_slice(&[0; 16])?;
    }
    Ok(stream)
}

/// How many messages are read of it in pieces of this length, an octet at least.
fn count_in(alloc: Global, stream: &[u8], length: usize) -> anyhow::Result<usize> {
    let mut frames = Frames::new(alloc);
    let mut count: usize = 0;
    for piece in stream.chunks(length.max(1)) {
        count = count.saturating_add(frames.feed(alloc, piece)?.len());
    }
    Ok(count)
}

/// Pieces of an octet, of a few, of more than one message, and the whole.
fn print_counts(rt: &impl Print, alloc: Global, stream: &[u8]) -> anyhow::Result<()> {
    for length in [1, 7, 1_000, 262_145, 1_000_000] {
        let count = count_in(alloc, stream, length)?;
        println!(rt; "pieces of {length} octets: {count} messages")?;
    }
    Ok(())
}

/// The stream in pieces of each length.
pub fn print_all(rt: &impl Print, alloc: Global) -> anyhow::Result<()> {
    let stream = stream(alloc)?;
    print_counts(rt, alloc, &stream)
}
