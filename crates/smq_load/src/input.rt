//! The input: a reader, read to its end within limits.
ghost use Rattle.std.specs.Prelude.{◌≡◌, ◌<◌, ◌≤◌, ◌+◌, ◌++◌};
ghost use Rattle.std.specs.Prelude.{IfErr, IfOk, IfSome, List, OnOk, Option, ℕ, true, false, length, vec_len};
ghost use Rattle.std.specs.Io.KnownBytes.{Consumes, IsAtEnd};
ghost use Rattle.smq_load.specs.Script.{may_have};

use std::alloc::{AllocError, Global};
use std::io::{ErrorKind, Read};

/// How many octets a script may have.
pub const MOST_OCTETS: usize = 268_435_456;

/// How often an input may be read, the read that finds its end among them.
const MOST_READS: u32 = 16_777_216;

/// How many octets are asked for at a time.
const CHUNK: usize = 65_536;

/// Why an input wasn't read.
#[derive(Clone, Copy, Debug, PartialEq, Eq)]
pub enum InputFault {
    /// The reader failed, or gave more octets or was read more often than it may be.
    Read,
    /// Memory ran out.
    Memory,
}

/// Reads to the end. A read that was interrupted is tried again, and counts.
pub fn read_whole<R: Read>(alloc: Global, reader: &mut R) -> Result<Vec<u8>, InputFault>
    ensures whole { IfOk result (λ octets.
        IfSome (R.remaining reader.old) (λ text. octets.items ≡ text)) }
    ensures in_range { IfOk result (λ octets. may_have (vec_len octets) ≡ true) }
    ensures at_end { OnOk result (IsAtEnd (R.remaining reader.new)) }
{
    let Ok(mut room) = zeros(alloc, CHUNK) else {
        return Err(InputFault::Memory);
    };
    read_in_chunks(alloc, reader, room.as_mut_slice())
}

/// Reads to the end, at most a chunk at a time.
fn read_in_chunks<R: Read>(
    alloc: Global,
    reader: &mut R,
    chunk: &mut [u8],
) -> Result<Vec<u8>, InputFault>
    requires { 0 < length chunk.old }
    ensures whole { IfOk result (λ octets.
        IfSome (R.remaining reader.old) (λ text. octets.items ≡ text)) }
    ensures in_range { IfOk result (λ octets. may_have (vec_len octets) ≡ true) }
    ensures at_end { OnOk result (IsAtEnd (R.remaining reader.new)) }
{
    let mut octets = Vec::new(alloc);
    for _ in 0..MOST_READS {
        if !read_chunk(reader, chunk, &mut octets)? {
            return Ok(octets);
        }
    }
    Err(InputFault::Read)
}

/// Appends what one read gives, and tells whether there may be more.
fn read_chunk<R: Read>(
    reader: &mut R,
    chunk: &mut [u8],
    octets: &mut Vec<u8>,
) -> Result<bool, InputFault>
    requires room { 0 < length chunk.old }
    requires in_range { vec_len octets.old ≤ MOST_OCTETS }
    ensures room { length chunk.new ≡ length chunk.old }
    ensures in_range { OnOk result (vec_len octets.new ≤ MOST_OCTETS) }
    ensures taken { (text : Option (List ℕ))
        → Consumes text (R.remaining reader.old) octets.old.items
        → OnOk result (Consumes text (R.remaining reader.new) octets.new.items) }
    ensures at_end { IfOk result (λ more. more ≡ false → IsAtEnd (R.remaining reader.new)) }
{
    match reader.read(chunk) {
        Ok(0) => Ok(false),
        Ok(count) => {
            append(octets, &chunk[..count])?;
            Ok(true)
        }
        Err(error) if error.kind() == ErrorKind::Interrupted => Ok(true),
        Err(_) => Err(InputFault::Read),
    }
}

/// So many octets to read into.
fn zeros(alloc: Global, count: usize) -> Result<Vec<u8>, AllocError>
    ensures { IfOk result (λ room. vec_len room ≡ count) }
{
    vec![in alloc; 0u8; count]
}

/// Appends octets, where there may be as many.
fn append(octets: &mut Vec<u8>, more: &[u8]) -> Result<(), InputFault>
    requires { vec_len octets.old ≤ MOST_OCTETS }
    ensures ok { OnOk result (octets.new.items ≡ octets.old.items ++ more.now) }
    ensures in_range { OnOk result (vec_len octets.new ≤ MOST_OCTETS) }
    ensures read { IfErr result (λ fault. fault ≡ InputFault.Read
        → may_have (vec_len octets.old + length more.now) ≡ false) }
{
    if more.len() > MOST_OCTETS - octets.len() {
        return Err(InputFault::Read);
    }
    match octets.extend_from_slice(more) {
        Ok(()) => Ok(()),
        Err(_) => Err(InputFault::Memory),
    }
}
