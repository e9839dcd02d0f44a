//! A source read to its end, and all of some bytes given to a sink.
//! Both stop at the first fault, and say what had moved by then.
ghost use Rattle.std.specs.Prelude.{◌≡◌, ◌≤◌, length, IfOk, IfErr, IfSome, OnErr, OnOk, vec_len};
ghost use Rattle.std.specs.Io.KnownBytes.{Appends, Consumes, IsAtEnd};
ghost use Rattle.io_edges.specs.Bytes.{GivesFront, HasCause};
ghost use Rattle.io_edges.specs.Count.{Rose};
ghost use Rattle.io_edges.specs.declared.whole.ReadFault.TheVariants as fault;

use crate::edges::{Failed, MOST_AT_ONCE, Sink, Source};
use std::alloc::{AllocError, Global};

/// Why a read to the end gave no bytes.
#[derive(Clone, Copy, Debug, PartialEq, Eq)]
pub enum ReadFault {
    /// The source failed before it had given more than the limit.
    Failed,
    /// The source gave more bytes than the limit.
    TooLong,
    /// There was no memory for the bytes.
    Memory,
}

impl From<Failed> for ReadFault {
    ghost from_gives = { λ _ e. e ≡ fault.Failed };

    fn from(_: Failed) -> Self {
        ReadFault::Failed
    }
}

impl From<AllocError> for ReadFault {
    ghost from_gives = { λ _ e. e ≡ fault.Memory };

    fn from(_: AllocError) -> Self {
        ReadFault::Memory
    }
}

/// All bytes that the source has left, of which there may be `limit`.
pub fn read_to_end<S: Source>(
    alloc: Global,
    source: &mut S,
    limit: usize,
) -> Result<Vec<u8>, ReadFault>
    ensures whole { IfOk result (λ bytes. IfSome (S.left source.old) (λ all. bytes.items ≡ all)) }
    ensures taken { IfOk result (λ bytes. Consumes (S.left source.old) (S.left source.new) bytes.items) }
    ensures end { OnOk result (IsAtEnd (S.left source.new)) }
    ensures within { IfOk result (λ bytes. vec_len bytes ≤ limit) }
    ensures cause { IfErr result (HasCause limit (S.faults source.old) (S.faults source.new) (S.left source.old) (S.left source.new)) }
    ensures never_falls { S.faults source.old ≤ S.faults source.new }
{
    let mut bytes = Vec::new(alloc);
    let mut buf = [0; MOST_AT_ONCE];
    loop {
        let count = source.take(&mut buf)?;
        if count == 0 {
            return Ok(bytes);
        }
        if count > limit - bytes.len() {
            return Err(ReadFault::TooLong);
        }
        bytes.extend_from_slice(&buf[..count])?;
    }
}

/// Gives the sink all of the bytes, by as many calls as it needs. A call that takes none of them is a fault.
pub fn give_all<K: Sink>(sink: &mut K, bytes: &[u8]) -> Result<(), Failed>
    ensures ok { OnOk result (Appends (K.held sink.old) (K.held sink.new) bytes.now) }
    ensures err { OnErr result (GivesFront bytes.now (K.held sink.old) (K.held sink.new)) }
    ensures failed { OnErr result (Rose (K.faults sink.old) (K.faults sink.new)) }
    ensures never_falls { K.faults sink.old ≤ K.faults sink.new }
{
    let mut given = 0;
    while given < bytes.len() {
        match sink.give(&bytes[given..]) {
            Ok(0) | Err(Failed) => return Err(Failed),
            Ok(count) => given += count,
        }
    }
    Ok(())
}
