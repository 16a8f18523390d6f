//! Reading and writing whole files piece by piece.
ghost use Rattle.std.specs.Prelude.{◌≡◌, ◌≤◌, take, IfOk, IfSome, OnOk, vec_len, vec_capacity};
ghost use Rattle.std.specs.Io.{ReadsAtMost, WritesAtMost};
ghost use Rattle.std.specs.Io.KnownBytes.{Appends, ReadConsumes, WriteAppends};

use std::alloc::{AllocError, Global};
use std::io;
use std::io::{ErrorKind, Read, Write};

/// How many bytes one read asks for.
const PIECE: usize = 8192;

/// How often a call is made that a signal interrupts each time.
const TRIES: u32 = 1000;

/// One read, made again where a signal interrupts it.
fn read_piece<F: Read>(file: &mut F, buf: &mut [u8]) -> io::Result<usize>
    ensures bound { ReadsAtMost result buf.new }
    ensures bytes { ReadConsumes (F.remaining file.old) (F.remaining file.new) result buf.new }
{
    for _ in 0..TRIES {
        match file.read(buf) {
            Err(error) if error.kind() == ErrorKind::Interrupted => {}
            answer => return answer,
        }
    }
    Err(io::Error::from(ErrorKind::Interrupted))
}

/// One write, made again where a signal interrupts it.
fn write_piece<F: Write>(file: &mut F, bytes: &[u8]) -> io::Result<usize>
    ensures bound { WritesAtMost result bytes.now }
    ensures bytes { WriteAppends (F.contents file.old) (F.contents file.new) result bytes.now }
{
    for _ in 0..TRIES {
        match file.write(bytes) {
            Err(error) if error.kind() == ErrorKind::Interrupted => {}
            answer => return answer,
        }
    }
    Err(io::Error::from(ErrorKind::Interrupted))
}

/// Makes room for `more` bytes. The room doubles, but is never made for more than `most` bytes.
fn make_room(bytes: &mut Vec<u8>, more: usize, most: usize) -> Result<(), AllocError>
    ensures items { bytes.new.items ≡ bytes.old.items }
    ensures within { vec_capacity bytes.old ≤ most → vec_capacity bytes.new ≤ most }
{
    let needed = bytes.len().saturating_add(more);
    if bytes.capacity() < needed {
        let room = bytes.capacity().saturating_mul(2).max(needed).min(most);
        bytes.reserve_exact(room.saturating_sub(bytes.len()))?;
    }
    Ok(())
}

/// The bytes that a reader has left, but at most `most` of them. It takes memory for no more than
/// these and one piece.
pub(crate) fn read_up_to<F: Read>(file: &mut F, alloc: Global, most: usize) -> io::Result<Vec<u8>>
    ensures within { IfOk result (λ v. vec_len v ≤ most) }
    ensures bytes { IfOk result
        (λ v. IfSome (F.remaining file.old) (λ left. v.items ≡ take most left)) }
{
    let mut bytes = Vec::new(alloc);
    let mut piece = [0u8; PIECE];
    while bytes.len() < most {
        let asked = PIECE.min(most - bytes.len());
        let count = read_piece(file, &mut piece[..asked])?;
        if count == 0 {
            break;
        }
        make_room(&mut bytes, count, most)?;
        bytes.extend_from_slice(&piece[..count])?;
    }
    Ok(bytes)
}

/// Writes all the bytes. A piece that writes nothing is a failure.
pub(crate) fn write_whole<F: Write>(file: &mut F, bytes: &[u8]) -> io::Result<()>
    ensures { OnOk result (Appends (F.contents file.old) (F.contents file.new) bytes.now) }
{
    let mut rest = bytes;
    while !rest.is_empty() {
        let count = write_piece(file, rest)?;
        if count == 0 {
            return Err(io::Error::from(ErrorKind::WriteZero));
        }
        rest = &rest[count..];
    }
    file.flush()
}
