//! Whole frames: an envelope, and a payload in it.
ghost use Rattle.std.specs.Prelude.{◌≡◌, ◌<◌, ◌↔◌, ◌++◌, length, IfOk, OnOk, MatchOption, IsTrue};
ghost use Rattle.frame_code.specs.Codes.{payload, kind_of, frame_code};
ghost use Rattle.frame_code.specs.Spelled.{HasPayload, IsSpelled};
ghost use Rattle.frame_code.specs.Fronts.{IsKind};
ghost use Rattle.log_format.specs.Wholes.{IsAll, IsNone, IsPayload, IsNoPayload};
ghost use Rattle.log_format.specs.Envelopes.{IsEnvelope};
ghost use Rattle.log_format.specs.Readings.{IsReading};

use crate::parts::Part;
use byte_words::{put_u64, take_u64};
use cdb_values::Bytes;
use frame_code::Frame;
use phys_log::Entry;
use std::alloc::{AllocError, Global};

/// What stands at the front of bytes.
#[derive(Drop)]
pub enum Reading {
    /// A frame.
    Whole {
        frame: Frame,
        /// How many bytes are its spelling.
        size: u64,
    },
    /// Less than an envelope: no byte, or a known kind with fewer bytes behind it than a length takes, or than it says.
    Short,
    /// An unknown kind, or an envelope whose payload is no frame's.
    Bad,
}

/// The bytes that stand for a frame, which has a spelling. The error is want of memory.
pub fn write_frame(alloc: Global, frame: &Frame) -> Result<Bytes, AllocError>
    requires { IsSpelled frame.now }
    ensures { IfOk result (λ b. b ≡ frame_code frame.now) }
{
    let mut payload = Vec::new(alloc);
    write_payload(alloc, &mut payload, frame)?;
    let mut out = Vec::new(alloc);
    out.push(kind_byte(frame))?;
    put_u64(&mut out, payload.len() as u64)?;
    out.extend_from_slice(payload.as_slice())?;
    Ok(Bytes::from_vec(out))
}

/// The byte of a frame's kind.
fn kind_byte(frame: &Frame) -> u8
    ensures { result ≡ kind_of frame.now }
{
    match frame {
        Frame::Header { .. } => 1,
        Frame::Promise(_) => 2,
        Frame::Accept(_) => 3,
        Frame::Entry(_) => 4,
        Frame::Cut(_) => 5,
    }
}

/// Adds a frame's payload.
fn write_payload(alloc: Global, out: &mut Vec<u8>, frame: &Frame) -> Result<(), AllocError>
    requires { HasPayload frame.now }
    ensures { OnOk result (out.new.items ≡ out.old.items ++ payload frame.now) }
{
    match frame {
        Frame::Header {
            version,
            node,
            cluster,
        } => {
            out.push(*version)?;
            out.push(*node)?;
            cluster.write(alloc, out)
        }
        Frame::Promise(generation) => put_u64(out, *generation),
        Frame::Accept(generation) => put_u64(out, *generation),
        Frame::Entry(entry) => entry.write(alloc, out),
        Frame::Cut(length) => put_u64(out, *length),
    }
}

/// What stands at the front of the bytes: a frame, less than an envelope, or neither. The error is want of memory.
pub fn read_frame(alloc: Global, bytes: &[u8]) -> Result<Reading, AllocError>
    ensures { IfOk result (λ reading. IsReading reading bytes.now) }
{
    match envelope_of(bytes) {
        Envelope::Short => Ok(Reading::Short),
        Envelope::Unknown => Ok(Reading::Bad),
        Envelope::Whole(kind, payload) => match read_payload(alloc, kind, payload)? {
            None => Ok(Reading::Bad),
            Some(frame) => Ok(Reading::Whole {
                frame,
                size: payload.len() as u64 + 9,
            }),
        },
    }
}

/// The envelope at the front of bytes.
enum Envelope<'a> {
    /// Less than one.
    Short,
    /// An unknown kind.
    Unknown,
    /// A kind, and a payload.
    Whole(u8, &'a [u8]),
}

/// Whether a byte is the kind of a frame.
fn is_kind(kind: u8) -> bool
    ensures { IsTrue result ↔ IsKind kind }
{
    1 <= kind && kind <= 5
}

/// The envelope at the front of these bytes.
fn envelope_of(bytes: &[u8]) -> Envelope<'_>
    ensures { IsEnvelope result bytes.now }
{
    let Some((kind, rest)) = bytes.split_first() else {
        return Envelope::Short;
    };
    if !is_kind(*kind) {
        return Envelope::Unknown;
    }
    let Some((size, rest)) = take_u64(rest) else {
        return Envelope::Short;
    };
    if (rest.len() as u64) < size {
        return Envelope::Short;
    }
    let (payload, _) = rest.split_at(size as usize);
    Envelope::Whole(*kind, payload)
}

/// What all of these bytes stand for; `None` exactly where they stand for nothing.
fn read_all<T: Part>(alloc: Global, bytes: &[u8]) -> Result<Option<T>, AllocError>
    ensures { IfOk result (λ found. MatchOption found (IsNone T.code T.Has bytes.now)
        (λ v. IsAll T.code T.Has v bytes.now)) }
{
    let Some((found, rest)) = T::read(alloc, bytes)? else {
        return Ok(None);
    };
    if !rest.is_empty() {
        return Ok(None);
    }
    Ok(Some(found))
}

/// The frame of a kind whose payload these bytes are; `None` exactly where there is none.
fn read_payload(alloc: Global, kind: u8, bytes: &[u8]) -> Result<Option<Frame>, AllocError>
    ensures { IfOk result (λ found. MatchOption found (IsNoPayload kind bytes.now) (λ f. IsPayload f kind bytes.now)) }
{
    match kind {
        1 => read_header(alloc, bytes),
        2 => read_promise(alloc, bytes),
        3 => read_accept(alloc, bytes),
        4 => read_entry(alloc, bytes),
        5 => read_cut(alloc, bytes),
        _ => Ok(None),
    }
}

/// A header's version, node and cluster.
type HeaderParts = (u8, (u8, u128));

/// The header whose payload these bytes are.
fn read_header(alloc: Global, bytes: &[u8]) -> Result<Option<Frame>, AllocError>
    ensures { IfOk result (λ found. MatchOption found (IsNoPayload 1 bytes.now) (λ f. IsPayload f 1 bytes.now)) }
{
    let Some(parts) = read_all::<HeaderParts>(alloc, bytes)? else {
        return Ok(None);
    };
    let (version, (node, cluster)) = parts;
    Ok(Some(Frame::Header {
        version,
        node,
        cluster,
    }))
}

/// The promise whose payload these bytes are.
fn read_promise(alloc: Global, bytes: &[u8]) -> Result<Option<Frame>, AllocError>
    ensures { IfOk result (λ found. MatchOption found (IsNoPayload 2 bytes.now) (λ f. IsPayload f 2 bytes.now)) }
{
    let Some(generation) = read_all::<u64>(alloc, bytes)? else {
        return Ok(None);
    };
    Ok(Some(Frame::Promise(generation)))
}

/// The acceptance whose payload these bytes are.
fn read_accept(alloc: Global, bytes: &[u8]) -> Result<Option<Frame>, AllocError>
    ensures { IfOk result (λ found. MatchOption found (IsNoPayload 3 bytes.now) (λ f. IsPayload f 3 bytes.now)) }
{
    let Some(generation) = read_all::<u64>(alloc, bytes)? else {
        return Ok(None);
    };
    Ok(Some(Frame::Accept(generation)))
}

/// The entry whose payload these bytes are.
fn read_entry(alloc: Global, bytes: &[u8]) -> Result<Option<Frame>, AllocError>
    ensures { IfOk result (λ found. MatchOption found (IsNoPayload 4 bytes.now) (λ f. IsPayload f 4 bytes.now)) }
{
    let Some(entry) = read_all::<Entry>(alloc, bytes)? else {
        return Ok(None);
    };
    Ok(Some(Frame::Entry(entry)))
}

/// The cut whose payload these bytes are.
fn read_cut(alloc: Global, bytes: &[u8]) -> Result<Option<Frame>, AllocError>
    ensures { IfOk result (λ found. MatchOption found (IsNoPayload 5 bytes.now) (λ f. IsPayload f 5 bytes.now)) }
{
    let Some(length) = read_all::<u64>(alloc, bytes)? else {
        return Ok(None);
    };
    Ok(Some(Frame::Cut(length)))
}
