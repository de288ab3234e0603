// Reading the stream of stored cases: numbers, high byte first, and runs of bytes. Where the input ends early, zeros are read.
// A case is the byte C and its calls; the byte E ends the stream.
// The calls, each a mark and what stands behind it (n, more, scale and size are four bytes wide, length and start eight, count two, mode one):
//   F                          the fresh state
//   S n bytes length mode      a state made by hand: these stored bytes, then zeros; its length; its mode
//   L n bytes                  load
//   Q scale count queues       query, each queue four bytes wide
//   P n bytes                  poll
//   W size start               write into a buffer of this size
//   T n bytes                  listing
//   M n more bytes             comparison: a certificate of n bytes, and one of `more` bytes behind it
#![tactic(auto)]

ghost use Rattle.std.specs.Prelude.{◌≡◌, ◌≤◌, IfOk, IfSome, length};
ghost use Rattle.std.specs.Io.KnownBytes.{Consumes};
ghost use Rattle.case_input.specs.Limits.{IsWithinLimits, HasCallWithinLimits};

use std::io::{self, ErrorKind, Read};

// The most bytes and queues that a call has, and the largest buffer that it is lent.
pub const MOST_BYTES: usize = 40960;

pub const MOST_QUEUES: usize = 64;

pub const MOST_LENT: usize = 49152;

// The room that a caller lends: the bytes and queues of the call that is read lie in it.
#[derive(Clone, Copy)]
pub struct Room {
    pub bytes: [u8; MOST_BYTES],
    pub queues: [u32; MOST_QUEUES],
}

// One call as the stream has it, with what stands behind its mark. An enum has no ghost field, so that its parts are within the limits
// stands at each function that reads one.
#[derive(Clone, Copy, Debug, PartialEq, Eq)]
pub enum Call<'a> {
    Fresh,
    State {
        bytes: &'a [u8],
        length: usize,
        mode: u8,
    },
    Load(&'a [u8]),
    Query {
        scale: u32,
        queues: &'a [u32],
    },
    Poll(&'a [u8]),
    Write {
        size: usize,
        start: usize,
    },
    List(&'a [u8]),
    Compare {
        first: &'a [u8],
        second: &'a [u8],
    },
}

// What stands next in the stream.
#[derive(Clone, Copy, Debug, PartialEq, Eq)]
pub enum Item<'a> {
    Case,
    Call(Call<'a>),
    End,
}

// The next byte, or 0 where the input has ended.
fn octet(input: &mut impl Read) -> io::Result<u8> {
    input.bytes().next().unwrap_or(Ok(0))
}

// The bytes of a number: zeros where the input ends within it.
fn octets<const N: usize>(input: &mut impl Read) -> io::Result<[u8; N]> {
    let mut bytes = [0; N];
    for byte in &mut bytes {
        *byte = octet(input)?;
    }
    Ok(bytes)
}

// A number of four bytes as a count.
fn count(input: &mut impl Read) -> io::Result<usize> {
    Ok(u32::from_be_bytes(octets(input)?) as usize)
}

// A place or a length.
fn place(input: &mut impl Read) -> io::Result<usize> {
    Ok(u64::from_be_bytes(octets(input)?) as usize)
}

// The next bytes, as many as there is room for, where the input has them all.
fn exactly<'a, R: Read>(input: &mut R, bytes: &'a mut [u8]) -> io::Result<Option<&'a [u8]>>
    ensures { IfOk result (λ read. IfSome read (λ filled.
        (length filled.now ≡ length bytes.old) × Consumes (R.remaining input.old) (R.remaining input.new) filled.now)) }
{
    match input.read_exact(bytes) {
        Ok(()) => Ok(Some(bytes)),
        Err(e) if e.kind() == ErrorKind::UnexpectedEof => Ok(None),
        Err(e) => Err(e),
    }
}

// A count and so many bytes.
fn counted<'a>(
    input: &mut impl Read,
    room: &'a mut [u8; MOST_BYTES],
) -> io::Result<Option<&'a [u8]>>
    ensures { IfOk result (λ read. IfSome read (λ bytes. length bytes.now ≤ MOST_BYTES)) }
{
    let n = count(input)?;
    if n > MOST_BYTES {
        return Ok(None);
    }
    exactly(input, &mut room[..n])
}

// S: bytes, a length, a mode.
fn read_state<'a>(
    input: &mut impl Read,
    room: &'a mut [u8; MOST_BYTES],
) -> io::Result<Option<Call<'a>>>
    ensures { IfOk result (λ read. IfSome read IsWithinLimits) }
{
    let stored = counted(input, room)?;
    let length = place(input)?;
    let mode = octet(input)?;
    Ok(stored.map(|bytes| Call::State {
        bytes,
        length,
        mode,
    }))
}

// Q: a scale, a count and so many queues.
fn read_query<'a>(
    input: &mut impl Read,
    room: &'a mut [u32; MOST_QUEUES],
) -> io::Result<Option<Call<'a>>>
    ensures { IfOk result (λ read. IfSome read IsWithinLimits) }
{
    let scale = u32::from_be_bytes(octets(input)?);
    let n = usize::from(u16::from_be_bytes(octets(input)?));
    if n > MOST_QUEUES {
        return Ok(None);
    }
    let queues = &mut room[..n];
    for queue in &mut *queues {
        *queue = u32::from_be_bytes(octets(input)?);
    }
    Ok(Some(Call::Query { scale, queues }))
}

// W: the size of the buffer, and a start.
fn read_write<'a>(input: &mut impl Read) -> io::Result<Option<Call<'a>>>
    ensures { IfOk result (λ read. IfSome read IsWithinLimits) }
{
    let size = count(input)?;
    let start = place(input)?;
    Ok((size <= MOST_LENT).then_some(Call::Write { size, start }))
}

// M: two counts and so many bytes.
fn read_comparison<'a>(
    input: &mut impl Read,
    room: &'a mut [u8; MOST_BYTES],
) -> io::Result<Option<Call<'a>>>
    ensures { IfOk result (λ read. IfSome read IsWithinLimits) }
{
    let n = count(input)?;
    let more = count(input)?;
    if n > MOST_BYTES || more > MOST_BYTES - n {
        return Ok(None);
    }
    let Some(both) = exactly(input, &mut room[..n + more])? else {
        return Ok(None);
    };
    let (first, second) = both.split_at(n);
    Ok(Some(Call::Compare { first, second }))
}

// The call of a mark.
fn read_call<'a>(
    input: &mut impl Read,
    room: &'a mut Room,
    mark: u8,
) -> io::Result<Option<Call<'a>>>
    ensures { IfOk result (λ read. IfSome read IsWithinLimits) }
{
    match mark {
        b'F' => Ok(Some(Call::Fresh)),
        b'S' => read_state(input, &mut room.bytes),
        b'L' => Ok(counted(input, &mut room.bytes)?.map(Call::Load)),
        b'Q' => read_query(input, &mut room.queues),
        b'P' => Ok(counted(input, &mut room.bytes)?.map(Call::Poll)),
        b'W' => read_write(input),
        b'T' => Ok(counted(input, &mut room.bytes)?.map(Call::List)),
        b'M' => read_comparison(input, &mut room.bytes),
        _ => Ok(None),
    }
}

// What stands next in the stream, or none where it does not go on as it must. The bytes or queues of a call are read into the room.
pub fn read_item<'a>(input: &mut impl Read, room: &'a mut Room) -> io::Result<Option<Item<'a>>>
    ensures { IfOk result (λ read. IfSome read HasCallWithinLimits) }
{
    match octet(input)? {
        b'C' => Ok(Some(Item::Case)),
        b'E' => Ok(Some(Item::End)),
        mark => Ok(read_call(input, room, mark)?.map(Item::Call)),
    }
}

#[cfg(test)]
mod tests;
