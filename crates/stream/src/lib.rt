// A stream of blocks, each after its length as one 32-bit word.

#![tactic(auto)]

ghost use Rattle.std.specs.Prelude.{◌≡◌, ◌++◌, [], ◌≤◌, length, take};
ghost use Rattle.stream.specs.Stream.{length_bytes, next_block, bytes_due};
ghost use Rattle.stream.specs.Code.{found_as};

use words::size;

pub const LENGTH_BYTES: usize = 4;

// An end of a stream: where a length is due, inside a length or its block, or at a length over the limit.
#[derive(Clone, Copy, PartialEq, Eq, Debug)]
pub enum End {
    Ended,
    Cut,
    OverLong,
}

// How many bytes are due after a length, or after what was read of it, `head`.
pub fn bytes_due(most: usize, head: &[u8]) -> usize
    ensures value { result ≡ bytes_due most head.now }
    ensures upper_bound { result ≤ most }
{
    if head.len() < LENGTH_BYTES {
        return 0;
    }
    let n = size(head, 0);
    if most < n {
        return 0;
    }
    n
}

// The part of a buffer that the bytes due after a length are to fill.
pub fn due_part<'a>(most: usize, head: &[u8], buffer: &'a mut [u8]) -> &'a mut [u8]
    requires { most ≤ length buffer.old }
    ensures result_value { result.now ≡ take (bytes_due most head.now) buffer.old }
    ensures result_len { length result.now ≡ bytes_due most head.now }
{
    let due = bytes_due(most, head);
    &mut buffer[..due]
}

// Whether the bytes read after a length are the next block of a stream, or else which end the stream has there.
pub fn next_block(most: usize, head: &[u8], block: &[u8]) -> Result<(), End>
    requires head_in_bounds { length head.now ≤ length_bytes }
    requires block_len_bound { length block.now ≤ bytes_due most head.now }
    ensures { next_block most (head.now ++ block.now) ≡ found_as result block.now }
{
    let got = head.len();
    if got == 0 {
        return Err(End::Ended);
    }
    if got < LENGTH_BYTES {
        return Err(End::Cut);
    }
    let bytes = size(head, 0);
    if most < bytes {
        return Err(End::OverLong);
    }
    if block.len() < bytes {
        return Err(End::Cut);
    }
    Ok(())
}
