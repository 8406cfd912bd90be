//! The pieces in which memory is accessed.
ghost use Rattle.std.specs.Prelude.{◌≡◌, ◌≤◌, ◌<◌};
ghost use Rattle.ir_call_rules.specs.Pieces.{may_stand, piece_at, piece_count};

/// Whether a piece of this size may stand at an offset in `size` bytes at an alignment: it is at most the alignment, divides the
/// offset, and fits.
fn may_stand(align: u64, size: u64, offset: u64, piece: u64) -> bool
    requires size { offset < 256 }
    requires piece { piece ≤ 8 }
    requires some { 0 < piece }
    ensures { result ≡ may_stand align size offset piece }
{
    (piece <= align) & ((offset % piece == 0) & (offset + piece <= size))
}

/// The largest power of two that may stand at an offset and is at most 8.
fn piece_at(align: u64, size: u64, offset: u64) -> u64
    requires { offset < 256 }
    ensures value { result ≡ piece_at align size offset }
    ensures within { result ≤ 8 }
{
    if may_stand(align, size, offset, 8) {
        8
    } else if may_stand(align, size, offset, 4) {
        4
    } else if may_stand(align, size, offset, 2) {
        2
    } else {
        1
    }
}

/// How many pieces `size` bytes at an alignment are, at most 256 bytes.
pub(crate) fn piece_count(align: u64, size: u64) -> u64
    requires { size ≤ 256 }
    ensures { result ≡ piece_count align size }
{
    let mut count = 0;
    let mut offset = 0;
    for _done in 0..size {
        if offset >= size {
            return count;
        }
        offset += piece_at(align, size, offset);
        count += 1;
    }
    count
}
