// Bytes that are copied to a buffer, as many as a piece and the buffer hold.
ghost use Rattle.std.specs.Prelude.{◌≡◌, ◌<◌, ◌≤◌, ◌+◌, ◌-◌, ◌++◌, [], length, take, drop, min};

// Copies the bytes from `at` on, as many of them as a piece and the buffer hold.
#[tactic(auto, using(crate::proofs::Pieces::front_moved))]
pub(crate) fn copy_piece(bytes: &[u8], at: usize, piece: usize, to: &mut [u8]) -> usize
    requires { at ≤ length bytes.now }
    ensures count { result ≡ min piece (min (length bytes.now - at) (length to.old)) }
    ensures bytes { drop at bytes.now ≡ take result to.new ++ drop (at + result) bytes.now }
    ensures end { 0 < piece → result ≡ 0 → 0 < length to.new → drop (at + result) bytes.now ≡ [] }
{
    copy_front(&bytes[at..], piece, to)
}

// Copies the front of `from`, as much of it as a piece and the buffer hold.
fn copy_front(from: &[u8], piece: usize, to: &mut [u8]) -> usize
    ensures count { result ≡ min piece (min (length from.now) (length to.old)) }
    ensures bytes { take result to.new ≡ take result from.now }
{
    let count = piece.min(from.len().min(to.len()));
    to[..count].copy_from_slice(&from[..count]);
    count
}
