//! What a stream of frames begins with.
ghost use Rattle.std.specs.Prelude.{◌≡◌, ◌+◌, ◌≤◌, drop, length, take};
ghost use Rattle.eden_stream.specs.Frames.{given_length};
ghost use Rattle.eden_stream.specs.FrameLaws.{IsCutOneWay, IsPrefixFree};
ghost use Rattle.eden_stream.specs.internal.Fronts.{Begins};

/// The most bytes of a frame's body: 16 MiB.
pub const BODY_LIMIT: usize = 16_777_216;

/// What some bytes begin with.
pub(crate) enum FrameFront {
    /// A frame whose body has this many bytes.
    Whole(usize),

    /// No bytes, or a part of a frame.
    Partial,

    /// A length above 16,777,216.
    TooLong,
}

/// Returns the length that the first four bytes give.
#[tactic(auto, unfolding(crate::specs::Frames::given_length))]
fn given_length(bytes: &[u8]) -> usize
    requires { 4 ≤ length bytes.now }
    ensures { result ≡ given_length bytes.now }
{
    let (front, _) = bytes.split_at(4);
    u32::from_be_bytes([front[0], front[1], front[2], front[3]]) as usize
}

/// Returns what the bytes begin with. Looks at four of them alone.
pub(crate) fn measure_front(bytes: &[u8]) -> FrameFront
    ensures { Begins bytes.now result }
{
    if bytes.len() < 4 {
        return FrameFront::Partial;
    }
    let size = given_length(bytes);
    if size > BODY_LIMIT {
        return FrameFront::TooLong;
    }
    if bytes.len() < 4 + size {
        return FrameFront::Partial;
    }
    FrameFront::Whole(size)
}

/// Proves that a stream is cut into frames in one way. Does nothing.
///
/// No frame is a proper prefix of another.
pub fn frames_law()
    ensures one_way { IsCutOneWay }
    ensures prefix_free { IsPrefixFree }
{}
