//! Laws of the definitions, each the contract of a function with nothing to do.
ghost use Rattle.std.specs.Prelude.{◌≡◌, ◌+◌, ◌≤◌, ◌^◌, ℕ, List, AllPairs};
ghost use Rattle.smq_frame.specs.Framing.{AreOctets, HasOneSplit, Splits};
ghost use Rattle.smq_frame.specs.Known.{KnownFrames};
ghost use Rattle.smq_frame.specs.Stream.{Octet, values, stream_frames, EndsBefore, FramesAreOctets, FramesLie, PiecesJoin, StreamGrows};
ghost use Rattle.smq_frame.specs.Tail.{TailValue, TailFollows};

use crate::{LONGEST_PDU, LONGEST_STREAM, SHORTEST_PDU};

/// Any octets are one list of frames and one rest, and no others.
pub fn one_split()
    ensures { (octets : List ℕ) → HasOneSplit octets }
{}

/// Where octets are frames and a rest, the rest tells the tail: it waits, or the stream is broken.
pub fn frames_give_the_tail()
    ensures { (octets : List ℕ) (frames : List (List ℕ)) (rest : List ℕ) →
        Splits octets frames rest → TailFollows octets rest }
{}

/// Each frame of a stream lies there at its offset, and has the moment of its last octet.
pub fn frames_lie_in_their_stream()
    ensures { (stream : List Octet) → FramesLie stream }
{}

/// The offsets of a stream's frames ascend: each frame begins where an earlier one ends, or later,
/// and so at least 16 octets after that one's first.
pub fn offsets_ascend()
    ensures follow { (stream : List Octet) → AllPairs EndsBefore (stream_frames stream) }
    ensures apart { (stream : List Octet) →
        AllPairs (λ f g. f.offset + 16 ≤ g.offset) (stream_frames stream) }
{}

/// Where the numbers of a stream are octets, so are those of its frames.
pub fn frames_are_octets()
    ensures { (stream : List Octet) → AreOctets (values stream) → FramesAreOctets stream }
{}

/// What `frames` adds piece by piece is what the whole stream has.
pub fn stream_grows()
    ensures { (stream : List Octet) (moment : ℕ) (piece : List ℕ) →
        StreamGrows stream moment piece }
{}

/// Two pieces at one moment are the same as one.
pub fn pieces_join()
    ensures { (tail : TailValue) (moment : ℕ) (first second : List ℕ) →
        PiecesJoin tail moment first second }
{}

/// The limits, in octets: PDUs have 16 to 131,072 (SMPP 3.4, section 3, has no upper one), and a
/// stream at most 2 to the power 48.
pub fn known_limits()
    ensures shortest { SHORTEST_PDU ≡ 16 }
    ensures longest { LONGEST_PDU ≡ 131072 }
    ensures stream { LONGEST_STREAM ≡ 2 ^ 48 }
{}

/// What the definitions give for some known octets.
pub fn known_frames()
    ensures { KnownFrames }
{}
