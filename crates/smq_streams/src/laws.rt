//! Laws of the definitions, each the contract of a function with nothing to do.
ghost use Rattle.std.specs.Prelude.{◌≡◌, ℕ, List};
ghost use Rattle.smq_streams.specs.Calls.{AllFit, AreStreams, Become, Call, IsNew, Tells, nothing, with_calls};
ghost use Rattle.smq_streams.specs.Direction.{Direction};
ghost use Rattle.smq_streams.specs.Framing.{IsOneFramer};
ghost use Rattle.smq_streams.specs.KnownCalls.{KnownCalls};
ghost use Rattle.smq_streams.specs.Known.{KnownCommands, KnownHeaders, KnownSights, KnownFrames};

use crate::framer::Framer;

/// At the end of the same octets one thing is known of the PDU under way, in whatever pieces they came.
pub fn one_framer()
    ensures { (octets : List ℕ) (framer other : Framer) → IsOneFramer octets framer other }
{}

/// By whatever calls, up to one that memory doesn't suffice for, each part of a direction is a beginning of the stream of the pieces that
/// came, from the part's start on: first what was passed over, which begins no PDU, then what was given. No piece has an octet between
/// two parts.
pub fn parts_are_streams()
    ensures streams { (calls : List Call) (empty d : Direction) → IsNew empty → Become nothing calls empty d
        → AreStreams (with_calls calls nothing) }
    ensures last { (calls : List Call) (empty d : Direction) → IsNew empty → Become nothing calls empty d
        → Tells (with_calls calls nothing) d }
    ensures fit { (calls : List Call) (empty d : Direction) → IsNew empty → Become nothing calls empty d
        → AllFit nothing calls }
{}

/// What the definitions say of known numbers and octets.
pub fn known_octets()
    ensures commands { KnownCommands }
    ensures headers { KnownHeaders }
    ensures sights { KnownSights }
    ensures frames { KnownFrames }
{}

/// What known calls tell of a direction.
pub fn known_calls()
    ensures { KnownCalls }
{}
