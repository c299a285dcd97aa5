//! Laws and known values of the definitions: each is the contract of a function with no body.
ghost use Rattle.std.specs.Prelude.{ℕ, List, []};
ghost use Rattle.smq_capture.specs.Calls.{Become, Call, ComeOnce, OctetsStay};
ghost use Rattle.smq_capture.specs.Known.{KnowsConnections, KnowsMoments, KnowsNumbers};
ghost use Rattle.smq_capture.specs.KnownFlow.{KnowsFlow};
ghost use Rattle.smq_capture.specs.KnownRows.{KnowsRows};
ghost use Rattle.smq_capture.specs.KnownTops.{KnowsTops};
ghost use Rattle.smq_capture.specs.Rows.{Row};
ghost use Rattle.smq_capture.specs.Tops as tops;

use crate::side::Side;

/// Which moments are believed.
pub fn known_moments()
    ensures { KnowsMoments }
{}

/// Which sequence numbers are ahead of others or near to them, and which segments are of a connection.
pub fn known_connections()
    ensures numbers { KnowsNumbers }
    ensures connections { KnowsConnections }
{}

/// What is settled of known rows, and their parts.
pub fn known_rows()
    ensures { KnowsRows }
{}

/// Which octets of a known direction became rows, and at which moments.
pub fn known_flow()
    ensures { KnowsFlow }
{}

/// Where the octets of known packets end, and what is noted of them.
pub fn known_tops()
    ensures { KnowsTops }
{}

/// Whatever is noted and forgotten of packets that come in order, what is noted tells the place behind all octets that packets before one
/// have, where each that isn't noted any more is before that one.
pub fn tops_tell()
    ensures { (number : ℕ) (calls : List tops.Call) → tops.AreInOrder (tops.packets_in calls) → tops.KeepFrom number [] calls
        → tops.TellTops number calls }
{}

/// Whatever is put, settled and taken, of a connection's rows none is lost and none comes twice; and so it is with the octets of each end.
pub fn rows_come_once()
    ensures rows { (calls : List Call) (rows : List Row) → Become calls [] rows → ComeOnce calls rows }
    ensures octets { (side : Side) (calls : List Call) (rows : List Row) → Become calls [] rows
        → OctetsStay side calls rows }
{}
