//! Laws of histories and seats, and of workers that load rows side by side.
ghost use Rattle.std.specs.Prelude.{◌≡◌, ◌≤◌, ◌<◌, ◌↔◌, ℕ, List};
ghost use Rattle.smq_desk.specs.declared.entry.Entry.{Entry};
ghost use Rattle.smq_desk.specs.Closing.{AgreeAt, AgreeUpTo, FailsFirstAt};
ghost use Rattle.smq_desk.specs.History.{StartsWith};
ghost use Rattle.smq_desk.specs.Seats.{SeatValue};
ghost use Rattle.smq_desk.specs.Known.{KnownHistory};
ghost use Rattle.smq_desk.specs.KnownLedgers.{KnownCalls, KnownCloses, KnownLedgers};
ghost use Rattle.smq_desk.specs.Interleaving.{InterleavingsAgree};
ghost use Rattle.smq_desk.specs.KnownLoads.{KnownInterleavings, KnownLoads, KnownSchedules, KnownSeatLoads};
ghost use Rattle.smq_desk.specs.Loads.{LoadsAreAsOfOneThread, SeatsLoadAsOneThread};
ghost use Rattle.smq_desk.specs.Schedules.{SchedulesEndAsOneThread};
ghost use Rattle.smq_desk.specs.KnownJobs.{KnownPuts, KnownRows, KnownJob};
ghost use Rattle.smq_desk.specs.declared.history.TheConstants.{CHUNK_LENGTH};
ghost use Rattle.smq_desk.specs.declared.ledger.TheConstants.{LONGEST_HISTORY, MOST_SEATS};
ghost use Rattle.smq_desk.specs.declared.board.TheConstants.{MOST_WATCHERS};

/// Seats agree with a history up to a number exactly where they agree at each number up to it. So the first number up to which
/// they don't, by which a desk is told as torn, is the least at which they don't.
pub fn seats_agree_up_to_where_they_agree_at_each()
    ensures each { (seats : List SeatValue) (entries : List Entry) (number : ℕ)
        → AgreeUpTo seats entries number ↔ ((n : ℕ) → n ≤ number → AgreeAt seats entries n) }
    ensures least { (seats : List SeatValue) (entries : List Entry) (number : ℕ)
        → FailsFirstAt (AgreeUpTo seats entries) number
        ↔ (((n : ℕ) → n < number → AgreeAt seats entries n) × (AgreeAt seats entries number → ⊥)) }
{}

/// A history begins with itself, and with all that its beginnings begin with. So each of a watcher's editions begins with all that
/// came before it, where each begins with the one before.
pub fn beginnings_are_passed_on()
    ensures itself { (entries : List Entry) → StartsWith entries entries }
    ensures passed_on { (entries first earlier : List Entry)
        → StartsWith entries first → StartsWith first earlier → StartsWith entries earlier }
{}

/// A history that is written out: its replies, what it leaves present, and the calls of its seats.
#[tactic(auto, unfolding(crate::specs::Seats::holders))]
pub fn known_history()
    ensures { KnownHistory }
{}

/// Ledgers of that history: how entries are numbered, which calls of a seat are among them, and which seats don't close a desk.
pub fn known_ledgers()
    ensures ledgers { KnownLedgers }
    ensures calls { KnownCalls }
    ensures closes { KnownCloses }
{}

/// A job of two rows that is written out: which edits put a row's octets, what the rows made, and what a worker makes of the job.
pub fn known_job()
    ensures puts { KnownPuts }
    ensures rows { KnownRows }
    ensures job { KnownJob }
{}

/// A history has at most 1,048,576 entries, a chunk of it 1,024, a desk 65,536 seats, and its board places for 64 watchers.
pub fn known_limits()
    ensures chunk { CHUNK_LENGTH ≡ 1024 }
    ensures entries { LONGEST_HISTORY ≡ 1048576 }
    ensures seats { MOST_SEATS ≡ 65536 }
    ensures watchers { MOST_WATCHERS ≡ 64 }
{}

/// Workers that each do a list of rows end as one thread does that does the lists one after the other, in whatever order their
/// steps fall, where no session is in two lists: what is present is the same, and each row is answered the same.
pub fn schedules_end_as_one_thread()
    ensures { SchedulesEndAsOneThread }
{}

/// What edits leave, and what each of them is answered, depends on the order of each session's edits and on that of the edits of
/// what is set alone. How these are interleaved doesn't matter.
pub fn interleavings_agree()
    ensures { InterleavingsAgree }
{}

/// Where the entries of a legal history from one point to another load lists of rows, from whatever seats and in whatever order of
/// the lists, no session is in two lists, and no other entry between edits a session of theirs, what is present then is what one
/// thread leaves that does the lists one after the other, after all other edits up to there.
pub fn loads_are_as_of_one_thread()
    ensures { LoadsAreAsOfOneThread }
{}

/// The same from what seats keep: the entries of a legal history are the calls of some seats, and each list of rows was loaded from
/// one of these, by those of its calls that are among the entries from one point to another.
pub fn seats_load_as_one_thread()
    ensures { SeatsLoadAsOneThread }
{}

/// Two schedules of two workers that are written out, and what they come to.
pub fn known_schedules()
    ensures { KnownSchedules }
{}

/// A history in which their rows were loaded, and histories in which they weren't; and the same of a seat's calls.
pub fn known_loads()
    ensures entries { KnownLoads }
    ensures seats { KnownSeatLoads }
{}

/// Edits that are interleaved otherwise, and edits that aren't.
pub fn known_interleavings()
    ensures { KnownInterleavings }
{}
