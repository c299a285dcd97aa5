//! Laws of octets that may be others: what is kept of a captured session stays. Each is the contract of a function with no body.
ghost use Rattle.std.specs.Prelude.{◌≡◌, ◌↔◌, List, ℕ, codes, length};
ghost use Rattle.smq_frame.specs.Stream.{Octet, values};
ghost use Rattle.smq_frame.specs.Tail.{TailValue, tail_of};
ghost use Rattle.smq_pdu.specs.Known.{other_octets, submit_octets};
ghost use Rattle.smq_present.specs.declared.present.kept.StoredPdu.{StoredPdu};
ghost use Rattle.smq_present.specs.present.Kept.{kept_pdus};
ghost use Rattle.smq_present.specs.present.Present.{PresentValue};
ghost use Rattle.smq_present.specs.present.Stream.{Keeps, last_moment};
ghost use Rattle.smq_present.specs.whole.Scratch.{scratch};
ghost use Rattle.smq_scratch.specs.Blanked.{ArePresentAlike, AreReadAlike, AreStreamsAlike, kept_at};
ghost use Rattle.smq_scratch.specs.KnownBlanked.{AreApart, StayTheSame, bind_with, data_sm_saying, deliver_saying, stream_with, submit_saying};
ghost use Rattle.smq_scratch.specs.Lines.{message_lines, receipt_lines};

/// Of two PDUs that are read alike the same is kept, wherever they stand.
pub fn pdus_read_alike_keep_the_same()
    ensures { (one other : List ℕ) (offset moment : ℕ) → AreReadAlike one other
        → kept_at offset moment one ≡ kept_at offset moment other }
{}

/// Of two streams that are read alike the same is kept: their PDUs, the tail, the last moment and
/// how many octets they have.
pub fn streams_read_alike_keep_the_same()
    ensures pdus { (stream other : List Octet) → AreStreamsAlike stream other
        → kept_pdus stream ≡ kept_pdus other }
    ensures tail { (stream other : List Octet) → AreStreamsAlike stream other
        → tail_of (values stream) ≡ tail_of (values other) }
    ensures last { (stream other : List Octet) → AreStreamsAlike stream other
        → last_moment stream ≡ last_moment other }
    ensures octets { (stream other : List Octet) → AreStreamsAlike stream other
        → length stream ≡ length other }

    // So what a session keeps of the one, it keeps of the other.
    ensures keeps { (stream other : List Octet) (tail : TailValue) (pdus : List StoredPdu) (last : ℕ)
        → AreStreamsAlike stream other
        → Keeps stream tail pdus last ↔ Keeps other tail pdus last }
{}

/// Of what is present and is read alike no figure differs: the tables are the same, and so are the
/// lines for messages and for delivery receipts.
pub fn figures_of_what_is_read_alike_are_the_same()
    ensures tables { (one other : PresentValue) → ArePresentAlike one other
        → scratch one ≡ scratch other }
    ensures messages { (one other : PresentValue) → ArePresentAlike one other
        → message_lines one ≡ message_lines other }
    ensures receipts { (one other : PresentValue) → ArePresentAlike one other
        → receipt_lines one ≡ receipt_lines other }
{}

/// Some PDUs with other octets: those in which nothing that is read differs, and those in which something does.
pub fn known_pdus_are_read_alike()
    // Another service_type, esm_class, data_coding and text.
    ensures submit { StayTheSame (submit_saying 65 0 0 (codes "hi"))
        (submit_saying 42 64 8 (codes "**")) }

    // The last digit of the destination.
    ensures destination { AreApart submit_octets other_octets }

    // The text of a message, and that of a receipt behind ` text:` and of a name that isn't read.
    ensures message { StayTheSame (deliver_saying 0 (codes "id:1 stat:UNDELIV text:hi  "))
        (deliver_saying 1 (codes "id:2 stat:DELIVRD text:**  ")) }
    ensures receipt { StayTheSame (deliver_saying 4 (codes "id:1 stat:UNDELIV a text:hi"))
        (deliver_saying 5 (codes "id:1 stat:UNDELIV * text:**")) }

    // The state that a receipt tells.
    ensures state { AreApart (deliver_saying 4 (codes "id:1 stat:UNDELIV a text:hi"))
        (deliver_saying 4 (codes "id:1 stat:DELIVRD a text:hi")) }

    // Another data_coding, and another text of a data_sm.
    ensures data_sm { StayTheSame (data_sm_saying 0 (codes "hi")) (data_sm_saying 8 (codes "**")) }
    ensures password { StayTheSame (bind_with (codes "secret")) (bind_with (codes "******")) }
{}

/// Two streams with another password and another text, and two with another moment.
pub fn known_streams_are_read_alike()
    ensures alike { AreStreamsAlike
        (stream_with 2000 (codes "secret") (submit_saying 65 0 0 (codes "hi")))
        (stream_with 2000 (codes "******") (submit_saying 42 64 8 (codes "**"))) }
    ensures moment { AreStreamsAlike
        (stream_with 2000 (codes "secret") (submit_saying 65 0 0 (codes "hi")))
        (stream_with 3000 (codes "secret") (submit_saying 65 0 0 (codes "hi"))) → ⊥ }
{}
