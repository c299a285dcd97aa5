//! Laws of replies and steps: what refuses an edit, and what it leaves.
ghost use Rattle.std.specs.Prelude.{◌≡◌, ◌≢◌, ◌<◌, ◌↔◌, ◌++◌, [], ℕ, List, length, Some, None, IsTrue};
ghost use Rattle.smq_kit.specs.declared.message_id.Form.{Form};
ghost use Rattle.smq_kit.specs.declared.names.LinkId.{LinkId};
ghost use Rattle.smq_kit.specs.declared.names.RouteId.{RouteId};
ghost use Rattle.smq_kit.specs.declared.names.SessionId.{SessionId};
ghost use Rattle.smq_kit.specs.declared.refusal.Refusal.{Refusal};
ghost use Rattle.smq_kit.specs.declared.place.Dir.{Dir};
ghost use Rattle.smq_present.specs.declared.present.edit.Edit.{Edit};
ghost use Rattle.smq_present.specs.declared.present.edit.Edit.TheVariants.{Append, Withdraw, SetForm, SetWindow, AddRoute, EndRoute, CorrectRoute, Advance};
ghost use Rattle.smq_present.specs.present.Batch.{BatchValue, with_octets, continued};
ghost use Rattle.smq_present.specs.known.Present.{KnownClocks, KnownForms, KnownOctets, KnownPieces, KnownReplies, KnownRouteReplies, KnownRoutes, KnownWindows, KnownWithdrawals, waiting};
ghost use Rattle.smq_present.specs.known.Edits.{KnownEditsWithout, KnownFolds};
ghost use Rattle.smq_present.specs.known.Kept.{KnownKept};
ghost use Rattle.smq_present.specs.present.Present.{PresentValue, session_of, tail_in};
ghost use Rattle.smq_present.specs.present.Replies.{GoesAfter, IsOfEdits, reply};
ghost use Rattle.smq_present.specs.present.Steps.{Appends, AppendsCommute, AreAppendedAgain, IsAsNeverThere, LeavesNoTrace, SetsForm, SetsWindow, AddsRoute, EndsRoute, CorrectsRoute, Advances, Withdraws, change, step};
ghost use Rattle.smq_present.specs.declared.present.forms.Forms.{Forms};
ghost use Rattle.smq_present.specs.within.Equal.{forms_eq, edits_eq};
ghost use Rattle.smq_present.specs.within.EqualBatches.{batches_eq};

/// An append changes what `Appends` says, a withdrawal what `Withdraws` says, setting forms what `SetsForm` says, setting a
/// window what `SetsWindow` says, edits of routes what `AddsRoute`, `EndsRoute` and `CorrectsRoute` say, and advancing the
/// clock what `Advances` says: nothing else. A refused edit is no step.
pub fn steps_are_plain_changes()
    ensures appends { (p : PresentValue) (batch : BatchValue) →
        Appends p (change p (Append batch)) batch }
    ensures alone { (p q : PresentValue) (batch : BatchValue) →
        Appends p q batch → q ≡ change p (Append batch) }
    ensures withdraws { (p : PresentValue) (session : SessionId) →
        Withdraws p (change p (Withdraw session)) session }
    ensures alone_withdrawn { (p q : PresentValue) (session : SessionId) →
        Withdraws p q session → q ≡ change p (Withdraw session) }
    ensures sets_form { (p : PresentValue) (link : LinkId) (response receipt : Form) →
        SetsForm p (change p (SetForm link response receipt)) link response receipt }
    ensures alone_form { (p q : PresentValue) (link : LinkId) (response receipt : Form) →
        SetsForm p q link response receipt → q ≡ change p (SetForm link response receipt) }
    ensures sets_window { (p : PresentValue) (link : LinkId) (window : ℕ) →
        SetsWindow p (change p (SetWindow link window)) link window }
    ensures alone_window { (p q : PresentValue) (link : LinkId) (window : ℕ) →
        SetsWindow p q link window → q ≡ change p (SetWindow link window) }
    ensures adds_route { (p : PresentValue) (prefix : List ℕ) (from : ℕ) (route : RouteId)
        (network : List ℕ) →
        AddsRoute p (change p (AddRoute prefix from route network)) prefix from route network }
    ensures alone_added { (p q : PresentValue) (prefix : List ℕ) (from : ℕ) (route : RouteId)
        (network : List ℕ) →
        AddsRoute p q prefix from route network → q ≡ change p (AddRoute prefix from route network) }
    ensures ends_route { (p : PresentValue) (prefix : List ℕ) (from until : ℕ) →
        EndsRoute p (change p (EndRoute prefix from until)) prefix from until }
    ensures alone_ended { (p q : PresentValue) (prefix : List ℕ) (from until : ℕ) →
        EndsRoute p q prefix from until → q ≡ change p (EndRoute prefix from until) }
    ensures corrects_route { (p : PresentValue) (prefix : List ℕ) (from : ℕ) (route : RouteId)
        (network : List ℕ) →
        CorrectsRoute p (change p (CorrectRoute prefix from route network)) prefix from route network }
    ensures alone_corrected { (p q : PresentValue) (prefix : List ℕ) (from : ℕ) (route : RouteId)
        (network : List ℕ) →
        CorrectsRoute p q prefix from route network
        → q ≡ change p (CorrectRoute prefix from route network) }
    ensures advances { (p : PresentValue) (clock : ℕ) →
        Advances p (change p (Advance clock)) clock }
    ensures alone_advanced { (p q : PresentValue) (clock : ℕ) →
        Advances p q clock → q ≡ change p (Advance clock) }
    ensures made { (p : PresentValue) (edit : Edit) →
        reply p edit ≡ None → step p edit ≡ change p edit }
    ensures refused { (p : PresentValue) (edit : Edit) (refusal : Refusal) →
        reply p edit ≡ Some refusal → step p edit ≡ p }
{}

/// The refusals that edits have are those of the numbers 3 to 11: the reply to an edit is never lack of memory, nor what
/// refuses a piece while it is prepared, a value while it is made, or a call of a history.
pub fn replies_are_of_edits()
    ensures numbers { (p : PresentValue) (edit : Edit) (refusal : Refusal) →
        reply p edit ≡ Some refusal → IsOfEdits refusal }
    ensures memory { (p : PresentValue) (edit : Edit) → reply p edit ≢ Some Refusal.Memory }
{}

/// A batch that goes after its direction has no refusal, and every other has one.
pub fn batches_that_fit_are_not_refused()
    ensures { (p : PresentValue) (batch : BatchValue) →
        (reply p (Append batch) ≡ None) ↔ GoesAfter p batch }
{}

/// A session that is absent has the tail of no octets in both directions.
pub fn absent_sessions_have_no_octets()
    ensures { (p : PresentValue) (number : ℕ) (dir : Dir) →
        session_of p number ≡ None → tail_in p number dir ≡ waiting 0 [] }
{}

/// How octets are cut into pieces doesn't matter. Of two batches of one moment, the second on the tail that the first
/// leaves, the first is refused exactly where their joined batch is, with its refusal. Where the first is made and has
/// octets, the second is made too, and they leave what the joined batch leaves. Nothing is said of a second batch whose
/// first was refused. As plain changes they leave the tail of the joined batch, whatever their moments.
pub fn cutting_changes_nothing()
    ensures refused { (p : PresentValue) (batch : BatchValue) (first second : List ℕ) →
        reply p (Append (with_octets batch first))
        ≡ reply p (Append (with_octets batch (first ++ second))) }
    ensures made { (p : PresentValue) (batch : BatchValue) (first second : List ℕ) →
        0 < length first → reply p (Append (with_octets batch first)) ≡ None →
        reply (step p (Append (with_octets batch first)))
        (Append (continued batch first batch.moment second)) ≡ None }
    ensures left { (p : PresentValue) (batch : BatchValue) (first second : List ℕ) →
        0 < length first → reply p (Append (with_octets batch first)) ≡ None →
        step (step p (Append (with_octets batch first)))
        (Append (continued batch first batch.moment second))
        ≡ step p (Append (with_octets batch (first ++ second))) }
    ensures tail { (p : PresentValue) (batch : BatchValue) (first second : List ℕ) (moment : ℕ) →
        batch.tail ≡ tail_in p batch.session.0 batch.dir →
        tail_in (change (change p (Append (with_octets batch first)))
        (Append (continued batch first moment second))) batch.session.0 batch.dir
        ≡ tail_in (change p (Append (with_octets batch (first ++ second)))) batch.session.0 batch.dir }
{}

/// After a withdrawal everything is as though the session had never been: whatever edits were made before, of this session,
/// of others, of forms, of windows, of routes and of the clock, what is present is what those that aren't of the session
/// leave, and its octets can be appended again and leave what they left.
pub fn withdrawals_leave_no_trace()
    ensures trace { LeavesNoTrace }
    ensures never_there { (p : PresentValue) (session : SessionId) (edits : List Edit) →
        session_of p session.0 ≡ None → IsAsNeverThere p session edits }
    ensures again { AreAppendedAgain }
{}

/// Which of some edits are of session 10.
pub fn edits_of_a_known_session()
    ensures { KnownEditsWithout }
{}

/// What three edits come to on a new book, where the second is refused and where memory runs out at the first.
pub fn known_edits_fold()
    ensures { KnownFolds }
{}

/// Batches of different sessions are answered and leave the same, whichever is made first.
pub fn appends_of_sessions_commute()
    ensures { (p : PresentValue) (one two : BatchValue) →
        one.session ≢ two.session → AppendsCommute p one two }
{}

/// What is kept of known PDUs: their command_id, command_status and sequence_number whole, and a data_sm as what it is.
pub fn known_pdus_are_stored()
    ensures { KnownKept }
{}

/// Replies on a book of one octet: another link comes before a stale tail, and that before an earlier moment.
pub fn replies_stand_in_order()
    ensures { KnownReplies }
{}

/// Where pieces are refused on a tail near the limit of 281,474,976,710,656 octets.
pub fn pieces_are_refused_in_order()
    ensures { KnownPieces }
{}

/// What an append leaves of the book of one octet.
pub fn octets_are_put_after_their_direction()
    ensures { KnownOctets }
{}

/// What a withdrawal leaves of a book of one session with an octet in each direction.
pub fn withdrawals_of_a_known_book()
    ensures { KnownWithdrawals }
{}

/// Edits of routes on a book whose versions are written out: which are refused, in order, and what the others leave.
pub fn edits_of_known_routes()
    ensures replies { KnownRouteReplies }
    ensures left { KnownRoutes }
{}

/// Where the clock of a book is advanced: which clocks are refused, and what the others leave.
pub fn edits_of_a_known_clock()
    ensures { KnownClocks }
{}

/// The forms of a link are both verbatim until they are set. This leaves other links and octets, and an append leaves
/// forms.
pub fn forms_are_verbatim_until_set()
    ensures { KnownForms }
{}

/// The window of a link is 172,800,000 ms until it is set. This leaves other links, and all else; other edits leave windows.
pub fn windows_of_known_links()
    ensures { KnownWindows }
{}

/// `==` of forms says whether they are one.
pub fn forms_eq_is_equality()
    ensures { (a b : Forms) → IsTrue (forms_eq a b) ↔ (a ≡ b) }
{}

/// `==` of batches, and of edits, says whether they are one.
pub fn edit_eq_is_equality()
    ensures batches { (a b : BatchValue) → IsTrue (batches_eq a b) ↔ (a ≡ b) }
    ensures edits { (a b : Edit) → IsTrue (edits_eq a b) ↔ (a ≡ b) }
{}
