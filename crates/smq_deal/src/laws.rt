//! What holds of parts, whatever the rule.
ghost use Rattle.std.specs.Prelude.{ℕ, max, Bool, List, Option, Vec};
ghost use Rattle.std.specs.Global.{Global};
ghost use Rattle.smq_frame.specs.Frame.{FrameValue};
ghost use Rattle.smq_frame.specs.Stream.{Octet};
ghost use Rattle.smq_kit.specs.declared.message_id.Key.{Key};
ghost use Rattle.smq_kit.specs.declared.names.LinkId.{LinkId};
ghost use Rattle.smq_present.specs.declared.pairing.pairs.SessionForms.{SessionForms};
ghost use Rattle.smq_present.specs.declared.present.kept.StoredPdu.{StoredPdu};
ghost use Rattle.smq_present.specs.declared.present.session.Session.{Session};
ghost use Rattle.smq_present.specs.join.Lines.{MessageLineValue, ReceiptLineValue};
ghost use Rattle.smq_present.specs.present.Present.{PresentValue};
ghost use Rattle.smq_deal.specs.declared.direction_rows.Origin.{Origin};
ghost use Rattle.smq_deal.specs.declared.head.Head.{Head};
ghost use Rattle.smq_deal.specs.declared.head.Setting.{Setting};
ghost use Rattle.smq_kit.specs.declared.link_key.LinkKey.{LinkKey};
ghost use Rattle.smq_deal.specs.Known.{KnownMoments, KnownOpen, KnownOutcomes, KnownParts, KnownSettled, KnownStandings, KnownUnanswered, KnownWindows};
ghost use Rattle.smq_deal.specs.KnownTexts.{KnownDirections, KnownEdits, KnownHead, KnownRows, KnownSets, KnownSettings};
ghost use Rattle.smq_deal.specs.Open.{settled_by};
ghost use Rattle.smq_present.specs.present.Settings.{SettingsValue};
ghost use Rattle.smq_deal.specs.Parts.{by_key, CountsAddUp, IsBelow, KeepsAllKeys, KeepsAllPairs, ListsAddUp, RuleValue};

/// Whatever the rule, no request is parted from its response, and no accepted message or delivery receipt from another of its link that has its
/// key. So counts and lists of the parts add (`counts_deal_by_key`, `lists_deal_by_key` of smq_present).
pub fn parts_keep_pairs_and_keys()
    ensures pairs { (rule : RuleValue) → KeepsAllPairs rule }
    ensures keys { (rule : RuleValue) → KeepsAllKeys rule }
{}

/// Where all parts of a rule are below a number, each count of what is present is the sum of the counts of so many parts; and each list is
/// as long as those of the parts together, but that of the places where directions are broken: no PDU stands there, so none is dealt.
pub fn counts_of_parts_add()
    ensures counts { (n : ℕ) (rule : RuleValue) → IsBelow n rule → CountsAddUp n rule }
    ensures lists { (n : ℕ) (rule : RuleValue) → IsBelow n rule → ListsAddUp n rule }
{}

/// Parts by key are below their number, and what is settled and the rest are two.
pub fn parts_are_few()
    ensures by_key { (parts : ℕ) → IsBelow (max 1 parts) (by_key parts) }
    ensures settled { (s : SettingsValue) (now : ℕ) (has : LinkKey → Bool) → IsBelow 2 (settled_by s now has) }
{}

/// Parts, and outcomes of messages, that are written out.
pub fn known_parts()
    ensures parts { KnownParts }
    ensures outcomes { KnownOutcomes }
{}

/// What isn't settled, written out.
pub fn known_settlement()
    ensures standings { KnownStandings }
    ensures windows { (s : SettingsValue) (link : LinkId) → KnownWindows s link }
    ensures moments { (p : PresentValue) (e : ℕ × Session) → KnownMoments p e }
    ensures settled { (s : SettingsValue) (has : LinkKey → Bool) (key : LinkKey) (source : SessionForms)
        → KnownSettled s has key source }
    ensures open { (s : SettingsValue) (now : ℕ) (m : MessageLineValue) (r : ReceiptLineValue) (key : Key)
        → KnownOpen s now m r key }
    ensures unanswered { (s : SettingsValue) (now : ℕ) (source : SessionForms) (other earlier : List StoredPdu) (p q : StoredPdu)
        → KnownUnanswered s now source other earlier p q }
{}

/// Rows of parts, written out.
pub fn known_rows()
    ensures rows { (one two : FrameValue) → KnownRows one two }
    ensures directions { (e : ℕ × Session) (o : Origin) (stream : List Octet) → KnownDirections e o stream }
    ensures settings { KnownSettings }
    ensures edits { (made : Option Setting) → KnownEdits made }
    ensures sets { (row : Vec ℕ Global) → KnownSets row }
    ensures head { (head : Head) → KnownHead head }
{}
