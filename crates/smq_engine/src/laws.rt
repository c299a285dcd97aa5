//! Laws of checks, and known values of the definitions: each is the contract of a function with no body.
ghost use Rattle.std.specs.Prelude.{List};
ghost use Rattle.smq_kit.specs.declared.names.SessionId.{SessionId};
ghost use Rattle.smq_desk.specs.declared.entry.Entry.{Entry};
ghost use Rattle.smq_load.specs.declared.record.Row.{Row};
ghost use Rattle.smq_engine.specs.Known.{KnowsChecks, KnowsFailures, KnowsFaults, KnowsPlay, KnowsRuns};
ghost use Rattle.smq_engine.specs.Sessions.{IsLoadedInOrder};
ghost use Rattle.smq_engine.specs.Workers.{AreMadeOf};
ghost use Rattle.smq_engine.specs.KnownFollow.{KnowsAnswers, KnowsEndings, KnowsLines, KnowsRecords};
ghost use Rattle.smq_engine.specs.Laws.{AnswersStand, CountsAreTheView, EachIsAsked, TotalsAreRuns};

/// Where a history is made of rows, the edits by which its workers put octets into a session are what became of the session's pieces,
/// in the order of the rows.
pub fn sessions_are_loaded_in_order()
    ensures { (session : SessionId) (rows : List Row) (entries : List Entry) → (made : AreMadeOf rows entries)
        → IsLoadedInOrder session rows made.made.first.number entries }
{}

/// What is told of faults.
pub fn known_faults()
    ensures { KnowsFaults }
{}

/// What known rows come to: the refused ones, what they leave present, and their edits after those of settings; and what a run
/// that stops wrote, and tells.
pub fn known_play()
    ensures play { KnowsPlay }
    ensures runs { KnowsRuns }
    ensures failures { KnowsFailures }
{}

/// What is written of checks, whose pieces are whose, and a history that is made of known rows.
pub fn known_checks()
    ensures { KnowsChecks }
{}

/// What is said of records stands whatever comes after them, and a last answer is the report of the rows before its question.
pub fn answers_stand()
    ensures { AnswersStand }
{}

/// Each view and list, and the whole report, is asked by its name.
pub fn each_is_asked()
    ensures { EachIsAsked }
{}

/// What known records say.
pub fn known_records()
    ensures { KnowsRecords }
{}

/// How answers go by the records before each, and their lines; and what was written of known records, however their play ended.
pub fn known_answers()
    ensures answers { KnowsAnswers }
    ensures endings { KnowsEndings }
{}

/// What is written of a script is written of as many rows without a limit, and the first bad row is the same, as far as a script may go.
pub fn totals_are_runs()
    ensures { TotalsAreRuns }
{}

/// Counts by a view's column and outcome are that view: each value and outcome has as many messages as the tables count.
pub fn counts_by_a_views_column_are_the_view()
    ensures { CountsAreTheView }
{}

/// The lines where no message or no delivery receipt is present.
pub fn known_lines()
    ensures { KnowsLines }
{}
