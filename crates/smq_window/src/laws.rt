//! Laws of the definitions, each the contract of a function with nothing to do.
ghost use Rattle.smq_window.specs.Known.{KnownBeliefs, KnownBroken, KnownExchanges, KnownHomes, KnownRows};
ghost use Rattle.smq_window.specs.Laws.{BeginsWithNone, ConservesEachPiece, FindsItsPair, HomesAreKept, RecentAfterAPiece, RecentAfterTheClock, RecentAtFirst, RecentWithout, WaitsItself};

/// No octets of a direction are lost or changed, up to a length that can't be: the PDUs that were dealt, in order, and the octets that
/// wait behind them are the octets that came.
#[tactic(auto, using(crate::proofs::Conserved::laws))]
pub fn octets_are_conserved()
    ensures first { BeginsWithNone }
    ensures each { ConservesEachPiece }
{}

/// No pair is cut: where the other half of a PDU waits in a period that is kept, it waits in the home, which is the oldest such period; where
/// it waits in none, the present period is the home; and each PDU has its home among the periods that are kept.
#[tactic(auto, using(crate::proofs::Recent::home_laws))]
pub fn pairs_are_not_cut()
    ensures found { FindsItsPair }
    ensures none { WaitsItself }
    ensures kept { HomesAreKept }
{}

/// The sessions that were made and didn't leave with their period are of periods that are kept, at first and after each row.
#[tactic(auto, using(crate::proofs::Recent::made_laws))]
pub fn sessions_are_recent()
    ensures first { RecentAtFirst }
    ensures clock { RecentAfterTheClock }
    ensures piece { RecentAfterAPiece }
    ensures withdrawn { RecentWithout }
{}

/// What the definitions give for some known PDUs and moments: a request and its response over two periods, a period that leaves, a jump
/// that is doubted and confirmed, and a bad length.
#[tactic(auto, using(crate::proofs::KnownWindows::known))]
pub fn known_windows()
    ensures exchanges { KnownExchanges }
    ensures homes { KnownHomes }
    ensures rows { KnownRows }
    ensures beliefs { KnownBeliefs }
    ensures broken { KnownBroken }
{}
