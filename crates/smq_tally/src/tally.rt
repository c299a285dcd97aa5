//! A tally: facts and notes as they come and go, with their tables at each step.
ghost use Rattle.std.specs.Prelude.{◌≡◌, ◌≤◌, ◌+◌, ◌*◌, None, Some, IsSome, IsTrue, IfOk, OnOk, OnErr, option_map};
ghost use Rattle.std.specs.List.{list_any};
ghost use Rattle.std.specs.Option.{option_to_list};
ghost use Rattle.std.specs.FinMap as fin;
ghost use Rattle.smq_shelf.specs.Shown.{touched};
ghost use Rattle.smq_tally.specs.Lists.{listed};
ghost use Rattle.smq_tally.specs.Tables.{tables_of};
ghost use Rattle.smq_tally.specs.Tally.{opening_tally, held_in};
ghost use Rattle.smq_tally.specs.within.Kept.{facts_in};
ghost use Rattle.smq_tally.specs.within.ListOrder.{lists, takes_facts};

use crate::noted::NotedTables;
use crate::packed_fact::PackedFact;
use crate::{Fact, List, Listed, Outcome, Tables};
use smq_kit::Place;
use smq_shelf::Kept;
use std::alloc::{AllocError, Global};
use std::marker::Model;

/// Facts, each at its place, and places that were noted in lists. `undo` brings back those of the last `settle`. Its
/// touches are those of the shelf that has the facts.
#[derive(Drop)]
pub struct Tally {
    alloc: Global,
    facts: Kept<Place, PackedFact>,
    tables: NotedTables,
}

impl Model for Tally {
    ghost use Rattle.smq_tally.specs.Tally.{TallyValue, tally_code};
    ghost use Rattle.smq_tally.specs.within.Kept.{facts_in, Tallies};

    ghost Value = { TallyValue };

    ghost coded = { tally_code };

    ghost view = { λ t. record {
      facts = facts_in t.facts.content;
      notes = t.tables.notes;
      settled = record { facts = facts_in t.facts.settled; notes = t.tables.settled_notes };
      touches = t.facts.touches;
      pending = t.facts.pending;
    } };

    ghost invariant = { λ t. Tallies (facts_in t.facts.content) (facts_in t.facts.settled)
        t.tables.notes t.tables.settled_notes t.tables.shown t.tables.settled };
}

impl Tally {
    /// A tally of nothing.
    pub fn new(alloc: Global) -> Tally
        ensures { result ≡ opening_tally }
    {
        Tally {
            alloc,
            facts: Kept::new(alloc),
            tables: NotedTables::new(alloc),
        }
    }

    /// Whether it has a fact of a place.
    #[tactic(auto, using(crate::proofs::Held::fact_found, crate::proofs::Stored::copied_some))]
    pub fn has_fact(&mut self, place: Place) -> bool
        ensures value { result ≡ fin.contains_key self.old.facts place }
        ensures held { held_in self.new ≡ held_in self.old }
        ensures settled { self.new.settled ≡ self.old.settled }
        ensures pending { self.new.pending ≡ self.old.pending }
        ensures touches { self.new.touches ≤ self.old.touches + 1 }
        ensures counted { self.old.touches ≤ self.new.touches }
    {
        self.facts.get(&place).is_some()
    }

    /// Takes one fact more, of a place that has none yet. An error leaves facts and notes as they were.
    #[tactic(auto, using(crate::proofs::Held::kept_put))]
    pub fn add(&mut self, fact: Fact) -> Result<(), AllocError>
        requires absent { fin.get self.old.facts fact.place ≡ None }
        ensures ok { OnOk result (self.new.facts ≡ fin.insert self.old.facts fact.place fact) }
        ensures notes { self.new.notes ≡ self.old.notes }
        ensures err { OnErr result (self.new.facts ≡ self.old.facts) }
        ensures settled { self.new.settled ≡ self.old.settled }
        ensures pending { self.new.pending ≤ self.old.pending + 1 }
        ensures touches { self.new.touches ≤ self.old.touches + 2 }
        ensures ok_touches { OnOk result (self.new.touches ≤ self.old.touches + 1) }
        ensures touched { OnOk result (touched self.old.touches ≤ self.new.touches) }
        ensures counted { self.old.touches ≤ self.new.touches }
    {
        let kept = PackedFact::of(self.alloc, fact.copy())?;
        // For the proof: there are fewer places than addresses.
        let _ = self.facts.place_count();
        self.facts.set(fact.place, kept)?;
        if let Err(error) = self.tables.add_fact(&fact) {
            self.facts.take_back();
            return Err(error);
        }
        Ok(())
    }

    /// Takes the fact of a place out, which is there. An error leaves facts and notes as they were.
    #[tactic(auto, using(crate::proofs::Held::is_counted, crate::proofs::Held::fact_taken))]
    pub fn remove(&mut self, place: Place) -> Result<(), AllocError>
        requires there { IsSome (fin.get self.old.facts place) }
        ensures ok { OnOk result (self.new.facts ≡ fin.remove self.old.facts place) }
        ensures notes { self.new.notes ≡ self.old.notes }
        ensures err { OnErr result (self.new.facts ≡ self.old.facts) }
        ensures settled { self.new.settled ≡ self.old.settled }
        ensures pending { self.new.pending ≤ self.old.pending + 1 }
        ensures touches { self.new.touches ≤ self.old.touches + 4 }
        ensures ok_touches { OnOk result (self.new.touches ≤ self.old.touches + 3) }
        ensures touched { OnOk result (touched self.old.touches ≤ self.new.touches) }
        ensures counted { self.old.touches ≤ self.new.touches }
    {
        let Some(fact) = fact_at(&mut self.facts, &place) else {
            return Ok(());
        };
        self.facts.remove(&place)?;
        if let Err(error) = self.tables.remove_fact(&fact) {
            self.facts.take_back();
            return Err(error);
        }
        Ok(())
    }

    /// Sets the fact of its place, in the place of one that is there, and gives that one's outcome: a look-up, and one
    /// change of the facts. It costs the look-up alone where that one is equal, and no change of a list where both are in
    /// the same. An error brings back what it held when it was last settled, or made.
    pub fn set(&mut self, fact: Fact) -> Result<Option<Outcome>, AllocError>
        ensures before { IfOk result (λ before.
            before ≡ option_map (λ f. f.outcome) (fin.get self.old.facts fact.place)) }
        ensures ok { OnOk result (self.new.facts ≡ fin.insert self.old.facts fact.place fact) }
        ensures notes { OnOk result (self.new.notes ≡ self.old.notes) }
        ensures err { OnErr result (held_in self.new ≡ self.old.settled) }
        ensures settled { self.new.settled ≡ self.old.settled }
        ensures pending { self.new.pending ≤ self.old.pending + 1 }
        ensures err_pending { OnErr result (self.new.pending ≡ 0) }
        ensures touches { self.new.touches ≤ self.old.touches + 2 + self.old.pending + 1 }
        ensures ok_touches { OnOk result (self.new.touches ≤ self.old.touches + 2) }
        ensures touched { OnOk result (touched self.old.touches ≤ self.new.touches) }
        ensures counted { self.old.touches ≤ self.new.touches }
    {
        let before = self.look_up(fact.place);
        let outcome = before.as_ref().map(|fact| fact.outcome);
        self.replace(&before, fact)?;
        Ok(outcome)
    }

    /// A copy of the fact of a place, if it has one: a look-up.
    pub fn look_up(&mut self, place: Place) -> Option<Fact>
        ensures value { result ≡ fin.get self.old.facts place }
        ensures held { held_in self.new ≡ held_in self.old }
        ensures settled { self.new.settled ≡ self.old.settled }
        ensures pending { self.new.pending ≡ self.old.pending }
        ensures touched { self.new.touches ≡ touched self.old.touches }
        ensures touches { self.new.touches ≤ self.old.touches + 1 }
        ensures counted { self.old.touches ≤ self.new.touches }
    {
        fact_at(&mut self.facts, &place)
    }

    /// Sets the fact of its place, in the place of the one that was looked up there: one change of the facts. It costs nothing
    /// where that one is equal, and no change of a list where both are in the same. An error brings back what it held when it
    /// was last settled, or made.
    #[tactic(auto, using(crate::proofs::Held::fact_same))]
    pub fn replace(&mut self, before: &Option<Fact>, fact: Fact) -> Result<(), AllocError>
        requires before { before.now ≡ fin.get self.old.facts fact.place }
        ensures ok { OnOk result (self.new.facts ≡ fin.insert self.old.facts fact.place fact) }
        ensures notes { OnOk result (self.new.notes ≡ self.old.notes) }
        ensures err { OnErr result (held_in self.new ≡ self.old.settled) }
        ensures settled { self.new.settled ≡ self.old.settled }
        ensures pending { self.new.pending ≤ self.old.pending + 1 }
        ensures err_pending { OnErr result (self.new.pending ≡ 0) }
        ensures touches { self.new.touches ≤ self.old.touches + 1 + self.old.pending + 1 }
        ensures ok_touches { OnOk result (self.new.touches ≤ self.old.touches + 1) }
        ensures counted { self.old.touches ≤ self.new.touches }
    {
        if is_same(before, &fact) {
            return Ok(());
        }
        if let Err(error) = put(self.alloc, &mut self.facts, &mut self.tables, before, fact) {
            undo_all(&mut self.facts, &mut self.tables);
            return Err(error);
        }
        Ok(())
    }

    /// Notes a place in a list. A place that is noted there already stays. An error changes nothing.
    pub fn note(&mut self, list: List, place: Place) -> Result<(), AllocError>
        ensures ok { OnOk result (self.new ≡ record self.old {
          notes = fin.insert self.old.notes (listed list place) tt;
        }) }
        ensures err { OnErr result (self.new ≡ self.old) }
    {
        self.tables.note(Listed { list, place })?;
        Ok(())
    }

    /// Whether a place is noted in a list.
    pub fn is_noted(&self, list: List, place: Place) -> bool
        ensures { result ≡ fin.contains_key self.now.notes (listed list place) }
    {
        self.tables.is_noted(&Listed { list, place })
    }

    /// Takes a note out, if it is there: its place is in the list no more, unless a fact puts it there. Only where facts
    /// put places into that list is the fact looked up. An error changes nothing but the touches.
    pub fn forget(&mut self, list: List, place: Place) -> Result<(), AllocError>
        ensures ok { OnOk result (self.new.notes ≡ fin.remove self.old.notes (listed list place)) }
        ensures facts { self.new.facts ≡ self.old.facts }
        ensures err { OnErr result (self.new.notes ≡ self.old.notes) }
        ensures settled { self.new.settled ≡ self.old.settled }
        ensures pending { self.new.pending ≡ self.old.pending }
        ensures touches { self.new.touches ≤ self.old.touches + 1 }
        ensures counted { self.old.touches ≤ self.new.touches }
    {
        let note = Listed { list, place };
        let stays = is_listed(&mut self.facts, &note);
        self.tables.forget(&note, stays)?;
        Ok(())
    }

    /// The tables of what it holds. It takes no memory.
    pub fn tables(&self) -> &Tables
        ensures { result.now.shown ≡ tables_of self.now.facts self.now.notes }
    {
        self.tables.tables()
    }

    /// How often its shelf was touched.
    pub fn touches(&self) -> u64
        ensures { result ≡ self.now.touches }
    {
        self.facts.touches()
    }

    /// Brings back what it held when it was last settled, or made. It takes no memory.
    pub fn undo(&mut self)
        ensures held { held_in self.new ≡ self.old.settled }
        ensures settled { self.new.settled ≡ self.old.settled }
        ensures pending { self.new.pending ≡ 0 }
        ensures touches { self.new.touches ≤ self.old.touches + self.old.pending }
        ensures counted { self.old.touches ≤ self.new.touches }
    {
        undo_all(&mut self.facts, &mut self.tables);
    }

    /// Makes what it holds what `undo` brings back. It takes no memory.
    pub fn settle(&mut self)
        ensures held { held_in self.new ≡ held_in self.old }
        ensures settled { self.new.settled ≡ held_in self.old }
        ensures pending { self.new.pending ≡ 0 }
        ensures touches { self.new.touches ≤ self.old.touches + 2 * self.old.pending }
        ensures counted { self.old.touches ≤ self.new.touches }
    {
        self.facts.settle();
        self.tables.settle();
    }
}

// A copy of the fact at a place.
#[tactic(auto, using(crate::proofs::Held::fact_found))]
fn fact_at(facts: &mut Kept<Place, PackedFact>, place: &Place) -> Option<Fact>
    ensures value { result ≡ fin.get (facts_in facts.old.content) place.now }
    ensures content { facts.new.content ≡ facts.old.content }
    ensures settled { facts.new.settled ≡ facts.old.settled }
    ensures past { facts.new.past ≡ facts.old.past }
    ensures pending { facts.new.pending ≡ facts.old.pending }
    ensures touched { facts.new.touches ≡ touched facts.old.touches }
    ensures touches { facts.new.touches ≤ facts.old.touches + 1 }
    ensures counted { facts.old.touches ≤ facts.new.touches }
{
    match facts.get(place) {
        Some(fact) => Some(fact.at(*place)),
        None => None,
    }
}

// Whether the fact that is there, if one is, is this one. Most that are not differ in their outcome.
#[tactic(auto, using(crate::proofs::FactEquals::facts_decide))]
fn is_same(there: &Option<Fact>, fact: &Fact) -> bool
    ensures { IsTrue result → there.now ≡ Some fact.now }
{
    match there {
        Some(there) => there.outcome == fact.outcome && *there == *fact,
        None => false,
    }
}

// Puts a fact at its place, and counts and lists it in the place of the one that is there. An error leaves what was
// settled.
#[tactic(auto, using(crate::proofs::Held::is_counted, crate::proofs::Held::kept_put, crate::proofs::Held::stands, crate::proofs::ListedFacts::fact_covered))]
fn put(
    alloc: Global,
    facts: &mut Kept<Place, PackedFact>,
    tables: &mut NotedTables,
    before: &Option<Fact>,
    fact: Fact,
) -> Result<(), AllocError>
    requires there { before.now ≡ fin.get (facts_in facts.old.content) fact.place }
    requires shown { tables.old.shown
        ≡ tables_of (facts_in facts.old.content) tables.old.notes }
    ensures ok { OnOk result (facts_in facts.new.content
        ≡ fin.insert (facts_in facts.old.content) fact.place fact) }
    ensures shown { OnOk result (tables.new.shown
        ≡ tables_of (facts_in facts.new.content) tables.new.notes) }
    ensures notes { OnOk result (tables.new.notes ≡ tables.old.notes) }
    ensures settled { facts.new.settled ≡ facts.old.settled }
    ensures settled_tables { tables.new.settled ≡ tables.old.settled }
    ensures settled_notes { tables.new.settled_notes ≡ tables.old.settled_notes }
    ensures pending { facts.new.pending ≤ facts.old.pending + 1 }
    ensures touched { OnOk result (facts.new.touches ≡ touched facts.old.touches) }
    ensures touches { facts.new.touches ≤ facts.old.touches + 1 }
    ensures counted { facts.old.touches ≤ facts.new.touches }
{
    // For the proof: there are fewer places than addresses.
    let _ = facts.place_count();
    match before {
        Some(before) => {
            tables.replace_fact(before, &fact)?;
            facts.set(fact.place, PackedFact::of(alloc, fact)?)
        }
        None => {
            tables.add_fact(&fact)?;
            facts.set(fact.place, PackedFact::of(alloc, fact)?)
        }
    }
}

// Brings back what was last settled, in each. It takes no memory.
fn undo_all(facts: &mut Kept<Place, PackedFact>, tables: &mut NotedTables)
    ensures facts { facts.new.content ≡ facts.old.settled }
    ensures facts_settled { facts.new.settled ≡ facts.old.settled }
    ensures shown { tables.new.shown ≡ tables.old.settled }
    ensures settled { tables.new.settled ≡ tables.old.settled }
    ensures notes { tables.new.notes ≡ tables.old.settled_notes }
    ensures settled_notes { tables.new.settled_notes ≡ tables.old.settled_notes }
    ensures pending { facts.new.pending ≡ 0 }
    ensures touches { facts.new.touches ≤ facts.old.touches + facts.old.pending }
    ensures counted { facts.old.touches ≤ facts.new.touches }
{
    facts.undo();
    tables.undo();
}

// Whether the fact at a place puts it into the list. In a list into which facts put no places, the fact isn't looked up.
fn is_listed(facts: &mut Kept<Place, PackedFact>, note: &Listed) -> bool
    ensures value { result ≡ list_any (lists note.now)
        (option_to_list (fin.get (facts_in facts.old.content) note.now.place)) }
    ensures taken { IsTrue result → IsTrue (takes_facts note.now.list) }
    ensures content { facts.new.content ≡ facts.old.content }
    ensures settled { facts.new.settled ≡ facts.old.settled }
    ensures pending { facts.new.pending ≡ facts.old.pending }
    ensures touches { facts.new.touches ≤ facts.old.touches + 1 }
    ensures counted { facts.old.touches ≤ facts.new.touches }
{
    if !note.list.takes_facts() {
        return false;
    }
    match fact_at(facts, &note.place) {
        Some(fact) => match fact.listed() {
            Some(listed) => listed == *note,
            None => false,
        },
        None => false,
    }
}
