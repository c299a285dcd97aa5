//! Tables: counts of facts, in which those of a view stand beside each other, and listed places, in which those of a list
//! do. Both are ordered maps that can be undone.
ghost use Rattle.std.specs.Prelude.{◌≡◌, ◌<◌, ◌+◌, ◌^◌, IfOk, OnOk, OnErr, cond};
ghost use Rattle.std.specs.FinMap as fin;
ghost use Rattle.std.specs.List.Sorted.{IsStrictlySortedBy};
ghost use Rattle.std.specs.List.{list_any};
ghost use Rattle.smq_kit.specs.Orders.{place_cmp};
ghost use Rattle.smq_tally.specs.Lists.{listed_set, listings_of_fact};
ghost use Rattle.smq_tally.specs.Rows.{keys_of_fact};
ghost use Rattle.smq_tally.specs.Tables.{AreOfDifferentPlaces, facts_at, tables_of, count_at, rows_of, listed_in};
ghost use Rattle.smq_tally.specs.within.Counting.{AreCounted, count_of, one_more, one_less, with_listed, without};
ghost use Rattle.smq_tally.specs.within.Kept.{places_in, IsLogged};

use crate::copies::copy_entries;
use crate::counts::{OutcomeCounts, count_of, recount};
use crate::equality::{have_same_entries, have_same_rows};
use crate::fact::RowKey;
use crate::undo_log::take_back;
use crate::{CountKey, Fact, List, Listed, Outcome, Places, Rows, Value, View};
use smq_shelf::KeptMap;
use std::alloc::{AllocError, Global};
use std::marker::Model;

/// How many messages have each value and outcome, and the places in each list.
#[derive(Drop)]
pub struct Tables {
    counts: KeptMap<RowKey, OutcomeCounts>,
    places: KeptMap<Listed, ()>,
}

impl Model for Tables {
    ghost use Rattle.smq_tally.specs.Tables.{TablesKept, tables_kept_code};

    ghost Value = { TablesKept };

    ghost coded = { tables_kept_code };

    ghost use Rattle.smq_tally.specs.within.Kept.{tables_in};

    ghost view = { λ t. record {
      shown = tables_in t.counts.content t.places.content;
      settled = tables_in t.counts.settled t.places.settled;
    } };
}

impl PartialEq for Tables {
    ghost use Rattle.smq_tally.specs.within.Equal.{shown_eq, shown_eq_laws};
    ghost use Rattle.std.specs.Cmp.{partial_equiv_from_equiv};

    ghost eq = { shown_eq };

    ghost laws = { partial_equiv_from_equiv shown_eq_laws };

    fn eq(&self, other: &Tables) -> bool {
        have_same_rows(self, other) && have_same_entries(self.places.iter(), other.places.iter())
    }
}

impl Eq for Tables {
    ghost use Rattle.smq_tally.specs.within.Equal.{shown_eq_laws};

    ghost laws = { shown_eq_laws };
}

impl Tables {
    /// The tables of no facts and no notes.
    #[tactic(auto, using(crate::proofs::Stored::nothing_seen))]
    pub(crate) fn new(alloc: Global) -> Tables
        ensures shown { result.shown ≡ tables_of fin.empty fin.empty }
        ensures settled { result.settled ≡ tables_of fin.empty fin.empty }
    {
        Tables {
            counts: KeptMap::new(alloc),
            places: KeptMap::new(alloc),
        }
    }

    /// The tables of facts, no two of one place, and of notes.
    #[tactic(auto, using(crate::proofs::ListedFacts::notes_listed))]
    pub fn of(alloc: Global, facts: &[Fact], notes: &[Listed]) -> Result<Tables, AllocError>
        requires apart { AreOfDifferentPlaces facts.now }
        ensures shown { IfOk result (λ tables.
            tables.shown ≡ tables_of (facts_at facts.now) (listed_set notes.now)) }
    {
        let mut tables = Tables::new(alloc);
        tables.add_facts(facts)?;
        tables.list_places(notes)?;
        Ok(tables)
    }

    /// Equal tables, which are settled: `undo` would show no others.
    pub fn copy(&self, alloc: Global) -> Result<Tables, AllocError>
        ensures shown { IfOk result (λ tables. tables.shown ≡ self.now.shown) }
        ensures settled { IfOk result (λ tables. tables.settled ≡ self.now.shown) }
    {
        Ok(Tables {
            counts: copy_entries(alloc, self.counts.iter())?,
            places: copy_entries(alloc, self.places.iter())?,
        })
    }

    /// Counts and lists facts, the last first, where none was.
    #[tactic(auto, using(crate::proofs::Gathered::gathered_one))]
    fn add_facts(&mut self, facts: &[Fact]) -> Result<(), AllocError>
        requires apart { AreOfDifferentPlaces facts.now }
        requires nothing { self.old.shown ≡ tables_of fin.empty fin.empty }
        ensures ok { OnOk result (self.new.shown ≡ tables_of (facts_at facts.now) fin.empty) }
    {
        let mut left = facts;
        while let Some((fact, before)) = left.split_last() {
            self.add_fact(fact)?;
            self.settle();
            left = before;
        }
        Ok(())
    }

    fn list_places(&mut self, places: &[Listed]) -> Result<(), AllocError>
        ensures ok { OnOk result (self.new.shown ≡ record self.old.shown {
          places = with_listed self.old.shown.places places.now;
        }) }
    {
        for listed in places {
            self.list_place(*listed)?;
            self.settle();
        }
        Ok(())
    }

    /// How many messages have this value in the view, and this outcome.
    pub fn count(&self, view: View, value: &Value, outcome: Outcome) -> u64
        ensures { result ≡ count_at self.now.shown view value.now outcome }
    {
        let key = CountKey {
            view,
            value: value.copy(),
            outcome,
        };
        count_of(&self.counts, key)
    }

    /// The rows of a view, in order. It looks at no other view's counts.
    pub fn rows(&self, view: View) -> Rows<'_>
        ensures { result ≡ rows_of self.now.shown view }
    {
        let first = RowKey::first_in(view);
        match view.next() {
            Some(next) => Rows::of(self.counts.range(first, RowKey::first_in(next))),
            None => Rows::of(self.counts.range_from(first)),
        }
    }

    /// The places of a list, in order. It looks at no other list's places.
    pub fn list(&self, list: List) -> Places<'_>
        ensures places { result ≡ listed_in self.now.shown list }
        ensures in_order { IsStrictlySortedBy place_cmp result }
    {
        let first = Listed::first_in(list);
        match list.next() {
            Some(next) => Places {
                left: self.places.range(first, Listed::first_in(next)),
            },
            None => Places {
                left: self.places.range_from(first),
            },
        }
    }

    /// Whether a place is listed.
    #[tactic(auto, using(crate::proofs::Stored::has_seen, crate::proofs::Stored::copied_some))]
    pub(crate) fn is_listed(&self, listed: &Listed) -> bool
        ensures { result ≡ fin.contains_key self.now.shown.places listed.now }
    {
        self.places.get(listed).is_some()
    }

    /// Counts one fact more, and lists it where it is open or lapsed. An error changes nothing.
    pub(crate) fn add_fact(&mut self, fact: &Fact) -> Result<(), AllocError>
        requires room { (key : CountKey) → count_of self.old.shown key + 1 < 2 ^ 64 }
        ensures ok { OnOk result (self.new.shown ≡ one_more self.old.shown fact.now) }
        ensures settled { self.new.settled ≡ self.old.settled }
        ensures err { OnErr result (self.new ≡ self.old) }
    {
        let is_logged = list_fact(&mut self.places, fact)?;
        if let Err(error) = recount(&mut self.counts, None, Some(fact)) {
            take_back(&mut self.places, is_logged);
            return Err(error);
        }
        Ok(())
    }

    /// Counts a fact no more, and lists its place no more unless that stays for a note. An error changes nothing.
    pub(crate) fn remove_fact(&mut self, fact: &Fact, stays: bool) -> Result<(), AllocError>
        requires counted { AreCounted (keys_of_fact fact.now) self.old.shown.counts }
        ensures ok { OnOk result (self.new.shown ≡ one_less self.old.shown fact.now stays) }
        ensures settled { self.new.settled ≡ self.old.settled }
        ensures err { OnErr result (self.new ≡ self.old) }
    {
        let is_logged = unlist_fact(&mut self.places, fact, stays)?;
        if let Err(error) = recount(&mut self.counts, Some(fact), None) {
            take_back(&mut self.places, is_logged);
            return Err(error);
        }
        Ok(())
    }

    /// Counts a fact no more and another in its place, and lists the other where it is open or lapsed. The place of the
    /// first is listed no more unless it stays for a note. An error leaves what was settled.
    pub(crate) fn replace_fact(
        &mut self,
        before: &Fact,
        after: &Fact,
        stays: bool,
    ) -> Result<(), AllocError>
        requires room { (key : CountKey) → count_of self.old.shown key + 1 < 2 ^ 64 }
        requires counted { AreCounted (keys_of_fact before.now) self.old.shown.counts }
        requires listed { with_listed self.old.shown.places (listings_of_fact before.now)
            ≡ self.old.shown.places }
        ensures ok { OnOk result (self.new.shown
            ≡ one_more (one_less self.old.shown before.now stays) after.now) }
        ensures settled { self.new.settled ≡ self.old.settled }
    {
        relist(&mut self.places, before, after, stays)?;
        recount(&mut self.counts, Some(before), Some(after))
    }

    /// Lists one place more. An error changes nothing.
    #[tactic(auto, using(crate::proofs::Stored::place_more))]
    pub(crate) fn list_place(&mut self, listed: Listed) -> Result<(), AllocError>
        ensures ok { OnOk result (self.new.shown ≡ record self.old.shown {
          places = fin.insert self.old.shown.places listed tt;
        }) }
        ensures settled { self.new.settled ≡ self.old.settled }
        ensures err { OnErr result (self.new ≡ self.old) }
    {
        self.places.set(listed, ())?;
        Ok(())
    }

    /// Lists a place no more. An error changes nothing.
    pub(crate) fn unlist_place(&mut self, listed: &Listed) -> Result<(), AllocError>
        ensures ok { OnOk result (self.new.shown ≡ record self.old.shown {
          places = fin.remove self.old.shown.places listed.now;
        }) }
        ensures settled { self.new.settled ≡ self.old.settled }
        ensures err { OnErr result (self.new ≡ self.old) }
    {
        unlist(&mut self.places, listed)?;
        Ok(())
    }

    /// Shows again what was shown when they were last settled. It takes no memory.
    pub(crate) fn undo(&mut self)
        ensures shown { self.new.shown ≡ self.old.settled }
        ensures settled { self.new.settled ≡ self.old.settled }
    {
        self.counts.undo();
        self.places.undo();
    }

    /// Makes what is shown what `undo` shows again. It takes no memory.
    pub(crate) fn settle(&mut self)
        ensures shown { self.new.shown ≡ self.old.shown }
        ensures settled { self.new.settled ≡ self.old.shown }
    {
        self.counts.settle();
        self.places.settle();
    }
}

/// Lists a fact's place where it is open or lapsed. It says whether it left a change to take back. An error changes
/// nothing.
#[tactic(auto, using(crate::proofs::Stored::place_more))]
fn list_fact(places: &mut KeptMap<Listed, ()>, fact: &Fact) -> Result<bool, AllocError>
    ensures ok { OnOk result (places_in places.new.content
        ≡ with_listed (places_in places.old.content) (listings_of_fact fact.now)) }
    ensures logged { IfOk result (λ is_logged. IsLogged is_logged places.old places.new) }
    ensures settled { places.new.settled ≡ places.old.settled }
    ensures err { OnErr result (places.new ≡ places.old) }
{
    let Some(listed) = fact.listed() else {
        return Ok(false);
    };
    places.set(listed, ())?;
    Ok(true)
}

/// Lists a fact's place no more, unless it stays.
fn unlist_fact(
    places: &mut KeptMap<Listed, ()>,
    fact: &Fact,
    stays: bool,
) -> Result<bool, AllocError>
    ensures ok { OnOk result (places_in places.new.content
        ≡ cond stays (places_in places.old.content)
        (without (places_in places.old.content) (listings_of_fact fact.now))) }
    ensures logged { IfOk result (λ is_logged. IsLogged is_logged places.old places.new) }
    ensures settled { places.new.settled ≡ places.old.settled }
    ensures err { OnErr result (places.new ≡ places.old) }
{
    if stays {
        return Ok(false);
    }
    match fact.listed() {
        Some(listed) => unlist(places, &listed),
        None => Ok(false),
    }
}

/// Lists the place of one fact no more, unless it stays, and that of another where this is open or lapsed. Where both are
/// listed as one it changes nothing. An error leaves what was settled.
fn relist(
    places: &mut KeptMap<Listed, ()>,
    before: &Fact,
    after: &Fact,
    stays: bool,
) -> Result<(), AllocError>
    requires { with_listed (places_in places.old.content) (listings_of_fact before.now)
        ≡ places_in places.old.content }
    ensures ok { OnOk result (places_in places.new.content
        ≡ with_listed (cond stays (places_in places.old.content)
        (without (places_in places.old.content) (listings_of_fact before.now)))
        (listings_of_fact after.now)) }
    ensures settled { places.new.settled ≡ places.old.settled }
{
    if before.listed() == after.listed() {
        return Ok(());
    }
    unlist_fact(places, before, stays)?;
    list_fact(places, after)?;
    Ok(())
}

/// Lists a place no more. It says whether it left a change to take back. An error changes nothing.
#[tactic(auto, using(crate::proofs::Stored::place_less))]
fn unlist(places: &mut KeptMap<Listed, ()>, listed: &Listed) -> Result<bool, AllocError>
    ensures ok { OnOk result (places_in places.new.content
        ≡ fin.remove (places_in places.old.content) listed.now) }
    ensures logged { IfOk result (λ is_logged. IsLogged is_logged places.old places.new) }
    ensures settled { places.new.settled ≡ places.old.settled }
    ensures err { OnErr result (places.new ≡ places.old) }
{
    let taken = places.take(listed)?;
    Ok(taken.is_some())
}

/// Whether a fact's place is in the set of listed places, as one of its list.
#[tactic(auto, using(crate::proofs::Stored::has_seen, crate::proofs::Stored::copied_some))]
pub(crate) fn has_listing(places: &KeptMap<Listed, ()>, fact: &Fact) -> bool
    ensures { result
        ≡ list_any (fin.contains_key (places_in places.now.content)) (listings_of_fact fact.now) }
{
    match fact.listed() {
        Some(listed) => places.get(&listed).is_some(),
        None => false,
    }
}
