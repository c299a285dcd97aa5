//! All groups: what each member is to its group, and what a change of members does to that.
ghost use Rattle.std.specs.Prelude.{◌≡◌, ◌+◌, ◌*◌, ◌^◌, ◌-◌, ◌≤◌, ℕ, [], length, if◌then◌else◌, min, None, Some, IfOk, OnOk, OnErr, option_map};
ghost use Rattle.std.specs.FinMap as fin;
ghost use Rattle.smq_kit.specs.LinkKeys.{same_key};
ghost use Rattle.smq_kit.specs.declared.link_key.LinkKey.{LinkKey};
ghost use Rattle.smq_group.specs.Changes.{TellsChanges};
ghost use Rattle.smq_group.specs.Links.{receipts_on, submits_on};
ghost use Rattle.smq_group.specs.Groups.{key_on, no_members, receipt_with, vacancies, with_receipt, with_submit, without_receipt, without_submit};

use crate::Change;
use crate::changes::{Added, standing_changes, standing_changes_and_summary};
use crate::group_summary::{Earliest, Group, GroupSummary, More, group_of, put_more};
use crate::links::places_on;
use crate::member::{Candidate, Member, ReceiptFacts};
use crate::receipts::{
    decider_without, gone, put_receipt, receipt_facts_at, take_back_receipt, take_out_receipt,
};
use smq_kit::{HashedKey, Key, LinkId, Moment, Place};
use smq_shelf::{Kept, ShelfKey};
use std::alloc::{AllocError, Global};
use std::marker::Model;

/// Submits that are accepted and delivery receipts, in groups by link and key. A contract sees the members by place, those
/// that `undo` brings back, and the touches of its shelves.
///
/// A member is an entry of its own, so that a group of very many costs a call no more than one of few: what all standings
/// of a group rest on is kept beside them, and the members are walked only where each of them changes.
#[derive(Drop)]
pub struct Groups {
    alloc: Global,
    submits: Kept<Member, bool>,
    receipts: Kept<Member, ReceiptFacts>,
    /// The receipts that can decide, but for the earliest of each key, which its outlook has.
    candidates: Kept<Candidate, bool>,
    outlooks: Kept<HashedKey, Group>,
}

impl Model for Groups {
    ghost use Rattle.std.specs.Prelude.{◌+◌, ◌++◌};
    ghost use Rattle.smq_group.specs.Groups.{GroupsValue, groups_code};
    ghost use Rattle.smq_group.specs.within.Stored.{grouping_in, AreStored};
    ghost use Rattle.smq_group.specs.within.Walked.{candidate_key, member_key, vacant_keys};

    ghost Value = { GroupsValue };

    ghost coded = { groups_code };

    ghost view = { λ g. record {
      members = grouping_in g.submits.content g.receipts.content;
      settled = grouping_in g.submits.settled g.receipts.settled;
      touches = g.submits.touches + g.receipts.touches + g.candidates.touches + g.outlooks.touches;
      pending = g.submits.pending + g.receipts.pending + g.candidates.pending + g.outlooks.pending;
      vacant = vacant_keys member_key g.submits.places ++ (vacant_keys member_key g.receipts.places
          ++ vacant_keys candidate_key g.candidates.places);
    } };

    ghost invariant = { λ g.
        AreStored g.submits.content g.receipts.content g.candidates.content g.outlooks.content
        × AreStored g.submits.settled g.receipts.settled g.candidates.settled g.outlooks.settled };
}

impl Groups {
    /// No groups.
    pub fn new(alloc: Global) -> Groups
        ensures members { result.members ≡ no_members }
        ensures settled { result.settled ≡ no_members }
        ensures touches { result.touches ≡ 0 }
        ensures pending { result.pending ≡ 0 }
        ensures vacant { result.vacant ≡ [] }
    {
        Groups {
            alloc,
            submits: Kept::new(alloc),
            receipts: Kept::new(alloc),
            candidates: Kept::new(alloc),
            outlooks: Kept::new(alloc),
        }
    }

    /// The places of the submits of a link, by place. It walks those of the link's keys alone, and looks at one more.
    pub fn submits_on(&mut self, link: LinkId) -> Result<Vec<Place>, AllocError>
        ensures value { IfOk result (λ places. places.items
            ≡ fin.keys (submits_on link self.old.members)) }
        ensures members { self.new.members ≡ self.old.members }
        ensures settled { self.new.settled ≡ self.old.settled }
        ensures pending { self.new.pending ≡ self.old.pending }
        ensures vacant { self.new.vacant ≡ self.old.vacant }
        ensures touches { self.old.vacant ≡ [] → IfOk result (λ places.
            self.new.touches ≤ self.old.touches + 1 + length places.items) }
        ensures counted { self.old.touches ≤ self.new.touches }
    {
        places_on(self.alloc, &mut self.submits, link)
    }

    /// The places of the receipts of a link, by place. It walks those of the link's keys alone, and looks at one more.
    pub fn receipts_on(&mut self, link: LinkId) -> Result<Vec<Place>, AllocError>
        ensures value { IfOk result (λ places. places.items
            ≡ fin.keys (receipts_on link self.old.members)) }
        ensures members { self.new.members ≡ self.old.members }
        ensures settled { self.new.settled ≡ self.old.settled }
        ensures pending { self.new.pending ≡ self.old.pending }
        ensures vacant { self.new.vacant ≡ self.old.vacant }
        ensures touches { self.old.vacant ≡ [] → IfOk result (λ places.
            self.new.touches ≤ self.old.touches + 1 + length places.items) }
        ensures counted { self.old.touches ≤ self.new.touches }
    {
        places_on(self.alloc, &mut self.receipts, link)
    }

    /// Takes a submit that is accepted with a key. An error changes nothing.
    pub fn add_submit(
        &mut self,
        link: LinkId,
        key: Key,
        place: Place,
    ) -> Result<Vec<Change>, AllocError>
        requires absent { fin.get self.old.members.submits place ≡ None }
        ensures ok { OnOk result
            (self.new.members ≡ with_submit self.old.members (key_on link key) place) }
        ensures changes { IfOk result (λ changes.
            TellsChanges self.old.members self.new.members changes.items) }
        ensures touches { IfOk result (λ changes. self.new.touches
            ≤ self.old.touches + 6 + vacancies self.old (key_on link key) + length changes.items) }
        ensures vacant { OnOk result ((k : LinkKey) → vacancies self.new k ≤ vacancies self.old k) }
        ensures pending { OnOk result (self.new.pending ≤ self.old.pending + 2) }
        ensures err { OnErr result (self.new.members ≡ self.old.members) }
        ensures settled { self.new.settled ≡ self.old.settled }
        ensures counted { self.old.touches ≤ self.new.touches }
    {
        let key = HashedKey::new(link, key);
        let before = put_more(&mut self.outlooks, &key, More::Submit(place))?;
        let member = Member {
            key: key.copy(),
            place,
        };
        let Ok(()) = self.submits.set(member, true) else {
            self.outlooks.take_back();
            return Err(AllocError);
        };
        // For the proof: there are no more submits with a key than places.
        let _places = self.submits.place_count();
        let after = before.with(More::Submit(place));
        match standing_changes(
            self.alloc,
            &mut self.submits,
            &mut self.receipts,
            &key,
            &before.outlook,
            &after.outlook,
            after.only,
            Added::Submit(place),
        ) {
            Ok(changes) => Ok(changes),
            Err(error) => {
                self.submits.take_back();
                self.outlooks.take_back();
                Err(error)
            }
        }
    }

    /// Takes a submit out that was accepted with a key. An error changes nothing.
    pub fn remove_submit(
        &mut self,
        link: LinkId,
        key: &Key,
        place: Place,
    ) -> Result<Vec<Change>, AllocError>
        requires there { fin.get self.old.members.submits place ≡ Some (key_on link key.now) }
        ensures ok { OnOk result (self.new.members ≡ without_submit self.old.members place) }
        ensures changes { IfOk result (λ changes.
            TellsChanges self.old.members self.new.members changes.items) }
        ensures touches { IfOk result (λ changes. self.new.touches
            ≤ self.old.touches + 8 + vacancies self.old (key_on link key.now) + length changes.items) }
        ensures vacant { OnOk result ((k : LinkKey) → vacancies self.new k ≤ vacancies self.old k
            + (if same_key k (key_on link key.now) then 1 else 0)) }
        ensures pending { OnOk result (self.new.pending ≤ self.old.pending + 2) }
        ensures err { OnErr result (self.new.members ≡ self.old.members) }
        ensures settled { self.new.settled ≡ self.old.settled }
        ensures counted { self.old.touches ≤ self.new.touches }
    {
        let key = key_of_link(link, key);
        let before = group_of(&mut self.outlooks, &key);
        let member = Member {
            key: key.copy(),
            place,
        };
        self.submits.remove(&member)?;
        let after = before.outlook.without_submit();
        match standing_changes_and_summary(
            self.alloc,
            &mut self.submits,
            &mut self.receipts,
            &mut self.outlooks,
            &key,
            &before.outlook,
            &after,
            None,
        ) {
            Ok(changes) => Ok(changes),
            Err(error) => {
                self.submits.take_back();
                Err(error)
            }
        }
    }

    /// Takes a delivery receipt: its key, its moment, and whether it can decide. An error changes nothing.
    pub fn add_receipt(
        &mut self,
        link: LinkId,
        key: Key,
        place: Place,
        moment: Moment,
        decides: bool,
    ) -> Result<Vec<Change>, AllocError>
        requires absent { fin.get self.old.members.receipts place ≡ None }
        ensures ok { OnOk result (self.new.members
            ≡ with_receipt self.old.members place (receipt_with link key moment decides)) }
        ensures changes { IfOk result (λ changes.
            TellsChanges self.old.members self.new.members changes.items) }
        ensures touches { IfOk result (λ changes. self.new.touches
            ≤ self.old.touches + 7 + vacancies self.old (key_on link key) + length changes.items) }
        ensures vacant { OnOk result ((k : LinkKey) → vacancies self.new k ≤ vacancies self.old k) }
        ensures pending { OnOk result (self.new.pending ≤ self.old.pending + 3) }
        ensures err { OnErr result (self.new.members ≡ self.old.members) }
        ensures settled { self.new.settled ≡ self.old.settled }
        ensures counted { self.old.touches ≤ self.new.touches }
    {
        let key = HashedKey::new(link, key);
        let more = More::Receipt(Earliest { moment, place }, decides);
        let before = put_more(&mut self.outlooks, &key, more)?;
        let waits = before
            .outlook
            .later_candidate(Earliest { moment, place }, decides);
        let said = ReceiptFacts { moment, decides };
        let put = put_receipt(
            &mut self.receipts,
            &mut self.candidates,
            &key,
            place,
            said,
            &waits,
        );
        let Ok(()) = put else {
            self.outlooks.take_back();
            return Err(AllocError);
        };
        // For the proof: there are no more receipts with a key than places.
        let _places = self.receipts.place_count();
        let after = before.with(More::Receipt(Earliest { moment, place }, decides));
        match standing_changes(
            self.alloc,
            &mut self.submits,
            &mut self.receipts,
            &key,
            &before.outlook,
            &after.outlook,
            after.only,
            Added::Receipt(place, decides),
        ) {
            Ok(changes) => Ok(changes),
            Err(error) => {
                take_back_receipt(&mut self.receipts, &mut self.candidates, &waits);
                self.outlooks.take_back();
                Err(error)
            }
        }
    }

    /// Takes a delivery receipt out. An error changes nothing.
    pub fn remove_receipt(
        &mut self,
        link: LinkId,
        key: &Key,
        place: Place,
    ) -> Result<Vec<Change>, AllocError>
        requires there { option_map (λ r. r.key) (fin.get self.old.members.receipts place)
            ≡ Some (key_on link key.now) }
        ensures ok { OnOk result (self.new.members ≡ without_receipt self.old.members place) }
        ensures changes { IfOk result (λ changes.
            TellsChanges self.old.members self.new.members changes.items) }
        ensures touches { IfOk result (λ changes. self.new.touches
            ≤ self.old.touches + 14 + vacancies self.old (key_on link key.now) + length changes.items) }
        ensures vacant { OnOk result ((k : LinkKey) → vacancies self.new k ≤ vacancies self.old k
            + (if same_key k (key_on link key.now) then 2 else 0)) }
        ensures pending { OnOk result (self.new.pending ≤ self.old.pending + 3) }
        ensures err { OnErr result (self.new.members ≡ self.old.members) }
        ensures settled { self.new.settled ≡ self.old.settled }
        ensures counted { self.old.touches ≤ self.new.touches }
    {
        let key = key_of_link(link, key);
        let before = group_of(&mut self.outlooks, &key);
        let found = receipt_facts_at(&mut self.receipts, &key, place);
        let Some(said) = &found else {
            return Ok(Vec::new(self.alloc));
        };
        let moment = said.moment;
        let decides = said.decides;
        let taken = ReceiptFacts { moment, decides };
        let decider = decider_without(&mut self.candidates, &key, &before.outlook, place, taken);
        let gone = gone(
            &before.outlook,
            &decider,
            place,
            ReceiptFacts { moment, decides },
        );
        take_out_receipt(&mut self.receipts, &mut self.candidates, &key, place, &gone)?;
        let after = GroupSummary {
            matches: before.outlook.matches,
            receipts: before.outlook.receipts - 1,
            decider,
        };
        match standing_changes_and_summary(
            self.alloc,
            &mut self.submits,
            &mut self.receipts,
            &mut self.outlooks,
            &key,
            &before.outlook,
            &after,
            before.only,
        ) {
            Ok(changes) => Ok(changes),
            Err(error) => {
                take_back_receipt(&mut self.receipts, &mut self.candidates, &gone);
                Err(error)
            }
        }
    }

    /// Brings back the members of the last `settle`, or none. It takes no memory.
    pub fn undo(&mut self)
        ensures members { self.new.members ≡ self.old.settled }
        ensures settled { self.new.settled ≡ self.old.settled }
        ensures pending { self.new.pending ≡ 0 }
        ensures vacant { self.new.vacant ≡ [] }
        ensures touches { self.new.touches ≤ self.old.touches + self.old.pending }
        ensures counted { self.old.touches ≤ self.new.touches }
    {
        self.submits.undo();
        self.receipts.undo();
        self.candidates.undo();
        self.outlooks.undo();
    }

    /// Makes the members those that `undo` brings back. It takes no memory.
    pub fn settle(&mut self)
        ensures members { self.new.members ≡ self.old.members }
        ensures settled { self.new.settled ≡ self.old.members }
        ensures pending { self.new.pending ≡ 0 }
        ensures vacant { self.new.vacant ≡ [] }
        ensures touches { self.new.touches ≤ self.old.touches + 2 * self.old.pending }
        ensures counted { self.old.touches ≤ self.new.touches }
    {
        self.submits.settle();
        self.receipts.settle();
        self.candidates.settle();
        self.outlooks.settle();
    }

    /// How many touches its shelves had, saturating.
    pub fn touches(&self) -> u64
        ensures { result ≡ min self.now.touches (2 ^ 64 - 1) }
    {
        self.submits
            .touches()
            .saturating_add(self.receipts.touches())
            .saturating_add(self.candidates.touches())
            .saturating_add(self.outlooks.touches())
    }
}

fn key_of_link(link: LinkId, key: &Key) -> HashedKey
    ensures { result ≡ key_on link key.now }
{
    HashedKey::new(link, key.copy())
}
