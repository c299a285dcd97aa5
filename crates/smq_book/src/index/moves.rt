//! Messages, delivery receipts and notes that are put in what is stored, or taken out. On an error the caller undoes what is
//! held.
ghost use Rattle.std.specs.Prelude.{◌≡◌, ◌≤◌, ◌+◌, true, if◌then◌else◌, [], ◌∷◌, None, Some, OnOk};
ghost use Rattle.std.specs.FinMap as fin;
ghost use Rattle.smq_kit.specs.declared.link_key.LinkKey.{LinkKey};
ghost use Rattle.smq_kit.specs.declared.place.Dir.TheVariants.{FromClient, FromCentre};
ghost use Rattle.smq_group.specs.Groups.{vacancies};
ghost use Rattle.smq_tally.specs.Lists.{listed};
ghost use Rattle.smq_present.specs.join.Listings.{is_traffic_list};
ghost use Rattle.smq_book.specs.index.Numbered.{numbered};
ghost use Rattle.smq_book.specs.index.Coming.{IsNew};
ghost use Rattle.smq_book.specs.index.LinkOut.{put_of, take_at};
ghost use Rattle.smq_book.specs.index.Pushed.{IsHeldAfter, without_response};
ghost use Rattle.smq_book.specs.index.PlacedKeys.{with_key, without_key};
ghost use Rattle.smq_book.specs.index.Anew.{AreIn};
ghost use Rattle.smq_book.specs.index.Held.{IsHeld, IsTraffic, KeepsTraffic, held_now, held_of, held_settled, messages_in, receipts_in, traffic_held};
ghost use Rattle.smq_book.specs.index.Touches.{MembersCome, MembersGo, RisesWithFacts, index_cost, is_key, load_of, numbers_cost, receipt_key_at, said_key, taken_load, taken_of};
ghost use Rattle.smq_present.specs.join.Keyed.{accepted_key, receipt_key};
ghost use Rattle.smq_present.specs.join.Moves as moves;
ghost use Rattle.smq_present.specs.join.Moves.{PutNote, TakeNote, moved};
ghost use Rattle.smq_present.specs.pairing.Traffic.{TrafficValue};
ghost use Rattle.smq_present.specs.present.Settings.{SettingsValue};

use crate::List;
use crate::index::due_at::DueAt;
use crate::index::end_at::EndAt;
use crate::index::index::{Index, fact_of_unaccepted, set_due, set_end, take_fact};
use crate::index::stored::{Item, StoredMessage, StoredReceipt};
use smq_kit::{Dir, Place};
use smq_present::Settings;
use smq_route::Numbers;
use std::alloc::AllocError;

impl Index {
    /// Puts a message in, at a place of the client where nothing stands.
    pub(crate) fn put_message(
        &mut self,
        settings: &Settings,
        place: Place,
        message: StoredMessage,
    ) -> Result<(), AllocError>
        requires are { AreIn settings.now self.old }
        requires absent { fin.get (messages_in self.old.messages.content) place ≡ None }
        requires apart { fin.get (receipts_in self.old.receipts.content) place ≡ None }
        requires dir { place.dir ≡ FromClient }
        requires unknown { fin.get self.old.tally.facts place ≡ None }
        ensures held { (t : TrafficValue) → IsTraffic t → held_now self.old ≡ held_of settings.now t
            → OnOk result
            (held_now self.new ≡ held_of settings.now (moves.put_message place message t)) }
        ensures settled { held_settled self.new ≡ held_settled self.old }
        ensures weighs { OnOk result (index_cost self.new ≤ index_cost self.old + 43
            + load_of self.old.groups (accepted_key settings.now message)) }
        ensures vacant { OnOk result ((k : LinkKey)
            → vacancies self.new.groups k ≤ vacancies self.old.groups k) }
        ensures rises { OnOk result (RisesWithFacts self.old self.new) }
    {
        let key = message.key(settings);
        put_number(&mut self.numbers, place, &message)?;
        let Some(key) = key else {
            let fact = fact_of_unaccepted(place, &message, settings.routes());
            self.messages.set(place, message)?;
            self.tally.add(fact)?;
            return Ok(());
        };
        self.messages.set(place, message)?;
        let changes = self.groups.add_submit(key.link, key.key, place)?;
        self.follow(settings, changes.as_slice(), None)?;
        Ok(())
    }

    /// Puts a message with its response in the place of the same without one.
    pub(crate) fn answer_message(
        &mut self,
        settings: &Settings,
        place: Place,
        answered: StoredMessage,
    ) -> Result<(), AllocError>
        requires are { AreIn settings.now self.old }
        requires unanswered { fin.get (messages_in self.old.messages.content) place
            ≡ Some (without_response answered) }
        ensures held { (t : TrafficValue) → IsTraffic t → held_now self.old ≡ held_of settings.now t
            → OnOk result
            (held_now self.new ≡ held_of settings.now (moves.put_message place answered t)) }
        ensures settled { held_settled self.new ≡ held_settled self.old }
        ensures weighs { OnOk result (index_cost self.new ≤ index_cost self.old + 40
            + load_of self.old.groups (accepted_key settings.now answered)) }
        ensures vacant { OnOk result ((k : LinkKey)
            → vacancies self.new.groups k ≤ vacancies self.old.groups k) }
        ensures rises { OnOk result (RisesWithFacts self.old self.new) }
    {
        let key = answered.key(settings);
        self.messages.set(place, answered)?;
        let Some(accepted) = key else {
            self.recompute_at(settings, place, None, None)?;
            return Ok(());
        };
        let changes = self.groups.add_submit(accepted.link, accepted.key, place)?;
        self.follow(settings, changes.as_slice(), None)?;
        Ok(())
    }

    /// Takes the message at a place out, if there is one.
    pub(crate) fn take_message(
        &mut self,
        settings: &Settings,
        place: Place,
    ) -> Result<(), AllocError>
        requires are { AreIn settings.now self.old }
        ensures held { (t : TrafficValue) → IsTraffic t → held_now self.old ≡ held_of settings.now t
            → OnOk result
            (held_now self.new ≡ held_of settings.now (moves.take_message place t)) }
        ensures settled { held_settled self.new ≡ held_settled self.old }
        ensures weighs { OnOk result (index_cost self.new ≤ index_cost self.old + 42
            + taken_of self.old.groups (fin.get self.old.groups.members.submits place)) }
        ensures vacant { OnOk result ((k : LinkKey)
            → vacancies self.new.groups k ≤ vacancies self.old.groups k
            + (if is_key k (fin.get self.old.groups.members.submits place) then 1 else 0)) }
        ensures rises { OnOk result (RisesWithFacts self.old self.new) }
    {
        let Some(message) = self.messages.get(&place) else {
            return Ok(());
        };
        let key = message.key(settings);
        let due = DueAt {
            link: message.link,
            moment: message.moment,
            place,
        };
        let window = settings.link_windows().of(message.link);
        let end = EndAt::of(message.moment, window, place);
        take_number(&mut self.numbers, place, message)?;
        set_due(&mut self.due, due, false)?;
        set_end(&mut self.ends, end, false)?;
        self.messages.remove(&place)?;
        let Some(key) = key else {
            take_fact(&mut self.tally, place)?;
            return Ok(());
        };
        let changes = self.groups.remove_submit(key.link, &key.key, place)?;
        self.follow(settings, changes.as_slice(), None)?;
        take_fact(&mut self.tally, place)?;
        Ok(())
    }

    /// Puts a delivery receipt in, at a place of the centre where nothing stands.
    pub(crate) fn put_receipt(
        &mut self,
        settings: &Settings,
        place: Place,
        receipt: StoredReceipt,
    ) -> Result<(), AllocError>
        requires are { AreIn settings.now self.old }
        requires absent { fin.get (receipts_in self.old.receipts.content) place ≡ None }
        requires apart { fin.get (messages_in self.old.messages.content) place ≡ None }
        requires dir { place.dir ≡ FromCentre }
        ensures held { (t : TrafficValue) → IsTraffic t → held_now self.old ≡ held_of settings.now t
            → OnOk result
            (held_now self.new ≡ held_of settings.now (moves.put_receipt place receipt t)) }
        ensures settled { held_settled self.new ≡ held_settled self.old }
        ensures weighs { OnOk result (index_cost self.new ≤ index_cost self.old + 43
            + load_of self.old.groups (Some (receipt_key settings.now receipt))) }
        ensures vacant { OnOk result ((k : LinkKey)
            → vacancies self.new.groups k ≤ vacancies self.old.groups k) }
        ensures rises { OnOk result (RisesWithFacts self.old self.new) }
    {
        let key = receipt.key(settings);
        let moment = receipt.moment;
        let decides = receipt.can_decide();
        self.receipts.set(place, receipt)?;
        let changes = self
            .groups
            .add_receipt(key.link, key.key, place, moment, decides)?;
        self.follow(settings, changes.as_slice(), Some(place))?;
        Ok(())
    }

    /// Takes the delivery receipt at a place out, if there is one.
    pub(crate) fn take_receipt(
        &mut self,
        settings: &Settings,
        place: Place,
    ) -> Result<(), AllocError>
        requires are { AreIn settings.now self.old }
        ensures held { (t : TrafficValue) → IsTraffic t → held_now self.old ≡ held_of settings.now t
            → OnOk result
            (held_now self.new ≡ held_of settings.now (moves.take_receipt place t)) }
        ensures settled { held_settled self.new ≡ held_settled self.old }
        ensures weighs { OnOk result (index_cost self.new ≤ index_cost self.old + 49
            + taken_of self.old.groups (receipt_key_at self.old.groups.members place)) }
        ensures vacant { OnOk result ((k : LinkKey)
            → vacancies self.new.groups k ≤ vacancies self.old.groups k
            + (if is_key k (receipt_key_at self.old.groups.members place) then 2 else 0)) }
        ensures rises { OnOk result (RisesWithFacts self.old self.new) }
    {
        let Some(receipt) = self.receipts.get(&place) else {
            return Ok(());
        };
        let key = receipt.key(settings);
        self.receipts.remove(&place)?;
        let changes = self.groups.remove_receipt(key.link, &key.key, place)?;
        self.follow(settings, changes.as_slice(), None)?;
        self.recompute_at(settings, place, None, None)?;
        Ok(())
    }

    /// Takes what stands at a place out, if anything does: a message in the client's direction, a delivery receipt in the
    /// centre's.
    pub(crate) fn take(&mut self, settings: &Settings, place: Place) -> Result<(), AllocError>
        requires { IsHeld settings.now (held_now self.old) }
        ensures held { OnOk result (IsHeldAfter settings.now (held_now self.old)
            (take_at place ∷ []) (held_now self.new)) }
        ensures settled { held_settled self.new ≡ held_settled self.old }
        ensures rises { OnOk result (RisesWithFacts self.old self.new) }
        ensures went { OnOk result (MembersGo self.old.groups self.new.groups) }
        ensures touches { OnOk result (index_cost self.new ≤ index_cost self.old
            + taken_load self.old.groups place) }
    {
        match place.dir {
            Dir::FromClient => {
                self.take_message(settings, place)?;
                Ok(())
            }
            Dir::FromCentre => {
                self.take_receipt(settings, place)?;
                Ok(())
            }
        }
    }

    /// Puts a message or a delivery receipt in, where nothing stands.
    pub(crate) fn put(
        &mut self,
        settings: &Settings,
        place: Place,
        said: Item,
    ) -> Result<(), AllocError>
        requires held { IsHeld settings.now (held_now self.old) }
        requires stands { KeepsTraffic (put_of (place, said)) }
        requires new { IsNew (traffic_held (held_now self.old)) (put_of (place, said)) }
        ensures held { OnOk result (IsHeldAfter settings.now (held_now self.old)
            (put_of (place, said) ∷ []) (held_now self.new)) }
        ensures settled { held_settled self.new ≡ held_settled self.old }
        ensures rises { OnOk result (RisesWithFacts self.old self.new) }
        ensures came { OnOk result (MembersCome self.old.groups self.new.groups) }
        ensures touches { OnOk result (index_cost self.new ≤ index_cost self.old + 43
            + load_of self.old.groups (said_key settings.now said)) }
    {
        match said {
            Item::Message(message) => {
                self.put_message(settings, place, message)?;
                Ok(())
            }
            Item::Receipt(receipt) => {
                self.put_receipt(settings, place, receipt)?;
                Ok(())
            }
        }
    }

    /// Notes a place in a list.
    pub(crate) fn put_note(&mut self, list: List, place: Place) -> Result<(), AllocError>
        ensures held { (s : SettingsValue) (t : TrafficValue) → held_now self.old ≡ held_of s t
            → OnOk result (held_now self.new ≡ held_of s (moved t (PutNote (listed list place)))) }
        ensures settled { held_settled self.new ≡ held_settled self.old }
        ensures groups { self.new.groups ≡ self.old.groups }
        ensures touches { index_cost self.new ≤ index_cost self.old }
        ensures rises { OnOk result (RisesWithFacts self.old self.new) }
    {
        self.tally.note(list, place)?;
        Ok(())
    }

    /// Forgets a place in a list that isn't one of those of receipts, if it is noted there.
    pub(crate) fn take_note(&mut self, list: List, place: Place) -> Result<(), AllocError>
        ensures held { (s : SettingsValue) (t : TrafficValue) → is_traffic_list list ≡ true
            → held_now self.old ≡ held_of s t
            → OnOk result (held_now self.new ≡ held_of s (moved t (TakeNote (listed list place)))) }
        ensures settled { held_settled self.new ≡ held_settled self.old }
        ensures groups { self.new.groups ≡ self.old.groups }
        ensures touches { index_cost self.new ≤ index_cost self.old + 1 }
        ensures rises { OnOk result (RisesWithFacts self.old self.new) }
    {
        self.tally.forget(list, place)?;
        Ok(())
    }
}

/// Puts the number of a message in, if it has one.
fn put_number(
    numbers: &mut Numbers,
    place: Place,
    message: &StoredMessage,
) -> Result<(), AllocError>
    ensures value { OnOk result
        (numbers.new.numbers ≡ with_key (numbered place message.now) numbers.old.numbers) }
    ensures settled { numbers.new.settled ≡ numbers.old.settled }
    ensures touches { numbers_cost numbers.new ≤ numbers_cost numbers.old + 3 }
    ensures counted { numbers.old.touches ≤ numbers.new.touches }
{
    if let Some(number) = message.number() {
        numbers.add(number.copy(), place)?;
    }
    Ok(())
}

/// Takes the number of a message out, if it has one.
fn take_number(
    numbers: &mut Numbers,
    place: Place,
    message: &StoredMessage,
) -> Result<(), AllocError>
    ensures value { OnOk result
        (numbers.new.numbers ≡ without_key (numbered place message.now) numbers.old.numbers) }
    ensures settled { numbers.new.settled ≡ numbers.old.settled }
    ensures touches { numbers_cost numbers.new ≤ numbers_cost numbers.old + 4 }
    ensures counted { numbers.old.touches ≤ numbers.new.touches }
{
    if let Some(number) = message.number() {
        numbers.remove(number, place)?;
    }
    Ok(())
}
