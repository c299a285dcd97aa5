//! What is set: for the sessions of links (forms of ids, windows), for the numbers that prefixes begin (dated routes), and the clock.
ghost use Rattle.std.specs.Prelude.{◌≡◌, ◌↔◌, ℕ, IfOk, IsSome, IsTrue, MatchResult};
ghost use Rattle.std.specs.FinMap as map;
ghost use Rattle.std.specs.Map.Iter.{ShowsInOrder, deref_pair};
ghost use Rattle.smq_kit.specs.Maps.{set_at};
ghost use Rattle.smq_route.specs.Versions.{AreApart, route_at};
ghost use Rattle.smq_present.specs.join.Circumstances.{window_of};
ghost use Rattle.smq_present.specs.present.Settings.{opening_settings, forms_of, forms_if_set, window_in};

use crate::Forms;
use smq_kit::{Digits, LinkId, Moment, Network, Refusal, RouteId, Window};
use smq_route::{Routes, Version, VersionKey};
use smq_shelf::Entries;
use std::alloc::Global;
use std::collections::BTreeMap;
use std::collections::btree_map::Iter;
use std::marker::Model;

/// The forms and the windows that were set, by the numbers of their links, the dated routes, and the clock.
#[derive(Drop)]
pub struct Settings {
    forms: BTreeMap<u32, Forms>,
    /// How long messages of links wait for their receipts.
    pub windows: Windows,
    /// The dated routes. Whoever changes them settles or undoes them.
    pub routes: Routes,
    /// The moment up to which what is present is known, in ms since 1970 in UTC.
    pub clock: Moment,
}

impl Model for Settings {
    ghost use Rattle.std.specs.Prelude.{◌≡◌};
    ghost use Rattle.smq_present.specs.present.Settings.{SettingsValue, settings_code};
    ghost use Rattle.smq_present.specs.within.InOrder.{forms_in};

    ghost Value = { SettingsValue };

    ghost coded = { settings_code };

    ghost view = { λ s. record { forms = forms_in s.forms; windows = s.windows; versions = s.routes.versions; clock = s.clock } };

    ghost invariant = { λ s. s.routes.settled ≡ s.routes.versions };
}

impl Settings {
    /// Nothing is set, and the clock is at the opening moment.
    pub(crate) fn new(alloc: Global) -> Settings
        ensures { result ≡ opening_settings }
    {
        Settings {
            forms: BTreeMap::new(alloc),
            windows: Windows::new(alloc),
            routes: Routes::new(alloc),
            clock: Moment::epoch(),
        }
    }

    /// The forms of a link's message ids.
    pub fn forms_of(&self, link: LinkId) -> Forms
        ensures { result ≡ forms_of self.now link }
    {
        match self.forms.get(&link.0) {
            Some(forms) => *forms,
            None => Forms::opening(),
        }
    }

    /// The links whose forms were set, with their forms, in the order of the links' numbers.
    pub fn forms(&self) -> Iter<'_, u32, Forms>
        ensures entries { result ≡ map.entries self.now.forms }
        ensures runs { ShowsInOrder (deref_pair {K = ℕ} {X = Forms}) }
    {
        self.forms.iter()
    }

    /// How long a message of a link waits for its receipt before it lapses.
    pub fn window_of(&self, link: LinkId) -> Window
        ensures { result ≡ window_of self.now link }
    {
        self.windows.of(link)
    }

    /// The links whose windows were set, with their windows, in the order of the links' numbers.
    pub fn windows(&self) -> Iter<'_, u32, Window>
        ensures entries { result ≡ map.entries self.now.windows }
        ensures runs { ShowsInOrder (deref_pair {K = ℕ} {X = ℕ}) }
    {
        self.windows.iter()
    }

    /// The windows that were set.
    pub fn link_windows(&self) -> &Windows
        ensures { result.now ≡ self.now.windows }
    {
        &self.windows
    }

    /// The versions of routes, by the octets of their prefixes, then by their beginnings. Those of one prefix never
    /// overlap.
    pub fn versions(&self) -> Entries<'_, VersionKey, Version>
        ensures entries { result ≡ map.entries self.now.versions }
        ensures apart { AreApart self.now.versions }
    {
        self.routes.versions()
    }

    /// The dated routes.
    pub fn routes(&self) -> &Routes
        ensures { result.now.versions ≡ self.now.versions }
    {
        &self.routes
    }

    /// The route and network of a number at a moment: those of the version that holds then with the longest prefix of
    /// the number, or none where no version does.
    pub fn route_at(&self, number: &Digits, at: Moment) -> Option<(RouteId, Network)>
        ensures { result ≡ route_at self.now.versions number.now at }
    {
        self.routes.at(number, at)
    }

    /// The clock, up to which what is present is known, in ms since 1970 in UTC; 0 until it is advanced.
    pub fn clock(&self) -> Moment
        ensures { result ≡ self.now.clock }
    {
        self.clock
    }

    /// Whether these are the forms that are set of a link's message ids.
    pub fn has_forms(&self, link: LinkId, forms: Forms) -> bool
        ensures { IsTrue result ↔ (forms_if_set self.now link.0 ≡ Some forms) }
    {
        match self.forms.get(&link.0) {
            Some(set) => *set == forms,
            None => false,
        }
    }

    /// Sets the forms of a link's message ids, and gives those that were set of it before. An error changes nothing.
    pub fn set_forms(&mut self, link: LinkId, forms: Forms) -> Result<Option<Forms>, Refusal>
        ensures reply { MatchResult result
            (λ _. self.new ≡ record self.old { forms = map.insert self.old.forms link.0 forms })
            (λ e. (e ≡ Refusal.Memory) × (self.new ≡ self.old)) }
        ensures before { IfOk result (λ before. before ≡ forms_if_set self.old link.0) }
    {
        let Ok(before) = self.forms.insert(link.0, forms) else {
            return Err(Refusal::Memory);
        };
        Ok(before)
    }

    /// Brings back the forms that were set of a link before, or none. It takes no memory.
    pub fn restore_forms(&mut self, link: LinkId, before: Option<Forms>)
        requires { IsSome (forms_if_set self.old link.0) }
        ensures { self.new ≡ record self.old { forms = set_at self.old.forms link.0 before } }
    {
        match before {
            Some(forms) => self.overwrite_forms(link, forms),
            None => self.forget_forms(link),
        }
    }

    /// Overwrites the forms that are set of a link.
    fn overwrite_forms(&mut self, link: LinkId, forms: Forms)
        requires { IsSome (forms_if_set self.old link.0) }
        ensures { self.new ≡ record self.old { forms = map.insert self.old.forms link.0 forms } }
    {
        let Ok(_) = self.forms.insert(link.0, forms) else {
            return;
        };
    }

    /// Forgets the forms that are set of a link.
    fn forget_forms(&mut self, link: LinkId)
        ensures { self.new ≡ record self.old { forms = map.remove self.old.forms link.0 } }
    {
        let _ = self.forms.remove(&link.0);
    }
}

/// How long messages of links wait for their receipts, where that was set, by the numbers of the links.
#[derive(Drop)]
pub struct Windows {
    by_link: BTreeMap<u32, Window>,
}

impl Model for Windows {
    ghost use Rattle.std.specs.Prelude.{ℕ};
    ghost use Rattle.std.specs.Coded.{coded_ℕ};
    ghost use Rattle.std.specs.FinMap as map;
    ghost use Rattle.std.specs.Ordering.{nat_cmp};
    ghost use Rattle.smq_present.specs.within.InOrder.{windows_in};

    ghost Value = { map.FinMap nat_cmp ℕ };

    ghost coded = { map.code coded_ℕ coded_ℕ };

    ghost view = { λ w. windows_in w.by_link };
}

impl Windows {
    /// No window was set.
    pub(crate) fn new(alloc: Global) -> Windows
        ensures { result ≡ map.empty }
    {
        Windows {
            by_link: BTreeMap::new(alloc),
        }
    }

    /// How long a message of a link waits.
    pub fn of(&self, link: LinkId) -> Window
        ensures { result ≡ window_in self.now link }
    {
        match self.by_link.get(&link.0) {
            Some(window) => *window,
            None => Window::opening(),
        }
    }

    /// The links whose windows were set, with their windows, in the order of the links' numbers.
    pub(crate) fn iter(&self) -> Iter<'_, u32, Window>
        ensures entries { result ≡ map.entries self.now }
        ensures runs { ShowsInOrder (deref_pair {K = ℕ} {X = ℕ}) }
    {
        self.by_link.iter()
    }

    /// Sets the window of a link, and gives the one that was set of it before. An error changes nothing.
    pub fn set(&mut self, link: LinkId, window: Window) -> Result<Option<Window>, Refusal>
        ensures reply { MatchResult result
            (λ _. self.new ≡ map.insert self.old link.0 window)
            (λ e. (e ≡ Refusal.Memory) × (self.new ≡ self.old)) }
        ensures before { IfOk result (λ before. before ≡ map.get self.old link.0) }
    {
        let Ok(before) = self.by_link.insert(link.0, window) else {
            return Err(Refusal::Memory);
        };
        Ok(before)
    }

    /// Brings back the window that was set of a link before, or none. It takes no memory.
    pub fn restore(&mut self, link: LinkId, before: Option<Window>)
        requires { IsSome (map.get self.old link.0) }
        ensures { self.new ≡ set_at self.old link.0 before }
    {
        match before {
            Some(window) => self.overwrite(link, window),
            None => self.forget(link),
        }
    }

    /// Overwrites the window that is set of a link.
    fn overwrite(&mut self, link: LinkId, window: Window)
        requires { IsSome (map.get self.old link.0) }
        ensures { self.new ≡ map.insert self.old link.0 window }
    {
        let Ok(_) = self.by_link.insert(link.0, window) else {
            return;
        };
    }

    /// Forgets the window that is set of a link.
    fn forget(&mut self, link: LinkId)
        ensures { self.new ≡ map.remove self.old link.0 }
    {
        let _ = self.by_link.remove(&link.0);
    }
}
