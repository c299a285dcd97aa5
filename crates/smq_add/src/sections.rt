//! Whether rows stand in one section of a report.
ghost use Rattle.std.specs.Prelude.{◌≡◌, List, [], ◌∷◌, ◌++◌};
ghost use Rattle.smq_add.specs.Apart.{KnowsSections};
ghost use Rattle.smq_report.specs.declared.pick.Section.{Section};

use smq_report::Section;

/// The section of the first row, and whether another one has another.
#[derive(Clone, Copy)]
pub(crate) struct Sections {
    first: Option<Section>,
    has_more: bool,
}

impl Sections {
    /// None was seen.
    pub(crate) fn none() -> Sections
        ensures { KnowsSections [] result }
    {
        Sections {
            first: None,
            has_more: false,
        }
    }

    /// Sees that of one more row.
    pub(crate) fn see(&mut self, section: Section)
        ensures { (seen : List Section) → KnowsSections seen self.old → KnowsSections (seen ++ section ∷ []) self.new }
    {
        match self.first {
            Some(first) => {
                if first == section {
                    return;
                }
                self.has_more = true;
            }
            None => self.first = Some(section),
        }
    }

    /// Whether there are several.
    pub(crate) fn has_more(&self) -> bool
        ensures { result ≡ self.now.has_more }
    {
        self.has_more
    }
}
