//! What is written, how a report is laid out, and why it wasn't written.
ghost use Rattle.std.specs.Prelude.{◌≡◌, ◌++◌, IfOk, OnOk, find, map};
ghost use Rattle.std.specs.Str.{bytes_eq};
ghost use Rattle.smq_tally.specs.Lists.{lists};
ghost use Rattle.smq_tally.specs.Names.{list_name, view_name};
ghost use Rattle.smq_tally.specs.Rows.{views};
ghost use Rattle.smq_report.specs.Picks.{is_named, picks};
ghost use Rattle.smq_report.specs.declared.pick.ReportFault.TheVariants.{Memory, Write};
ghost use Rattle.smq_report.specs.Sections.{sections_of};

use smq_tally::{List, View};
use std::alloc::{AllocError, Global};
use std::io;

/// Which views and lists a report tells.
#[derive(Clone, Copy, Debug, PartialEq, Eq)]
pub enum Pick {
    /// All views, and then all lists.
    All,
    /// One view.
    View(View),
    /// One list.
    List(List),
}

impl Pick {
    /// The view or the list of a name.
    pub fn named(name: &[u8]) -> Option<Pick>
        ensures { result ≡ find (is_named name.now) picks }
    {
        match view_named(name) {
            Some(view) => Some(Pick::View(view)),
            None => match list_named(name) {
                Some(list) => Some(Pick::List(list)),
                None => None,
            },
        }
    }
}

/// The view of a name.
fn view_named(name: &[u8]) -> Option<View>
    ensures { result ≡ find (λ view. bytes_eq (view_name view) name.now) views }
{
    View::all()
        .iter()
        .copied()
        .find(|view| view.name().as_bytes() == name)
}

/// The list of a name.
fn list_named(name: &[u8]) -> Option<List>
    ensures { result ≡ find (λ list. bytes_eq (list_name list) name.now) lists }
{
    List::all()
        .iter()
        .copied()
        .find(|list| list.name().as_bytes() == name)
}

/// How a report is laid out.
#[derive(Clone, Copy, Debug, PartialEq, Eq)]
pub enum Format {
    /// A record of five fields for each row and each place.
    Csv,
    /// A line for each view and list, and under it columns.
    Table,
}

/// What is asked of a report, and how it is laid out.
#[derive(Clone, Copy, Debug, PartialEq, Eq)]
pub struct Query {
    pub pick: Pick,
    pub format: Format,
}

/// What is written of what is present.
#[derive(Clone, Copy, Debug, PartialEq, Eq)]
pub enum Output {
    /// What a query asks of the report.
    Report(Query),
    /// A line for each message.
    Messages,
    /// A line for each delivery receipt.
    Receipts,
}

/// A part of a report.
#[derive(Clone, Copy, Debug, PartialEq, Eq)]
pub enum Section {
    /// The rows of a view.
    View(View),
    /// The places of a list.
    List(List),
}

/// The sections that a report tells, in order.
pub(crate) fn sections_of(alloc: Global, pick: Pick) -> Result<Vec<Section>, AllocError>
    ensures { IfOk result (λ sections. sections.items ≡ sections_of pick) }
{
    let mut sections = Vec::new(alloc);
    match pick {
        Pick::All => {
            push_views(&mut sections, View::all())?;
            push_lists(&mut sections, List::all())?;
        }
        Pick::View(view) => sections.push(Section::View(view))?,
        Pick::List(list) => sections.push(Section::List(list))?,
    }
    Ok(sections)
}

/// Puts views after the sections.
fn push_views(sections: &mut Vec<Section>, views: &[View]) -> Result<(), AllocError>
    ensures { OnOk result
        (sections.new.items ≡ sections.old.items ++ map Section.View views.now) }
{
    for view in views {
        sections.push(Section::View(*view))?;
    }
    Ok(())
}

/// Puts lists after the sections.
fn push_lists(sections: &mut Vec<Section>, lists: &[List]) -> Result<(), AllocError>
    ensures { OnOk result
        (sections.new.items ≡ sections.old.items ++ map Section.List lists.now) }
{
    for list in lists {
        sections.push(Section::List(*list))?;
    }
    Ok(())
}

/// Why a report wasn't written. Some of its text may have gone out.
#[derive(Clone, Copy, Debug, PartialEq, Eq)]
pub enum ReportFault {
    /// The writer failed in this call.
    Write,
    /// Memory ran out.
    Memory,
}

impl From<AllocError> for ReportFault {
    ghost from_gives = { λ _ fault. fault ≡ Memory };

    fn from(_: AllocError) -> ReportFault {
        ReportFault::Memory
    }
}

impl From<io::Error> for ReportFault {
    ghost from_gives = { λ _ fault. fault ≡ Write };

    fn from(_: io::Error) -> ReportFault {
        ReportFault::Write
    }
}
