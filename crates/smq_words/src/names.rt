//! The names that words may have.
ghost use Rattle.std.specs.Prelude.{◌++◌, ◌≡◌, IfOk, map};
ghost use Rattle.smq_tally.specs.Names.{list_name, view_name};
ghost use Rattle.smq_report.specs.Picks.{pick_names};
ghost use Rattle.smq_words.specs.Words.{texts_of};

use smq_tally::{List, View};
use std::alloc::{AllocError, Global};

/// The names of formats.
pub static FORMATS: [&str; 2] = ["csv", "table"];

/// The names of views and lists, in the order of reports.
pub fn pick_names(alloc: Global) -> Result<Vec<&'static str>, AllocError>
    ensures { IfOk result (λ names. texts_of names.items ≡ pick_names) }
{
    let names = with_views(Vec::new(alloc), View::all())?;
    with_lists(names, List::all())
}

/// The names, and then those of views.
pub fn with_views(
    mut names: Vec<&'static str>,
    views: &[View],
) -> Result<Vec<&'static str>, AllocError>
    ensures { IfOk result (λ made.
        texts_of made.items ≡ texts_of names.entry.items ++ map view_name views.now) }
{
    for view in views {
        names.push(view.name())?;
    }
    Ok(names)
}

/// The names, and then those of lists.
pub fn with_lists(
    mut names: Vec<&'static str>,
    lists: &[List],
) -> Result<Vec<&'static str>, AllocError>
    ensures { IfOk result (λ made.
        texts_of made.items ≡ texts_of names.entry.items ++ map list_name lists.now) }
{
    for list in lists {
        names.push(list.name())?;
    }
    Ok(names)
}
