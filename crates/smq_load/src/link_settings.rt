//! What settings say of links: the forms of their message ids, and their windows.
ghost use Rattle.std.specs.Prelude.{◌≡◌, ◌++◌, IfOk, OnOk, length, map, option_map, vec_len};
ghost use Rattle.toml.specs.View.{array_view, table_view, view};
ghost use Rattle.smq_load.specs.Settings.{are_distinct, fitting, form_in, form_row, id_of, link_in, link_of_table, links_in, links_of, window_in};

use crate::field::read_form;
use crate::record::Row;
use crate::table::{Keys, has_known_keys, read_number, value_at};
use smq_kit::{Form, LAST_MOMENT, LinkId, Window};
use smq_present::Edit;
use std::alloc::{AllocError, Global};
use std::collections::BTreeSet;
use toml::value::Array;
use toml::{Table, Value};

/// How many links settings may name.
pub const MOST_LINKS: usize = 4_096;

/// A link, how its centre writes message ids, and how long its messages wait for their receipts.
#[derive(Clone, Copy, Debug, PartialEq, Eq)]
pub struct LinkSettings {
    pub link: LinkId,
    /// In submit_sm_resp and data_sm_resp.
    pub response: Form,
    /// In delivery receipts.
    pub receipt: Form,
    /// Where it is set.
    pub window: Option<Window>,
}

impl LinkSettings {
    ghost use Rattle.smq_load.specs.Settings.{form_row, link_rows};

    /// The row that sets these forms.
    fn form_row(self) -> Row
        ensures { result ≡ form_row self }
    {
        Row::Plain(Edit::SetForm {
            link: self.link,
            response: self.response,
            receipt: self.receipt,
        })
    }

    /// Puts the rows that set its forms and its window after what is there.
    pub fn push_rows(self, rows: &mut Vec<Row>) -> Result<(), AllocError>
        ensures { OnOk result (rows.new.items ≡ rows.old.items ++ link_rows self) }
    {
        let LinkSettings { link, window, .. } = self;
        rows.push(self.form_row())?;
        if let Some(window) = window {
            rows.push(Row::Plain(Edit::SetWindow { link, window }))?;
        }
        Ok(())
    }
}

/// The links of a document's `link`, none where it is absent.
pub fn read_links(
    alloc: Global,
    value: Option<&Value>,
) -> Result<Option<Vec<LinkSettings>>, AllocError>
    ensures { IfOk result (λ links. option_map (λ l. l.items) links
        ≡ links_of (option_map (λ v. view v.now) value.entry)) }
{
    let Some(value) = value else {
        return Ok(Some(Vec::new(alloc)));
    };
    let Some(tables) = value.as_array() else {
        return Ok(None);
    };
    match read_tables(alloc, tables)? {
        Some(links) => fit(alloc, links),
        None => Ok(None),
    }
}

/// The links of an array's tables, in order.
fn read_tables(alloc: Global, tables: &Array) -> Result<Option<Vec<LinkSettings>>, AllocError>
    ensures { IfOk result (λ links. option_map (λ l. l.items) links
        ≡ links_in (array_view tables.now)) }
{
    let mut links = Vec::new(alloc);
    for value in tables {
        let Some(link) = read_link_table(value) else {
            return Ok(None);
        };
        // (its window is named: else rattle doesn't find that type's module here)
        let window = link.window;
        links.push(LinkSettings { window, ..link })?;
    }
    Ok(Some(links))
}

/// What a value says of a link.
fn read_link_table(value: &Value) -> Option<LinkSettings>
    ensures { result ≡ link_in (view value.now) }
{
    read_link_keys(value.as_table()?)
}

/// What a link table says of its link, with no other key.
fn read_link_keys(table: &Table) -> Option<LinkSettings>
    ensures { result ≡ link_of_table (table_view table.now) }
{
    if !has_known_keys(table, Keys::Link) {
        return None;
    }
    Some(LinkSettings {
        link: read_id(value_at(table, "id"))?,
        response: read_form_name(value_at(table, "response"))?,
        receipt: read_form_name(value_at(table, "receipt"))?,
        window: read_window_number(value_at(table, "window"))?,
    })
}

/// The link that an `id` names, which has to be there.
fn read_id(value: Option<&Value>) -> Option<LinkId>
    ensures { result ≡ id_of (option_map (λ v. view v.now) value.entry) }
{
    let number = read_number(value?, u64::from(u32::MAX))?;
    Some(LinkId(number as u32))
}

/// The form that a value names, verbatim where it is absent.
fn read_form_name(value: Option<&Value>) -> Option<Form>
    ensures { result ≡ form_in (option_map (λ v. view v.now) value.entry) }
{
    match value {
        None => Some(Form::Verbatim),
        Some(value) => read_form(value.as_str()?.as_bytes()),
    }
}

/// The window that a value says in ms, or none where it is absent.
fn read_window_number(value: Option<&Value>) -> Option<Option<Window>>
    ensures { result ≡ window_in (option_map (λ v. view v.now) value.entry) }
{
    let Some(value) = value else {
        return Some(None);
    };
    let milliseconds = read_number(value, LAST_MOMENT)?;
    Some(Some(Window::new(milliseconds).ok()?))
}

/// The links, where no number stands twice and there are at most so many.
fn fit(alloc: Global, links: Vec<LinkSettings>) -> Result<Option<Vec<LinkSettings>>, AllocError>
    ensures { IfOk result (λ fit. option_map (λ l. l.items) fit ≡ fitting links.items) }
{
    if links.len() <= MOST_LINKS && are_distinct(alloc, links.as_slice())? {
        Ok(Some(links))
    } else {
        Ok(None)
    }
}

/// Whether no number stands twice.
fn are_distinct(alloc: Global, links: &[LinkSettings]) -> Result<bool, AllocError>
    ensures { IfOk result (λ distinct. distinct
        ≡ are_distinct (map (λ forms. forms.link.0) links.now)) }
{
    let mut numbers = BTreeSet::new(alloc);
    for forms in links {
        if !numbers.insert(forms.link.0)? {
            return Ok(false);
        }
    }
    Ok(true)
}
