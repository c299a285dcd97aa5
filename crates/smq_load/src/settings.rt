//! Settings: one TOML document with a clock, and the forms and the windows of links, each optional.
ghost use Rattle.std.specs.Prelude.{◌≡◌, IfOk, IfErr, Some, option_map};
ghost use Rattle.toml.specs.Errors.{IsMemory};
ghost use Rattle.toml.specs.View.{table_view, view};
ghost use Rattle.smq_load.specs.Settings.{TellsOfSettings, clock_of, rows_in, rows_with, settings_of};

use crate::link_settings::{LinkSettings, read_links};
use crate::load_fault::LoadFault;
use crate::record::Row;
use crate::table::{Keys, has_known_keys, read_number, value_at};
use smq_kit::{LAST_MOMENT, Moment};
use smq_present::Edit;
use std::alloc::{AllocError, Global};
use std::str;
use toml::de::Error;
use toml::{Table, Value};

/// How many octets settings may have.
pub const MOST_SETTINGS: usize = 1_048_576;

/// The rows of settings: of each link in order its forms, and then its window where it is set, and last the clock where it is set. Errors: `BadSettings` where
/// the octets say no rows; `Memory`.
pub fn read_settings(alloc: Global, octets: &[u8]) -> Result<Vec<Row>, LoadFault>
    ensures ok { IfOk result (λ rows. settings_of octets.now ≡ Some rows.items) }
    ensures bad_settings { IfErr result (TellsOfSettings (settings_of octets.now)) }
{
    if octets.len() > MOST_SETTINGS {
        return Err(LoadFault::BadSettings);
    }
    let Ok(text) = str::from_utf8(octets) else {
        return Err(LoadFault::BadSettings);
    };
    match toml::table_from_str(alloc, text) {
        Ok(table) => read_document(alloc, &table),
        Err(error) => Err(fault_of(&error)),
    }
}

/// Want of memory, or a text that is no TOML.
fn fault_of(error: &Error) -> LoadFault
    ensures memory { IsMemory error.now → result ≡ LoadFault.Memory }
    ensures bad_settings { ¬ IsMemory error.now → result ≡ LoadFault.BadSettings }
{
    if error.is_memory() {
        LoadFault::Memory
    } else {
        LoadFault::BadSettings
    }
}

/// The rows of a document, where each of its keys is known and each value can be read.
fn read_document(alloc: Global, table: &Table) -> Result<Vec<Row>, LoadFault>
    ensures ok { IfOk result (λ rows. rows_in (table_view table.now) ≡ Some rows.items) }
    ensures bad_settings { IfErr result (TellsOfSettings (rows_in (table_view table.now))) }
{
    if !has_known_keys(table, Keys::Document) {
        return Err(LoadFault::BadSettings);
    }
    let Some(links) = read_links(alloc, value_at(table, "link"))? else {
        return Err(LoadFault::BadSettings);
    };
    let Some(clock) = read_clock(value_at(table, "clock")) else {
        return Err(LoadFault::BadSettings);
    };
    Ok(rows_with(alloc, links.as_slice(), clock)?)
}

/// The moment of a document's `clock`, where it is one, or none where it is absent.
fn read_clock(value: Option<&Value>) -> Option<Option<Moment>>
    ensures { result ≡ clock_of (option_map (λ v. view v.now) value.entry) }
{
    let Some(value) = value else {
        return Some(None);
    };
    let milliseconds = read_number(value, LAST_MOMENT)?;
    Some(Some(Moment::new(milliseconds).ok()?))
}

/// The rows of links, in order, and then of the clock.
fn rows_with(
    alloc: Global,
    links: &[LinkSettings],
    clock: Option<Moment>,
) -> Result<Vec<Row>, AllocError>
    ensures { IfOk result (λ rows. rows.items ≡ rows_with links.now clock) }
{
    let mut rows = Vec::new(alloc);
    for link in links {
        link.push_rows(&mut rows)?;
    }
    if let Some(clock) = clock {
        rows.push(Row::Plain(Edit::Advance { clock }))?;
    }
    Ok(rows)
}
