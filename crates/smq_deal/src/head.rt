//! The rows of a script that set: forms, windows and routes, and its clock.
ghost use Rattle.std.specs.Prelude.{◌≡◌, ◌++◌, IfOk, OnOk, Some, decimal, flat_map, string_bytes};
ghost use Rattle.std.specs.Io.KnownBytes.{Appends};
ghost use Rattle.smq_deal.specs.Texts as spec;
ghost use Rattle.smq_deal.specs.Texts.{IsSetting, head_text, none_set, sets_of, with_setting};

use smq_kit::{Digits, Form, LinkId, Moment, Network, RouteId, Window};
use smq_load::Row;
use smq_present::Edit;
use smq_report::ReportFault;
use std::alloc::{AllocError, Global};
use std::collections::BTreeMap;
use std::io::Write;

/// The rows that set. Of forms and windows the last of each link is kept; rows of routes are, in order.
#[derive(Drop)]
pub struct Head {
    forms: BTreeMap<LinkId, (Form, Form)>,
    windows: BTreeMap<LinkId, Window>,
    routes: Vec<u8>,
    clock: Option<Moment>,
}

/// What a row sets.
#[derive(Drop)]
pub enum Setting {
    Forms {
        link: LinkId,
        response: Form,
        receipt: Form,
    },
    Window {
        link: LinkId,
        window: Window,
    },
    /// The row of a route, as text.
    Route(Vec<u8>),
    Clock(Moment),
}

impl Setting {
    /// What a row sets, where it does.
    pub fn of(alloc: Global, row: &Row) -> Result<Option<Setting>, AllocError>
        ensures { IfOk result (λ made. IsSetting row.now made) }
    {
        let Row::Plain(edit) = row else {
            return Ok(None);
        };
        Ok(match edit {
            Edit::SetForm {
                link,
                response,
                receipt,
            } => Some(Setting::Forms {
                link: *link,
                response: *response,
                receipt: *receipt,
            }),
            Edit::SetWindow { link, window } => Some(Setting::Window {
                link: *link,
                window: *window,
            }),
            Edit::AddRoute {
                prefix,
                from,
                route,
                network,
            } => Some(Setting::Route(route_row(alloc, "route", prefix, *from, *route, network)?)),
            Edit::CorrectRoute {
                prefix,
                from,
                route,
                network,
            } => Some(Setting::Route(route_row(alloc, "correct", prefix, *from, *route, network)?)),
            Edit::EndRoute {
                prefix,
                from,
                until,
            } => Some(Setting::Route(end_row(alloc, prefix, *from, *until)?)),
            Edit::Advance { clock } => Some(Setting::Clock(*clock)),
            Edit::Append { batch: _ } => None,
            Edit::Withdraw { session: _ } => None,
        })
    }
}

impl Head {
    /// None is there yet.
    pub fn new(alloc: Global) -> Head
        ensures { sets_of result ≡ none_set }
    {
        Head {
            forms: BTreeMap::new(alloc),
            windows: BTreeMap::new(alloc),
            routes: Vec::new(alloc),
            clock: None,
        }
    }

    /// Adds what a row sets that wasn't refused.
    pub fn add(&mut self, setting: Setting) -> Result<(), AllocError>
        ensures { OnOk result (sets_of self.new ≡ with_setting (sets_of self.old) setting) }
    {
        match setting {
            Setting::Forms {
                link,
                response,
                receipt,
            } => {
                self.forms.insert(link, (response, receipt))?;
            }
            Setting::Window { link, window } => {
                self.windows.insert(link, window)?;
            }
            Setting::Route(row) => self.routes.extend_from_slice(row.as_slice())?,
            Setting::Clock(clock) => self.clock = Some(clock),
        }
        Ok(())
    }

    /// Writes the rows, the clock last: at a moment, where one is given, and else where the script left it.
    pub(crate) fn write<W: Write>(
        &self,
        alloc: Global,
        clock: Option<Moment>,
        writer: &mut W,
    ) -> Result<(), ReportFault>
        ensures { OnOk result (Appends (W.contents writer.old) (W.contents writer.new) (head_text self.now clock)) }
    {
        self.write_forms(alloc, writer)?;
        self.write_windows(alloc, writer)?;
        send(writer, self.routes.as_slice())?;
        write_clock(alloc, clock.or(self.clock), writer)
    }

    /// Writes a row for the forms of each link.
    fn write_forms<W: Write>(&self, alloc: Global, writer: &mut W) -> Result<(), ReportFault>
        ensures { OnOk result (Appends (W.contents writer.old) (W.contents writer.new)
            (flat_map spec.form_row self.now.forms.entries)) }
    {
        for (link, (response, receipt)) in &self.forms {
            let row = form_row(alloc, *link, *response, *receipt)?;
            send(writer, row.as_bytes())?;
        }
        Ok(())
    }

    /// Writes a row for the window of each link.
    fn write_windows<W: Write>(&self, alloc: Global, writer: &mut W) -> Result<(), ReportFault>
        ensures { OnOk result (Appends (W.contents writer.old) (W.contents writer.new)
            (flat_map spec.window_row self.now.windows.entries)) }
    {
        for (link, window) in &self.windows {
            let row = window_row(alloc, *link, *window)?;
            send(writer, row.as_bytes())?;
        }
        Ok(())
    }
}

/// Writes the row of a clock, where there is one.
fn write_clock<W: Write>(
    alloc: Global,
    clock: Option<Moment>,
    writer: &mut W,
) -> Result<(), ReportFault>
    ensures { OnOk result (Appends (W.contents writer.old) (W.contents writer.new) (spec.clock_row clock)) }
{
    match clock {
        Some(clock) => {
            let row = clock_row(alloc, clock)?;
            send(writer, row.as_bytes())
        }
        None => Ok(()),
    }
}

/// The row of a link's forms.
fn form_row(
    alloc: Global,
    link: LinkId,
    response: Form,
    receipt: Form,
) -> Result<String, AllocError>
    ensures { IfOk result (λ row. string_bytes row ≡ spec.form_row (link, (response, receipt))) }
{
    let number = link.0;
    let response = form_name(response);
    let receipt = form_name(receipt);
    format!(in alloc; "form,{number},{response},{receipt}\n")
}

/// The row of a link's window.
fn window_row(alloc: Global, link: LinkId, window: Window) -> Result<String, AllocError>
    ensures { IfOk result (λ row. string_bytes row ≡ spec.window_row (link, window)) }
{
    let number = link.0;
    let milliseconds = window.milliseconds();
    format!(in alloc; "window,{number},{milliseconds}\n")
}

/// The row of a clock.
fn clock_row(alloc: Global, clock: Moment) -> Result<String, AllocError>
    ensures { IfOk result (λ row. string_bytes row ≡ spec.clock_row (Some clock)) }
{
    let milliseconds = clock.milliseconds();
    format!(in alloc; "clock,{milliseconds}\n")
}

/// A row of a kind that names a version of a route, its route and its network.
fn route_row(
    alloc: Global,
    kind: &str,
    prefix: &Digits,
    from: Moment,
    route: RouteId,
    network: &Network,
) -> Result<Vec<u8>, AllocError>
    ensures { IfOk result (λ row. row.items ≡ spec.route_row kind.now prefix.now from route.0 network.now) }
{
    let mut row = begun(alloc, kind, prefix, from)?;
    put_number(alloc, &mut row, u64::from(route.0))?;
    row.extend_from_slice(b",")?;
    row.extend_from_slice(network.as_slice())?;
    row.extend_from_slice(b"\n")?;
    Ok(row)
}

/// The row that ends a version of a route.
fn end_row(
    alloc: Global,
    prefix: &Digits,
    from: Moment,
    until: Moment,
) -> Result<Vec<u8>, AllocError>
    ensures { IfOk result (λ row. row.items ≡ spec.end_row prefix.now from until) }
{
    let mut row = begun(alloc, "end", prefix, from)?;
    put_number(alloc, &mut row, until.milliseconds())?;
    row.extend_from_slice(b"\n")?;
    Ok(row)
}

/// The beginning of a row of a kind that names a version of a route.
fn begun(alloc: Global, kind: &str, prefix: &Digits, from: Moment) -> Result<Vec<u8>, AllocError>
    ensures { IfOk result (λ row. row.items ≡ spec.version_text kind.now prefix.now from) }
{
    let mut row = Vec::from_slice(alloc, kind.as_bytes())?;
    row.extend_from_slice(b",")?;
    row.extend_from_slice(prefix.as_slice())?;
    row.extend_from_slice(b",")?;
    put_number(alloc, &mut row, from.milliseconds())?;
    row.extend_from_slice(b",")?;
    Ok(row)
}

/// Puts the decimal digits of a number behind a row.
fn put_number(alloc: Global, row: &mut Vec<u8>, number: u64) -> Result<(), AllocError>
    ensures { OnOk result (row.new.items ≡ row.old.items ++ decimal number) }
{
    let digits = format!(in alloc; "{number}")?;
    row.extend_from_slice(digits.as_bytes())
}

/// How rows name a form.
fn form_name(form: Form) -> &'static str
    ensures { result.now ≡ spec.form_name form }
{
    match form {
        Form::Verbatim => "verbatim",
        Form::Decimal => "decimal",
        Form::Hexadecimal => "hexadecimal",
    }
}

/// Writes a text.
fn send<W: Write>(writer: &mut W, text: &[u8]) -> Result<(), ReportFault>
    ensures { OnOk result (Appends (W.contents writer.old) (W.contents writer.new) text.now) }
{
    match writer.write_all(text) {
        Ok(()) => Ok(()),
        Err(_) => Err(ReportFault::Write),
    }
}
