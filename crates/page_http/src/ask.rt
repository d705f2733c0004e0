ghost use Rattle.std.specs.Prelude.{◌≡◌, ◌≢◌};
ghost use Rattle.page_http.specs.Asks.{AskAnswers, IsAskSendable, IsPlanSendable, Plans, plan_of};
ghost use Rattle.page_http.specs.Asks as spec;
ghost use Rattle.page_http.specs.Routes.{destination_view};
ghost use Rattle.page_http.specs.declared.reply.Allow.TheVariants as allow;

use crate::form::read_form;
use crate::refusal::{AskRefusal, no_data, refused};
use crate::reply::{Allow, Reply};
use crate::request::{AtLeast, BodyKind, Request};
use crate::routes::{Destination, Routes};
use page_datum::{DataRefused, Datum, read_datum};
use page_io::{Memory, Text};
use std::alloc::Global;

/// What a request asks for.
#[derive(Debug, Drop)]
pub enum Ask {
    /// The page of this name with these data.
    Page(Text, Datum),
    /// The number of the set.
    Number,
    /// A new set of the files.
    Reload,
    /// Nothing: the request is refused with this reply.
    Refused(Reply),
}

// What a request asks for, before its data are read.
#[derive(Clone, Copy)]
enum Plan<'r> {
    Refused(AskRefusal),
    Number,
    Reload,
    /// The page of a name with the data of a form.
    Form(&'r str, &'r [u8]),
    /// The page of a name with the data of a JSON text.
    Json(&'r str, &'r [u8]),
}

/// What a request asks for, where the set has this number. It is refused, in this order: with 400
/// where `Set-At-Least` is no number, 404 where the path leads nowhere, 405 where it leads to what
/// has other methods, 409 where `Set-At-Least` is over the number, 415 where a page is posted data
/// of another type, and 400 where these are no data. Fails only if allocation fails.
pub fn read_ask(alloc: Global, request: &Request, number: u64) -> Result<Ask, Memory>
    ensures asks { AskAnswers request.now number result }
    ensures sendable { IsAskSendable result }
{
    match Routes::new(alloc) {
        Ok(routes) => read_ask_by(alloc, &routes, request, number),
        Err(Memory) => Err(Memory),
    }
}

/// The same as `read_ask`, by routes that were made before.
pub fn read_ask_by(
    alloc: Global,
    routes: &Routes,
    request: &Request,
    number: u64,
) -> Result<Ask, Memory>
    ensures asks { AskAnswers request.now number result }
    ensures sendable { IsAskSendable result }
{
    match make_plan(routes, request, number) {
        Plan::Refused(refusal) => match refused(alloc, refusal, number) {
            Ok(reply) => Ok(Ask::Refused(reply)),
            Err(Memory) => Err(Memory),
        },
        Plan::Number => Ok(Ask::Number),
        Plan::Reload => Ok(Ask::Reload),
        Plan::Form(name, form) => match (Text::copy_of(alloc, name), read_form(alloc, form)) {
            (Ok(name), Ok(datum)) => Ok(Ask::Page(name, datum)),
            _ => Err(Memory),
        },
        Plan::Json(name, json) => ask_json(alloc, name, json, number),
    }
}

// What a request asks for, before its data are read.
fn make_plan<'r>(routes: &Routes, request: &'r Request, number: u64) -> Plan<'r>
    ensures plan { Plans (plan_of request.now number) result }
    ensures sendable { IsPlanSendable result }
{
    if is_bad(request.at_least) {
        return Plan::Refused(AskRefusal::BadRequest);
    }
    match routes.find(request.path.as_str()) {
        None => Plan::Refused(AskRefusal::NotFound),
        Some(destination) => plan_destination(request, destination, number),
    }
}

fn is_bad(at_least: AtLeast) -> bool
    ensures { result ≡ spec.is_bad at_least }
{
    match at_least {
        AtLeast::Bad => true,
        _ => false,
    }
}

// What is asked of a destination.
fn plan_destination<'r>(request: &'r Request, destination: Destination<'r>, number: u64) -> Plan<'r>
    ensures plan { let to = destination_view destination.entry in
        Plans (spec.plan_destination request.now to number) result }
    ensures sendable { IsPlanSendable result }
{
    let methods = methods(destination);
    if !has_method(methods, request.method.as_str()) {
        return Plan::Refused(AskRefusal::MethodNotAllowed(methods));
    }
    match behind(request.at_least, number) {
        Some(at_least) => Plan::Refused(AskRefusal::Behind(at_least)),
        None => plan_content(request, destination),
    }
}

// The methods of a destination.
fn methods(destination: Destination<'_>) -> Allow
    ensures methods { result ≡ spec.methods_of (destination_view destination.entry) }
    ensures some { result ≢ allow.Nothing }
{
    match destination {
        Destination::Page(_) => Allow::GetPost,
        Destination::Number => Allow::Get,
        Destination::Reload => Allow::Post,
    }
}

// Whether a method is one of these.
fn has_method(methods: Allow, method: &str) -> bool
    ensures { result ≡ spec.has_method methods method.now }
{
    match methods {
        Allow::Nothing => false,
        Allow::Get => method == "GET",
        Allow::Post => method == "POST",
        Allow::GetPost => method == "GET" || method == "POST",
    }
}

// The number that is asked for, where the set has a lower one.
fn behind(at_least: AtLeast, number: u64) -> Option<u64>
    ensures { result ≡ spec.behind at_least number }
{
    match at_least {
        AtLeast::Number(least) if number < least => Some(least),
        _ => None,
    }
}

fn plan_content<'r>(request: &'r Request, destination: Destination<'r>) -> Plan<'r>
    ensures plan { let to = destination_view destination.entry in
        Plans (spec.plan_content request.now to) result }
    ensures sendable { IsPlanSendable result }
{
    match destination {
        Destination::Page(name) => plan_page(request, name),
        Destination::Number => Plan::Number,
        Destination::Reload => Plan::Reload,
    }
}

// What is asked of a page: its data are the query's at GET, and the body's at POST.
fn plan_page<'r>(request: &'r Request, name: &'r str) -> Plan<'r>
    ensures plan { Plans (spec.plan_page request.now name.now) result }
    ensures sendable { IsPlanSendable result }
{
    if request.method.as_str() == "GET" {
        return Plan::Form(name, request.query.as_slice());
    }
    match request.body_kind {
        BodyKind::Json => Plan::Json(name, request.body.as_slice()),
        BodyKind::Form => Plan::Form(name, request.body.as_slice()),
        BodyKind::Other => Plan::Refused(AskRefusal::UnsupportedMediaType),
    }
}

// The page of a name with the data of a JSON text, or why it is none.
fn ask_json(alloc: Global, name: &str, json: &[u8], number: u64) -> Result<Ask, Memory>
    ensures asks { spec.AskFor (spec.by_json name.now json.now) number result }
    ensures sendable { IsAskSendable result }
{
    match read_datum(alloc, json) {
        Ok(datum) => match Text::copy_of(alloc, name) {
            Ok(name) => Ok(Ask::Page(name, datum)),
            Err(Memory) => Err(Memory),
        },
        Err(DataRefused::Memory) => Err(Memory),
        Err(why) => match no_data(alloc, &why, number) {
            Ok(reply) => Ok(Ask::Refused(reply)),
            Err(Memory) => Err(Memory),
        },
    }
}
