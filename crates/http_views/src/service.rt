//! The service: one call of the source answers each request, and the source knows what it has shown so far. Nothing
//! else changes.
ghost use Rattle.std.specs.Prelude.{◌≡◌, [], codes, OnOk, OnErr};
ghost use Rattle.http_server.specs.Response.{IsBlank, IsResponse, fields_of};
ghost use Rattle.http_views.specs.Answers.{Answers, html_fields, json_kind, method_fields, metrics_kind, plain_kind, text_fields};
ghost use Rattle.http_views.specs.declared.asked.Asked.TheVariants.{Metrics, Document};

use crate::asked::{Asked, asked_by};
use crate::source::ViewSource;
use bytes::{BufMut, Bytes};
use http::{HeaderValue, Request, StatusCode, header};
use http_server::{Response, Service};
use std::alloc::{AllocError, Global};

/// What the page may do: load nothing from elsewhere, and use no forms.
const PAGE_POLICY: &str =
    "default-src 'none'; script-src 'unsafe-inline'; style-src 'unsafe-inline'; connect-src 'self'; base-uri 'none'; form-action 'none'; frame-ancestors 'none'";

/// Answers viewers from a source.
#[derive(Drop)]
pub struct ViewService<'a, S: ViewSource> {
    pub alloc: Global,
    pub source: S,
    /// The name by which viewers may ask for this server; empty if only by its address.
    pub name: &'a str,
    /// The page that draws the network.
    pub page: &'static str,
    /// The JSON document that says where nodes are on a map.
    pub places: &'a [u8],
}

/// Sets the kind of a text, and that no cache keeps it and no browser takes it for another kind.
fn add_kind(response: &mut Response, kind: HeaderValue) -> Result<(), AllocError>
    requires { fields_of response.old ≡ [] }
    ensures headers { OnOk result (fields_of response.new ≡ text_fields kind.bytes) }
    ensures status { response.new.status ≡ response.old.status }
    ensures body { response.new.body ≡ response.old.body }
{
    response.add_header(header::CONTENT_TYPE, kind)?;
    response.add_header(header::CACHE_CONTROL, HeaderValue::from_static("no-store"))?;
    response.add_header(
        header::X_CONTENT_TYPE_OPTIONS,
        HeaderValue::from_static("nosniff"),
    )
}

/// Sets a text as the body.
fn give(response: &mut Response, kind: HeaderValue, text: Vec<u8>) -> Result<(), AllocError>
    requires { IsBlank response.old }
    ensures { OnOk result (IsResponse 200 (text_fields kind.bytes) text.items response.new) }
{
    add_kind(response, kind)?;
    let body = match Bytes::from_vec(text) {
        Ok(body) => body,
        Err(_) => return Err(AllocError),
    };
    response.body.push(body)
}

/// Answers with a JSON document.
pub fn give_document(response: &mut Response, text: Vec<u8>) -> Result<(), AllocError>
    requires { IsBlank response.old }
    ensures { OnOk result (IsResponse 200 (text_fields json_kind) text.items response.new) }
{
    give(response, HeaderValue::from_static("application/json"), text)
}

/// Answers with numbers for a scraper.
pub fn give_metrics(response: &mut Response, text: Vec<u8>) -> Result<(), AllocError>
    requires { IsBlank response.old }
    ensures { OnOk result (IsResponse 200 (text_fields metrics_kind) text.items response.new) }
{
    give(
        response,
        HeaderValue::from_static("text/plain; version=0.0.4; charset=utf-8"),
        text,
    )
}

fn give_page(response: &mut Response, page: &'static str) -> Result<(), AllocError>
    requires { IsBlank response.old }
    ensures { OnOk result (IsResponse 200 html_fields page.now response.new) }
{
    add_kind(
        response,
        HeaderValue::from_static("text/html; charset=utf-8"),
    )?;
    response.add_header(
        header::CONTENT_SECURITY_POLICY,
        HeaderValue::from_static(PAGE_POLICY),
    )?;
    response.body.push(Bytes::from_static(page.as_bytes()))
}

/// Refuses with a status and a line of words.
fn refuse(response: &mut Response, status: StatusCode, words: &str) -> Result<(), AllocError>
    requires { IsBlank response.old }
    ensures { OnOk result (IsResponse status (text_fields plain_kind) words.now response.new) }
{
    response.status = status;
    add_kind(response, HeaderValue::from_static("text/plain"))?;
    response.body.put_slice(words.as_bytes())
}

fn refuse_method(response: &mut Response) -> Result<(), AllocError>
    requires { IsBlank response.old }
    ensures { OnOk result (IsResponse 405 method_fields (codes "method not allowed\n") response.new) }
{
    refuse(
        response,
        StatusCode::METHOD_NOT_ALLOWED,
        "method not allowed\n",
    )?;
    response.add_header(header::ALLOW, HeaderValue::from_static("GET, HEAD"))
}

impl<'a, S: ViewSource> ViewService<'a, S> {
    fn give_places(&self, response: &mut Response) -> Result<(), AllocError>
        requires { IsBlank response.old }
        ensures { OnOk result (IsResponse 200 (text_fields json_kind) self.now.places.now response.new) }
    {
        add_kind(response, HeaderValue::from_static("application/json"))?;
        let body = Bytes::copy_from_slice(self.alloc, self.places)?;
        response.body.push(body)
    }

    fn answer(&mut self, asked: Asked, response: &mut Response) -> Result<(), AllocError>
        requires { IsBlank response.old }
        ensures ok { OnOk result (Answers S.is_document S.is_metrics self.old.page.now self.old.places.now self.old.source asked response.new self.new.source) }
        ensures err { OnErr result (self.new.source ≡ self.old.source) }
        ensures same { self.new ≡ record self.old { source = self.new.source } }
    {
        match asked {
            Asked::Page => give_page(response, self.page),
            Asked::Metrics => self.source.metrics(response),
            Asked::Places => self.give_places(response),
            Asked::Document(ask) => self.source.document(&ask, response),
            Asked::Wrong(wrong) => refuse(response, StatusCode::BAD_REQUEST, wrong.text()),
            Asked::NotFound => refuse(response, StatusCode::NOT_FOUND, "not found\n"),
            Asked::NotAllowed => refuse_method(response),
        }
    }
}

impl<'a, S: ViewSource> Service for ViewService<'a, S> {
    ghost use Rattle.std.specs.Prelude.{◌≡◌};
    ghost use Rattle.http_views.specs.Answers.{Answers};
    ghost use Rattle.http_views.specs.Asked.{asked_by};

    ghost answers = { λ old request response new.
        (new ≡ record old { source = new.source }) × Answers S.is_document S.is_metrics old.page.now old.places.now old.source (asked_by old.name.now request) response new.source };

    fn call(
        &mut self,
        request: &Request<Bytes>,
        response: &mut Response,
    ) -> Result<(), AllocError> {
        self.answer(asked_by(self.name, request), response)
    }
}
