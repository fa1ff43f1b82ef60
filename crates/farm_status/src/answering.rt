//! What a request over HTTP is answered.

ghost use Rattle.std.specs.Prelude.{◌≡◌, IfOk, option_copied, option_map, string_bytes};
ghost use Rattle.std.specs.Option.{option_or};
ghost use Rattle.http.specs.Request.{body_of};
ghost use Rattle.http_header.specs.FieldValue.{plain_value};
ghost use Rattle.http_server.specs.Response.{fields_of};
ghost use Rattle.farm_status.specs.Replies.{HasStatus, HasText, IsAnswered, change_by, is_of, look_by, methods_for, reply_by, token_of, type_for};

use crate::health::health_of;
use crate::json::push_json;
use crate::metrics::push_metrics;
use crate::page::push_page;
use crate::reply::{Jobs, Reply, reply_to};
use crate::status::Status;
use crate::token::Token;
use bytes::Bytes;
use http::header::{ALLOW, AUTHORIZATION, CACHE_CONTROL, CONNECTION, CONTENT_TYPE};
use http::{HeaderValue, Request, StatusCode};
use http_server::{Response, Service};
use std::alloc::{AllocError, Global};

/// Who knows what a node says of itself. It is asked only where somebody wants to read it.
pub trait Source {
    fn status(&self) -> Result<Status<'_>, AllocError>;

    /// What the last change of the terms has come to, on a line.
    fn terms(&self) -> Result<String, AllocError>;

    /// What the last look at an account has come to, on a line.
    fn account(&self) -> Result<String, AllocError>;
}

/// Answers requests for a node.
#[derive(Drop)]
pub struct Answering<'a, S> {
    pub alloc: Global,
    pub source: &'a S,
    /// What whoever may end the node has to show.
    pub token: Option<&'a Token>,
    /// Somebody has asked for the node's end and has shown the token.
    pub stops: bool,
    /// Which jobs on its book the node may be asked for.
    pub jobs: Jobs,
    /// The change of the terms that somebody has asked for who has shown the token.
    pub change: Option<Vec<u8>>,
    /// The account that somebody wants to be looked at who has shown the token.
    pub look: Option<Vec<u8>>,
}

/// The token that a request shows: `Authorization: Bearer TOKEN` (RFC 6750, section 2.1).
fn token_of(request: &Request<Bytes>) -> Option<&[u8]>
    ensures { option_copied result ≡ token_of request.now }
{
    let value = request.headers().get(AUTHORIZATION)?;
    value.as_bytes().strip_prefix(b"Bearer ")
}

/// Whether a request shows the token of the node.
fn shows_token(token: Option<&Token>, request: &Request<Bytes>) -> bool
    ensures { result ≡ is_of (option_copied token.entry) (token_of request.now) }
{
    match (token, token_of(request)) {
        (Some(token), Some(shown)) => token.is(shown),
        (Some(_), None) | (None, _) => false,
    }
}

/// What a request is answered, and whether the node is to end.
fn reply_of(token: Option<&Token>, jobs: Jobs, request: &Request<Bytes>) -> Reply
    ensures { result ≡ reply_by (option_copied token.entry) jobs request.now }
{
    reply_to(
        request.method().as_str(),
        request.uri().path(),
        shows_token(token, request),
        jobs,
    )
}

/// The change of the terms that a request asks for, if its reply is that it is made.
fn change_by(
    alloc: Global,
    reply: Reply,
    request: &Request<Bytes>,
) -> Result<Option<Vec<u8>>, AllocError>
    ensures { IfOk result (λ change. option_map (λ octets. octets.items) change ≡ change_by reply (body_of request.now)) }
{
    if !reply.changes() {
        return Ok(None);
    }
    let text = Vec::from_slice(alloc, request.body().as_slice())?;
    Ok(Some(text))
}

/// The account that a request asks for, if its reply is that it is looked at.
fn look_by(
    alloc: Global,
    reply: Reply,
    request: &Request<Bytes>,
) -> Result<Option<Vec<u8>>, AllocError>
    ensures { IfOk result (λ look. option_map (λ octets. octets.items) look ≡ look_by reply (body_of request.now)) }
{
    if !reply.looks() {
        return Ok(None);
    }
    let text = Vec::from_slice(alloc, request.body().as_slice())?;
    Ok(Some(text))
}

/// What was asked for last: this, or what was before.
fn last_of(asked: Option<Vec<u8>>, before: Option<Vec<u8>>) -> Option<Vec<u8>>
    ensures { option_map (λ octets. octets.items) result ≡ option_or (option_map (λ octets. octets.items) asked) (option_map (λ octets. octets.items) before) }
{
    match asked {
        Some(octets) => Some(octets),
        None => before,
    }
}

/// The type of the text that a reply has.
fn type_of(reply: Reply) -> HeaderValue
    ensures { result ≡ plain_value (type_for reply) }
{
    match reply {
        Reply::Page => HeaderValue::from_static("text/html; charset=utf-8"),
        Reply::Metrics => HeaderValue::from_static("text/plain; version=0.0.4; charset=utf-8"),
        Reply::Json => HeaderValue::from_static("application/json"),
        Reply::Health
        | Reply::Terms
        | Reply::Account
        | Reply::Stops
        | Reply::Changes
        | Reply::Looks
        | Reply::Busy
        | Reply::Forbidden
        | Reply::NotFound
        | Reply::OnlyRead
        | Reply::OnlyPost
        | Reply::ReadOrPost => HeaderValue::from_static("text/plain; charset=utf-8"),
    }
}

/// The methods that a path takes, where another one was used.
fn allowed_by(reply: Reply) -> Option<HeaderValue>
    ensures { result ≡ option_map plain_value (methods_for reply) }
{
    match reply {
        Reply::OnlyRead => Some(HeaderValue::from_static("GET, HEAD")),
        Reply::OnlyPost => Some(HeaderValue::from_static("POST")),
        Reply::ReadOrPost => Some(HeaderValue::from_static("GET, HEAD, POST")),
        Reply::Page
        | Reply::Metrics
        | Reply::Json
        | Reply::Health
        | Reply::Terms
        | Reply::Account
        | Reply::Stops
        | Reply::Changes
        | Reply::Looks
        | Reply::Busy
        | Reply::Forbidden
        | Reply::NotFound => None,
    }
}

/// The text of a reply, where it does not say how the node is.
fn text_of<S: Source>(alloc: Global, source: &S, reply: Reply) -> Result<String, AllocError>
    ensures { IfOk result (λ text. HasText reply (string_bytes text)) }
{
    let mut text = String::new(alloc);
    match reply {
        Reply::Terms => return source.terms(),
        Reply::Account => return source.account(),
        Reply::Page => push_page(&mut text, &source.status()?)?,
        Reply::Metrics => push_metrics(&mut text, &source.status()?)?,
        Reply::Json => push_json(&mut text, &source.status()?)?,
        Reply::Health => {}
        Reply::Stops => text.push_str("the node ends\n")?,
        Reply::Changes => text.push_str("/terms tells what comes of it\n")?,
        Reply::Looks => text.push_str("/account tells what comes of it\n")?,
        Reply::Busy => text.push_str("another one is under way\n")?,
        Reply::Forbidden => text.push_str("the token of the node is missing\n")?,
        Reply::NotFound => text.push_str(
            "there is /, /metrics, /status.json and /health to read, and /stop to post to; at fronts /terms and /account too\n",
        )?,
        Reply::OnlyRead => text.push_str("this is there to be read\n")?,
        Reply::OnlyPost => text.push_str("this is there to be posted to\n")?,
        Reply::ReadOrPost => text.push_str("this is there to be read and to be posted to\n")?,
    }
    Ok(text)
}

/// The status and the text of a reply.
fn told<S: Source>(
    alloc: Global,
    source: &S,
    reply: Reply,
) -> Result<(StatusCode, String), AllocError>
    ensures status { IfOk result (λ told. HasStatus reply told.0) }
    ensures text { IfOk result (λ told. HasText reply (string_bytes told.1)) }
{
    if reply == Reply::Health {
        let status = source.status()?;
        let health = health_of(&status.peers, &status.work);
        return Ok((health.status(), format!(in alloc; "{health}\n")?));
    }
    Ok((reply.status(), text_of(alloc, source, reply)?))
}

impl<S: Source> Service for Answering<'_, S> {
    ghost answers = { λ old request response new. IsAnswered (option_copied old.token) old.jobs old.stops request response.status (fields_of response) new.stops
        × HasText (reply_by (option_copied old.token) old.jobs request) response.body.items
        × (option_map (λ octets. octets.items) new.change ≡ option_or (change_by (reply_by (option_copied old.token) old.jobs request) (body_of request)) (option_map (λ octets. octets.items) old.change))
        × (option_map (λ octets. octets.items) new.look ≡ option_or (look_by (reply_by (option_copied old.token) old.jobs request) (body_of request)) (option_map (λ octets. octets.items) old.look)) };

    fn call(
        &mut self,
        request: &Request<Bytes>,
        response: &mut Response,
    ) -> Result<(), AllocError> {
        let reply = reply_of(self.token, self.jobs, request);
        let (status, text) = told(self.alloc, self.source, reply)?;
        response.add_header(CONTENT_TYPE, type_of(reply))?;
        response.add_header(CACHE_CONTROL, HeaderValue::from_static("no-store"))?;
        response.add_header(CONNECTION, HeaderValue::from_static("close"))?;
        if let Some(methods) = allowed_by(reply) {
            response.add_header(ALLOW, methods)?;
        }
        response.body.push(Bytes::from_string(text)?)?;
        response.status = status;
        let change = change_by(self.alloc, reply, request)?;
        let look = look_by(self.alloc, reply, request)?;
        self.change = last_of(change, self.change.take());
        self.look = last_of(look, self.look.take());
        self.stops = self.stops || reply.stops();
        Ok(())
    }
}
