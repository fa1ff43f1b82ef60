//! What a node says of itself to those who run it: a page for people, and the text format that Prometheus reads.
//!
//! - [`Status`]: what it says, as plain data. [`Source`]: who knows it, and is asked only when somebody wants to read it.
//! - [`push_page`]: the page, in HTML, without a script, and with nothing that is loaded from elsewhere.
//! - [`push_metrics`]: the text for Prometheus. [`push_json`]: the same as JSON.
//! - [`health_of`]: whether it can do its work, which a relay is to forward requests, and fronts to charge them.
//! - [`Answering`]: what a request over HTTP is answered: `GET /` the page, `GET /metrics` the text, `GET
//!   /status.json` the JSON, `GET /health` 200 or 503 with the reason, `POST /stop` with the node's [`Token`] the word that the node is
//!   to end, `POST /terms` with it the change of the terms of its book, `GET /terms` what the last one has come to, `POST /account` with
//!   it the look at an account, `GET /account` with it what the last one has come to, and all else 403, 404, 405 or 409.
//!
//! There is no socket here: whoever has one hands octets to a connection of `http_server`.
#![tactic(auto)]

mod answering;
mod escape;
mod figures;
mod health;
mod json;
mod lately;
mod metrics;
mod names;
mod numbers;
mod page;
mod peers;
mod reply;
mod status;
mod tiles;
mod token;

pub use answering::{Answering, Source};
pub use escape::{push_html, push_label};
pub use health::{Health, health_of};
pub use json::push_json;
pub use metrics::push_metrics;
pub use names::code_name;
pub use page::push_page;
pub use reply::{Job, Jobs, Reply, reply_to};
pub use status::{
    BookFile, BookStatus, Connections, FrontStatus, Peer, PeerPast, PeerState, ServedCount,
    SiteFile, Status, Work,
};
pub use token::{TOKEN_LEAST, TOKEN_MOST, Token, TokenFault};
