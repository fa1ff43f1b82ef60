//! Copies of requests and replies.

ghost use Rattle.std.specs.Prelude.{◌≡◌, IfOk};

use cc_view::{CcReply, CcRequest, Services};
use dia_avp::Octets;
use dia_base::Listing;
use std::alloc::{AllocError, Global};
use std::marker::Model;

/// A copy of a request, and two more of its Session-Id: the entry keeps the one, the places of requests and the open
/// sessions the others, where they do not know it yet.
pub struct RequestCopy {
    request: CcRequest,
    session: Octets,
    opened: Octets,
}

// By hand, so that each exit of an owner is proved with one call.
impl Drop for RequestCopy {
    fn drop(self) {
        let RequestCopy {
            request: _,
            session: _,
            opened: _,
        } = self;
    }
}

impl Model for RequestCopy {
    ghost use Rattle.std.specs.Prelude.{◌≡◌};
    ghost use Rattle.cc_view.specs.declared.request.CcRequest.{CcRequest as Request};

    ghost Value = { Request };

    ghost view = { λ copy. copy.request };

    ghost invariant = { λ copy. (copy.session ≡ copy.request.session) × (copy.opened ≡ copy.request.session) };
}

impl RequestCopy {
    /// A copy of the request.
    pub fn of(alloc: Global, request: &CcRequest) -> Result<Self, AllocError>
        ensures { IfOk result (λ copy. copy ≡ request.now) }
    {
        Ok(RequestCopy {
            request: copy_of_request(alloc, request)?,
            session: request.session.clone()?,
            opened: request.session.clone()?,
        })
    }

    /// The copy, and its Session-Id twice.
    pub fn into_parts(self) -> (CcRequest, Octets, Octets)
        ensures request { result.0 ≡ self }
        ensures session { result.1 ≡ self.session }
        ensures opened { result.2 ≡ self.session }
    {
        let RequestCopy {
            request,
            session,
            opened,
        } = self;
        (request, session, opened)
    }
}

fn copy_of_request(alloc: Global, request: &CcRequest) -> Result<CcRequest, AllocError>
    ensures { IfOk result (λ copy. copy ≡ request.now) }
{
    Ok(CcRequest {
        session: request.session.clone()?,
        number: request.number,
        kind: request.kind,
        action: request.action,
        subscriptions: Listing::from_vec(request.subscriptions.as_slice().to_vec(alloc)?),
        services: Services::from_vec(request.services.as_slice().to_vec(alloc)?),
    })
}

/// A copy of the reply.
pub fn copy_of_reply(alloc: Global, reply: &CcReply) -> Result<CcReply, AllocError>
    ensures { IfOk result (λ copy. copy ≡ reply.now) }
{
    Ok(CcReply {
        code: reply.code,
        services: Listing::from_vec(reply.services.as_slice().to_vec(alloc)?),
        cost: reply.cost,
        check: reply.check,
    })
}
