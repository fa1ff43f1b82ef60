//! Laws. Each is the contract of a function without a body.

ghost use Rattle.std.specs.Prelude.{◌≡◌, ℕ, List, Option, None, false};
ghost use Rattle.farm_status.specs.declared.reply.Jobs.{Jobs};
ghost use Rattle.farm_status.specs.declared.token.Token.{Token};
ghost use Rattle.farm_status.specs.Replies.{is_of, reply_by, token_of};
ghost use Rattle.http.specs.declared.request.Request.{Request};
ghost use Rattle.status_law.specs.Holding.{needs_token};

/// What anybody shows is no token of a node that has none.
pub fn no_token_is_nobodys()
    ensures { (shown : Option (List ℕ)) → is_of None shown ≡ false }
{}

/// Whoever does not show the token of a node neither ends it nor changes the terms of its book, and neither asks for an account nor is told
/// of one.
pub fn who_has_no_token_may_only_read()
    ensures { (token : Option Token) (jobs : Jobs) (request : Request (List ℕ)) → is_of token (token_of request) ≡ false → needs_token (reply_by token jobs request) ≡ false }
{}
