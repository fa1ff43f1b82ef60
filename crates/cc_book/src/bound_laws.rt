//! Laws of the bounds of amounts.
#![tactic(auto, unfolding(crate::specs::AccountMachine::kept_reply, crate::specs::AccountMachine::postings_of, crate::specs::AccountMachine::reply_to,))]

ghost use Rattle.std.specs.Prelude.{◌≡◌, ◌+◌, ◌-◌, ◌^◌, ◌≤◌, All, List, [], ◌∷◌, ◌++◌, codes, None, true, false, pos, negsuc, Ok, Err};
ghost use Rattle.std.specs.List.{AllByRecursion};
ghost use Rattle.cc_view.specs.declared.code.ResultCode.TheVariants.{Success, UnableToComply};
ghost use Rattle.cc_view.specs.declared.request.CcRequest.{CcRequest};
ghost use Rattle.cc_view.specs.declared.request.RequestedAction.TheVariants.{RefundAccount};
ghost use Rattle.cc_rating.specs.Tariffs.{fault_of};
ghost use Rattle.cc_book.specs.declared.book.BookRefusal.TheVariants.{Full};
ghost use Rattle.cc_book.specs.declared.entry.Entry.{Entry};
ghost use Rattle.cc_book.specs.declared.terms.Terms.{Terms};
ghost use Rattle.cc_book.specs.AccountMachine.{code_alone, postings_of, terms_of};
ghost use Rattle.cc_book.specs.BoundExample.{all_reserved, balance_edge, block_returned, block_used, edge_book, edge_terms, reserved_edge};
ghost use Rattle.cc_book.specs.Bounds.{IsInRange, MovesLittle, OpensSmall, bears, bears_request};
ghost use Rattle.cc_book.specs.RowExample.{event_on, initial_again, no_units, success, taken, termination};
ghost use Rattle.cc_book.specs.Taking.{Ledger, answer_of, answer_within};

/// An entry debits or credits at most 2^103 and is granted at most 2^89, where tariffs and requests are in their ranges.
pub fn entries_move_little()
    ensures { (terms : Terms) (history : List Entry) → fault_of terms.tariffs ≡ None → All IsInRange history →
        AllByRecursion MovesLittle (postings_of terms history) }
{}

/// No amount of a short history comes near its bounds. So a book with a limit of at most 2^20 entries is full exactly at
/// its limit, where its opening amounts are of 64 bits, and tariffs and requests are in their ranges, or whatever they
/// are, no entry has moved more than a request can that is.
pub fn short_books_are_full_at_their_limit()
    ensures by_ranges { (ledger : Ledger) (request : CcRequest) → ledger.limit ≤ 2 ^ 20 → OpensSmall ledger.terms →
        fault_of ledger.terms.tariffs ≡ None → All IsInRange ledger.history → answer_within ledger request ≡ answer_of ledger request }
    ensures by_moves { (ledger : Ledger) (request : CcRequest) → ledger.limit ≤ 2 ^ 20 → OpensSmall (terms_of ledger.terms ledger.history) →
        AllByRecursion MovesLittle (postings_of ledger.terms ledger.history) → answer_within ledger request ≡ answer_of ledger request }
{}

/// The worked example: which amounts an account bears one more request with. A request debits or credits at most 2^103
/// and is granted at most 2^89, and amounts stay below 2^124.
pub fn accounts_bear_requests_below_their_bounds()
    ensures below { bears (pos (2 ^ 124 - 2 ^ 103 - 1)) 0 ≡ true }
    ensures at { bears (pos (2 ^ 124 - 2 ^ 103)) 0 ≡ false }
    ensures above { bears (pos (2 ^ 124 - 2 ^ 103 + 1)) 0 ≡ false }
    ensures debt_below { bears (negsuc (2 ^ 124 - 2 ^ 103 - 2)) 0 ≡ true }
    ensures debt_at { bears (negsuc (2 ^ 124 - 2 ^ 103 - 1)) 0 ≡ false }
    ensures held_below { bears (pos 0) (2 ^ 124 - 2 ^ 89 - 1) ≡ true }
    ensures held_at { bears (pos 0) (2 ^ 124 - 2 ^ 89) ≡ false }
{}

/// The worked example: a debit of 20 brings an account to its bound, one short of it, or beyond. At the bound a new
/// request that charges it is refused as by a full book; a kept one is answered, and so is one that charges no account.
pub fn accounts_at_their_bound_refuse_requests()
    ensures before { bears_request (edge_terms 20 (negsuc (balance_edge - 21))) [] block_used ≡ true }
    ensures below { bears_request (edge_terms 20 (negsuc (balance_edge - 22))) (postings_of (edge_terms 20 (negsuc (balance_edge - 22))) (taken 1000 block_used ∷ [])) (termination (codes "491700000001") 0) ≡ true }
    ensures at { bears_request (edge_terms 20 (negsuc (balance_edge - 21))) (postings_of (edge_terms 20 (negsuc (balance_edge - 21))) (taken 1000 block_used ∷ [])) (termination (codes "491700000001") 0) ≡ false }
    ensures beyond { bears_request (edge_terms 20 (negsuc (balance_edge - 20))) (postings_of (edge_terms 20 (negsuc (balance_edge - 20))) (taken 1000 block_used ∷ [])) (termination (codes "491700000001") 0) ≡ false }
    ensures answered { answer_within (edge_book 20 (negsuc (balance_edge - 22)) (taken 1000 block_used ∷ [])) (termination (codes "491700000001") 0)
        ≡ Ok (record { reply = success (no_units None Success ∷ []); place = 1; fresh = true }) }
    ensures refused { answer_within (edge_book 20 (negsuc (balance_edge - 21)) (taken 1000 block_used ∷ [])) (termination (codes "491700000001") 0) ≡ Err (Full 10) }
    ensures repeated { answer_within (edge_book 20 (negsuc (balance_edge - 21)) (taken 1000 block_used ∷ [])) block_used
        ≡ Ok (record { reply = success (no_units None Success ∷ []); place = 0; fresh = false }) }
    ensures stranger { answer_within (edge_book 20 (negsuc (balance_edge - 21)) (taken 1000 block_used ∷ [])) (initial_again (codes "499"))
        ≡ Ok (record { reply = code_alone UnableToComply; place = 1; fresh = true }) }
{}

/// The worked example: what sessions have reserved counts beside the balance. With all of it reserved the account does
/// not bear a request; once it is returned, it does.
pub fn what_is_reserved_is_bounded_too()
    ensures below { bears_request (edge_terms (reserved_edge - 1) (pos (reserved_edge - 1))) (postings_of (edge_terms (reserved_edge - 1) (pos (reserved_edge - 1))) all_reserved) block_returned ≡ true }
    ensures at { bears_request (edge_terms reserved_edge (pos reserved_edge)) (postings_of (edge_terms reserved_edge (pos reserved_edge)) all_reserved) block_returned ≡ false }
    ensures returned { bears_request (edge_terms reserved_edge (pos reserved_edge)) (postings_of (edge_terms reserved_edge (pos reserved_edge)) (all_reserved ++ taken 3000 block_returned ∷ []))
        (event_on (codes "491700000001") RefundAccount) ≡ true }
{}
