//! The one history of a shared book. It exists in the proofs: what threads share of it is its length, and what each knows of it
//! is a beginning that was seen.

ghost use Rattle.std.specs.Prelude.{◌≡◌, ◌<◌, ◌-◌, ◌^◌, ◌++◌, ◌∷◌, ◌⊎◌, [], IfErr, IfOk, None, MatchBool, length, true};
ghost use mathlib.Core.List.{IsPrefix};
ghost use Rattle.cc_book.specs.declared.entry.Entry.TheVariants.{ChangeTerms, Sweep, Take};
ghost use Rattle.logbook.specs.Pages.{Book as LogName};
ghost use Rattle.cc_shared.specs.declared.logged.Logged.{Logged as Record};
ghost use Rattle.cc_shared.specs.declared.logged.Logged.TheVariants.{Closed, Entered};
ghost use Rattle.cc_shared.specs.History.{head_of, is_closed};

use crate::logged::Logged;
use crate::sharing::Sharing;
use cc_book::TermsChange;
use cc_view::CcRequest;
use dia_base::Moment;
use logbook::{Gain, Offer, Plain, Play, Rule, Seen, Start, Word};
use std::marker::{Model, PhantomData};

/// How the history is kept: one word is its length.
pub struct OneHistory;

impl Rule<Logged, u64> for OneHistory {
    ghost use Rattle.std.specs.Prelude.{[]};
    ghost use base.Fml.{ftrue};
    ghost use Rattle.cc_shared.specs.History.{IsKept};

    ghost holds = { λ cells log. IsKept cells log };

    ghost first = { [] };

    ghost hinted = { λ n log. Unit {0} };

    ghost shows = { λ log. [] };

    ghost keeps = { λ names log. ftrue };

    ghost moves = { λ ask before after answer. Unit {0} };
}

/// Callers trade nothing.
pub struct Nothing;

impl Gain<Logged, u64> for Nothing {
    ghost use base.Fml.{ftrue};

    ghost after = { λ names about answer. ftrue };
}

/// A step that adds a record behind all that was seen.
pub struct Add;

impl Play<Logged, u64> for Add {
    ghost use Rattle.cc_shared.specs.History.{Adds};

    ghost then = { Adds };
}

/// A take that is to be added.
#[derive(Clone, Copy)]
pub struct Taking<'a> {
    pub moment: Moment,
    pub request: &'a CcRequest,
}

impl Plain<Taking<'_>, Logged, u64> for Add {
    ghost use Rattle.std.specs.Prelude.{None};
    ghost use Rattle.cc_book.specs.declared.entry.Entry.TheVariants.{Take};
    ghost use Rattle.cc_shared.specs.declared.logged.Logged.TheVariants.{Entered};

    ghost ask = { λ taking. Entered (Take taking.moment taking.request.now) };

    ghost state = { λ taking. None };
}

/// A sweep that is to be added.
#[derive(Clone, Copy)]
pub struct Sweeping {
    pub moment: Moment,
}

impl Plain<Sweeping, Logged, u64> for Add {
    ghost use Rattle.std.specs.Prelude.{None};
    ghost use Rattle.cc_book.specs.declared.entry.Entry.TheVariants.{Sweep};
    ghost use Rattle.cc_shared.specs.declared.logged.Logged.TheVariants.{Entered};

    ghost ask = { λ sweeping. Entered (Sweep sweeping.moment) };

    ghost state = { λ sweeping. None };
}

/// A change of the terms that is to be added.
#[derive(Clone, Copy)]
pub struct Changing<'a> {
    pub moment: Moment,
    pub change: &'a TermsChange,
}

impl Plain<Changing<'_>, Logged, u64> for Add {
    ghost use Rattle.std.specs.Prelude.{None};
    ghost use Rattle.cc_book.specs.declared.entry.Entry.TheVariants.{ChangeTerms};
    ghost use Rattle.cc_shared.specs.declared.logged.Logged.TheVariants.{Entered};

    ghost ask = { λ changing. Entered (ChangeTerms changing.moment changing.change.now) };

    ghost state = { λ changing. None };
}

/// The end of the history.
#[derive(Clone, Copy)]
pub struct Closing;

impl Plain<Closing, Logged, u64> for Add {
    ghost use Rattle.std.specs.Prelude.{None};
    ghost use Rattle.cc_shared.specs.declared.logged.Logged.TheVariants.{Closed};

    ghost ask = { λ closing. Closed };

    ghost state = { λ closing. None };
}

/// What a thread has seen of the history: a token of no octets.
pub type SeenHistory = Seen<Logged, u64, OneHistory>;

/// An empty history, for one book that is to be shared. Contracts see which one it is.
#[derive(Drop)]
pub struct BlankHistory {
    length: Word<Logged, u64, OneHistory>,
    seen: SeenHistory,
}

impl Model for BlankHistory {
    ghost use Rattle.std.specs.Prelude.{◌≡◌, []};
    ghost use Rattle.logbook.specs.Pages.{Book as LogName};
    ghost use Rattle.cc_shared.specs.History.{head_of};

    ghost Value = { LogName };

    ghost view = { λ h. h.seen.book };

    ghost invariant = { λ h. (h.seen.log ≡ []) × (h.seen.names ≡ []) × (h.length ≡ head_of h.seen.book) };
}

impl BlankHistory {
    pub fn new() -> BlankHistory {
        let (seen, mut first, _second) = Seen::open(Start::alone(), 0, 0);
        BlankHistory {
            length: Word::tracked(0, &mut first),
            seen,
        }
    }

    /// Its length, and the beginning in which nothing stands.
    pub fn named<L: Sharing>(self) -> (Length<L>, Beginning<L>)
        requires { self ≡ L.shared.log }
        ensures { result.1 ≡ [] }
    {
        let BlankHistory { length, seen } = self;
        let length = Length {
            word: length,
            of: PhantomData,
        };
        let beginning = Beginning {
            count: 0,
            seen,
            of: PhantomData,
        };
        (length, beginning)
    }
}

/// The length of the history of a shared book.
#[derive(Drop)]
pub struct Length<L: Sharing> {
    word: Word<Logged, u64, OneHistory>,
    of: PhantomData<L>,
    ghost word_is: { word ≡ head_of L.shared.log },
}

/// A beginning of the history that was seen. Contracts see its records.
#[derive(Drop)]
pub struct Beginning<L: Sharing> {
    count: u64,
    seen: SeenHistory,
    of: PhantomData<L>,
}

impl<L: Sharing> Model for Beginning<L> {
    ghost use Rattle.std.specs.Prelude.{◌≡◌, List, [], length};
    ghost use Rattle.cc_shared.specs.declared.logged.Logged.{Logged as Record};

    ghost Value = { List Record };

    ghost view = { λ b. b.seen.log };

    ghost invariant = { λ b. (b.count ≡ length b.seen.log) × (b.seen.names ≡ []) × (b.seen.book ≡ L.shared.log) };
}

impl<L: Sharing> Beginning<L> {
    /// A copy.
    pub fn again(&self) -> Beginning<L>
        ensures { result ≡ self.now }
    {
        Beginning {
            count: self.count,
            seen: self.seen.again(),
            of: PhantomData,
        }
    }

    /// What was seen, as a token that anyone may keep.
    pub fn seen(&self) -> SeenHistory
        ensures log { result.log ≡ self.now }
        ensures book { result.book ≡ L.shared.log }
    {
        self.seen.again()
    }

    /// Adds a take to all that was seen, and says whether it did. It did not if the history is longer, as it never is for who has
    /// the book's lock, or if it has no room for a record more.
    pub fn add_take(&mut self, word: &Length<L>, moment: Moment, request: &CcRequest) -> bool
        ensures { MatchBool result (self.new ≡ self.old ++ Entered (Take moment request.now) ∷ []) ((length self.old < length self.new) ⊎ (length self.old ≡ 2 ^ 64 - 1)) }
    {
        let mut offer = self
            .seen
            .plain::<Nothing, Taking, Add>(&Taking { moment, request });
        self.add(word, &mut offer)
    }

    /// Adds a sweep, likewise.
    pub fn add_sweep(&mut self, word: &Length<L>, moment: Moment) -> bool
        ensures { MatchBool result (self.new ≡ self.old ++ Entered (Sweep moment) ∷ []) ((length self.old < length self.new) ⊎ (length self.old ≡ 2 ^ 64 - 1)) }
    {
        let mut offer = self
            .seen
            .plain::<Nothing, Sweeping, Add>(&Sweeping { moment });
        self.add(word, &mut offer)
    }

    /// Adds a change of the terms, likewise.
    pub fn add_change(&mut self, word: &Length<L>, moment: Moment, change: &TermsChange) -> bool
        ensures { MatchBool result (self.new ≡ self.old ++ Entered (ChangeTerms moment change.now) ∷ []) ((length self.old < length self.new) ⊎ (length self.old ≡ 2 ^ 64 - 1)) }
    {
        let mut offer = self
            .seen
            .plain::<Nothing, Changing, Add>(&Changing { moment, change });
        self.add(word, &mut offer)
    }

    /// Adds that the book was closed. If the history is longer, it hands back what it has seen of it; if it has no room for a record
    /// more, all of it.
    pub fn ended(&self, word: &Length<L>) -> Result<ClosedHistory<L>, Beginning<L>>
        ensures closed { IfOk result (λ closed. closed ≡ self.now ++ Closed ∷ []) }
        ensures longer { IfErr result (λ longer. (length self.now < length longer) ⊎ (length self.now ≡ 2 ^ 64 - 1)) }
    {
        let mut all = self.again();
        let mut offer = self.seen.plain::<Nothing, Closing, Add>(&Closing);
        if !all.add(word, &mut offer) {
            return Err(all);
        }
        Ok(ClosedHistory { all })
    }

    /// Adds what is offered.
    fn add(&mut self, word: &Length<L>, offer: &mut Offer<Logged, u64, OneHistory, Nothing>) -> bool
        requires names { offer.old.names ≡ [] }
        requires state { offer.old.state ≡ None }
        ensures { MatchBool result (self.new ≡ self.old ++ offer.old.ask ∷ []) ((length self.old < length self.new) ⊎ (length self.old ≡ 2 ^ 64 - 1)) }
    {
        let count = self.count;
        if count == u64::MAX {
            return false;
        }
        let mut pen = self.seen.no_pen();
        let found = word
            .word
            .compare_exchange::<Add, Nothing>(count, count + 1, &mut self.seen, offer, &mut pen);
        self.count = if found == count { count + 1 } else { found };
        found == count
    }
}

/// The history of a book that is closed. Contracts see its records.
#[derive(Drop)]
pub struct ClosedHistory<L: Sharing> {
    all: Beginning<L>,
}

impl<L: Sharing> Model for ClosedHistory<L> {
    ghost use Rattle.std.specs.Prelude.{◌≡◌, List, true};
    ghost use Rattle.cc_shared.specs.declared.logged.Logged.{Logged as Record};
    ghost use Rattle.cc_shared.specs.History.{is_closed};

    ghost Value = { List Record };

    ghost view = { λ c. c.all };

    ghost invariant = { λ c. is_closed c.all ≡ true };
}

impl<L: Sharing> ClosedHistory<L> {
    /// All of it.
    pub fn history(&self) -> &Beginning<L>
        ensures log { result.now ≡ self.now }
        ensures closed { is_closed self.now ≡ true }
    {
        &self.all
    }
}
