//! What a site asks for beyond what a peer meets by default.

ghost use Rattle.std.specs.Prelude.{◌≡◌, IfNone, IfSome, false, true};
ghost use Rattle.farm_access.specs.Strictness.{is_on, lenient, with_word};

/// A rule that a site file may ask for at `strict`, by its word there.
#[derive(Clone, Copy)]
pub enum Strict {
    /// `names`: a node comes up only under its own name ([`Access::may_come_up`](crate::Access::may_come_up)).
    Names,
    /// `end-to-end`: a relay drops an answer that has another End-to-End Identifier than its request (RFC 6733, section 3).
    EndToEnd,
    /// `goodbyes`: who is told goodbye by a peer leaves closing to it, and sends it no request more (RFC 6733, section 5.4).
    Goodbyes,
    /// `origin-state`: fronts tell their peers an Origin-State-Id, which another one follows where sessions were lost (RFC 6733, section
    /// 8.16).
    OriginState,
    /// `fairness`: of a connection that brings requests no more are read than its share of the room, while they wait for answers.
    Fairness,
}

/// Which of these rules a site asks for.
#[derive(Clone, Copy)]
pub struct Strictness {
    pub names: bool,
    pub end_to_end: bool,
    pub goodbyes: bool,
    pub origin_state: bool,
    pub fairness: bool,
}

impl Strictness {
    /// None of them.
    pub fn lenient() -> Self
        ensures { result ≡ lenient }
    {
        Strictness {
            names: false,
            end_to_end: false,
            goodbyes: false,
            origin_state: false,
            fairness: false,
        }
    }

    /// Whether the site asks for this one.
    pub fn is_on(self, word: Strict) -> bool
        ensures { result ≡ is_on self word }
    {
        match word {
            Strict::Names => self.names,
            Strict::EndToEnd => self.end_to_end,
            Strict::Goodbyes => self.goodbyes,
            Strict::OriginState => self.origin_state,
            Strict::Fairness => self.fairness,
        }
    }

    /// These and one more. None where the site asks for that one already.
    pub(crate) fn with(self, word: Strict) -> Option<Self>
        ensures some { IfSome result (λ more. more ≡ with_word self word) }
        ensures fresh { IfSome result (λ _. is_on self word ≡ false) }
        ensures none { IfNone result (is_on self word ≡ true) }
    {
        if self.is_on(word) {
            return None;
        }
        let mut more = self;
        match word {
            Strict::Names => more.names = true,
            Strict::EndToEnd => more.end_to_end = true,
            Strict::Goodbyes => more.goodbyes = true,
            Strict::OriginState => more.origin_state = true,
            Strict::Fairness => more.fairness = true,
        }
        Some(more)
    }
}
