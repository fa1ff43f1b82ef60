//! The step that the words of a line spell.

ghost use Rattle.std.specs.Prelude.{◌≡◌, map};
ghost use Rattle.farm_script.specs.Words.{Answers};
ghost use Rattle.farm_script.specs.Schedule.{step_of, up_of, accept_of, opened_of, send_of, deliver_of, lose_of, cut_of, drop_of, restart_of, crash_of, pick_of, charge_of, refuse_of, emit_of, sweep_of};

use crate::fault::LineFault;
use crate::terms::terms_of;
use crate::word::{message_of, node_of, number_of};
use dia_base::Moment;
use farm_base::{Site, Step};
use std::alloc::Global;

const UP: &[u8] = b"up";

const ACCEPT: &[u8] = b"accept";

const OPENED: &[u8] = b"opened";

const SEND: &[u8] = b"send";

const DELIVER: &[u8] = b"deliver";

const LOSE: &[u8] = b"lose";

const CUT: &[u8] = b"cut";

const DROP: &[u8] = b"drop";

const RESTART: &[u8] = b"restart";

const CRASH: &[u8] = b"crash";

const PICK: &[u8] = b"pick";

const CHARGE: &[u8] = b"charge";

const REFUSE: &[u8] = b"refuse";

const EMIT: &[u8] = b"emit";

const SWEEP: &[u8] = b"sweep";

const TERMS: &[u8] = b"terms";

/// The step that the words of a line spell, or the line's first fault.
pub fn step_of(alloc: Global, words: &[&[u8]], site: &Site) -> Result<Step, LineFault>
    ensures { Answers (step_of site.now (map (λ word. word.now) words.now)) result }
{
    let Some((first, words)) = words.split_first() else {
        return Err(LineFault::UnknownWord);
    };
    let verb = *first;
    if verb == UP {
        up_of(words, site)
    } else if verb == ACCEPT {
        accept_of(words, site)
    } else if verb == OPENED {
        opened_of(words, site)
    } else if verb == SEND {
        send_of(alloc, words, site)
    } else if verb == DELIVER {
        deliver_of(words, site)
    } else if verb == LOSE {
        lose_of(words, site)
    } else if verb == CUT {
        cut_of(words, site)
    } else if verb == DROP {
        drop_of(words, site)
    } else if verb == RESTART {
        restart_of(words, site)
    } else if verb == CRASH {
        crash_of(words, site)
    } else if verb == PICK {
        pick_of(words, site)
    } else if verb == CHARGE {
        charge_of(words, site)
    } else if verb == REFUSE {
        refuse_of(words, site)
    } else if verb == EMIT {
        emit_of(words, site)
    } else if verb == SWEEP {
        sweep_of(words)
    } else if verb == TERMS {
        terms_of(alloc, words)
    } else {
        Err(LineFault::UnknownWord)
    }
}

#[tactic(auto, using(crate::proofs::WordLists::two_words))]
fn up_of(words: &[&[u8]], site: &Site) -> Result<Step, LineFault>
    ensures { result ≡ up_of site.now (map (λ word. word.now) words.now) }
{
    let [a, b] = words else {
        return Err(LineFault::WrongCount);
    };
    Ok(Step::Up {
        a: node_of(site, a)?,
        b: node_of(site, b)?,
    })
}

#[tactic(auto, using(crate::proofs::WordLists::two_words))]
fn accept_of(words: &[&[u8]], site: &Site) -> Result<Step, LineFault>
    ensures { result ≡ accept_of site.now (map (λ word. word.now) words.now) }
{
    let [at, from] = words else {
        return Err(LineFault::WrongCount);
    };
    Ok(Step::Accept {
        at: node_of(site, at)?,
        from: node_of(site, from)?,
    })
}

#[tactic(auto, using(crate::proofs::WordLists::two_words))]
fn opened_of(words: &[&[u8]], site: &Site) -> Result<Step, LineFault>
    ensures { result ≡ opened_of site.now (map (λ word. word.now) words.now) }
{
    let [a, b] = words else {
        return Err(LineFault::WrongCount);
    };
    Ok(Step::Opened {
        a: node_of(site, a)?,
        b: node_of(site, b)?,
    })
}

#[tactic(auto, using(crate::proofs::WordLists::three_words))]
fn send_of(alloc: Global, words: &[&[u8]], site: &Site) -> Result<Step, LineFault>
    ensures { Answers (send_of site.now (map (λ word. word.now) words.now)) result }
{
    let [client, to, message] = words else {
        return Err(LineFault::WrongCount);
    };
    Ok(Step::Send {
        client: node_of(site, client)?,
        to: node_of(site, to)?,
        message: message_of(alloc, message)?,
    })
}

#[tactic(auto, using(crate::proofs::WordLists::three_words))]
fn deliver_of(words: &[&[u8]], site: &Site) -> Result<Step, LineFault>
    ensures { result ≡ deliver_of site.now (map (λ word. word.now) words.now) }
{
    let [from, to, place] = words else {
        return Err(LineFault::WrongCount);
    };
    Ok(Step::Deliver {
        from: node_of(site, from)?,
        to: node_of(site, to)?,
        place: number_of(place)?,
    })
}

#[tactic(auto, using(crate::proofs::WordLists::three_words))]
fn lose_of(words: &[&[u8]], site: &Site) -> Result<Step, LineFault>
    ensures { result ≡ lose_of site.now (map (λ word. word.now) words.now) }
{
    let [from, to, place] = words else {
        return Err(LineFault::WrongCount);
    };
    Ok(Step::Lose {
        from: node_of(site, from)?,
        to: node_of(site, to)?,
        place: number_of(place)?,
    })
}

#[tactic(auto, using(crate::proofs::WordLists::two_words))]
fn cut_of(words: &[&[u8]], site: &Site) -> Result<Step, LineFault>
    ensures { result ≡ cut_of site.now (map (λ word. word.now) words.now) }
{
    let [a, b] = words else {
        return Err(LineFault::WrongCount);
    };
    Ok(Step::Cut {
        a: node_of(site, a)?,
        b: node_of(site, b)?,
    })
}

#[tactic(auto, using(crate::proofs::WordLists::two_words))]
fn drop_of(words: &[&[u8]], site: &Site) -> Result<Step, LineFault>
    ensures { result ≡ drop_of site.now (map (λ word. word.now) words.now) }
{
    let [a, b] = words else {
        return Err(LineFault::WrongCount);
    };
    Ok(Step::Drop {
        a: node_of(site, a)?,
        b: node_of(site, b)?,
    })
}

#[tactic(auto, using(crate::proofs::WordLists::one_word))]
fn restart_of(words: &[&[u8]], site: &Site) -> Result<Step, LineFault>
    ensures { result ≡ restart_of site.now (map (λ word. word.now) words.now) }
{
    let [name] = words else {
        return Err(LineFault::WrongCount);
    };
    Ok(Step::Restart {
        node: node_of(site, name)?,
    })
}

#[tactic(auto, using(crate::proofs::WordLists::one_word))]
fn crash_of(words: &[&[u8]], site: &Site) -> Result<Step, LineFault>
    ensures { result ≡ crash_of site.now (map (λ word. word.now) words.now) }
{
    let [name] = words else {
        return Err(LineFault::WrongCount);
    };
    Ok(Step::Crash {
        node: node_of(site, name)?,
    })
}

#[tactic(auto, using(crate::proofs::WordLists::two_words))]
fn pick_of(words: &[&[u8]], site: &Site) -> Result<Step, LineFault>
    ensures { result ≡ pick_of site.now (map (λ word. word.now) words.now) }
{
    let [front, worker] = words else {
        return Err(LineFault::WrongCount);
    };
    Ok(Step::Pick {
        front: node_of(site, front)?,
        worker: number_of(worker)?,
    })
}

#[tactic(auto, using(crate::proofs::WordLists::three_words))]
fn charge_of(words: &[&[u8]], site: &Site) -> Result<Step, LineFault>
    ensures { result ≡ charge_of site.now (map (λ word. word.now) words.now) }
{
    let [front, worker, moment] = words else {
        return Err(LineFault::WrongCount);
    };
    Ok(Step::Charge {
        front: node_of(site, front)?,
        worker: number_of(worker)?,
        moment: Moment(number_of(moment)?),
    })
}

#[tactic(auto, using(crate::proofs::WordLists::two_words))]
fn refuse_of(words: &[&[u8]], site: &Site) -> Result<Step, LineFault>
    ensures { result ≡ refuse_of site.now (map (λ word. word.now) words.now) }
{
    let [front, worker] = words else {
        return Err(LineFault::WrongCount);
    };
    Ok(Step::Refuse {
        front: node_of(site, front)?,
        worker: number_of(worker)?,
    })
}

#[tactic(auto, using(crate::proofs::WordLists::two_words))]
fn emit_of(words: &[&[u8]], site: &Site) -> Result<Step, LineFault>
    ensures { result ≡ emit_of site.now (map (λ word. word.now) words.now) }
{
    let [front, worker] = words else {
        return Err(LineFault::WrongCount);
    };
    Ok(Step::Emit {
        front: node_of(site, front)?,
        worker: number_of(worker)?,
    })
}

#[tactic(auto, using(crate::proofs::WordLists::one_word))]
fn sweep_of(words: &[&[u8]]) -> Result<Step, LineFault>
    ensures { result ≡ sweep_of (map (λ word. word.now) words.now) }
{
    let [word] = words else {
        return Err(LineFault::WrongCount);
    };
    Ok(Step::Sweep {
        moment: Moment(number_of(word)?),
    })
}
