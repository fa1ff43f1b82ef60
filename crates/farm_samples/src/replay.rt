//! A run that may be refused memory at any allocation: a schedule from standard input over the row site, and what is told of
//! the run, though it ended early; then a book that takes each request of the schedule, once more where memory was refused.
//! With ample memory that is the run of all steps.
//!
//! - `farm`: the run.
//! - `book`: the book alone.

ghost use Rattle.farm_base.specs.CheckedSite.{IsChecked};

mod book;
mod farm;

use farm_base::Site;
use farm_script::steps_of;
use farm_text::read_text;
use farm_world::row_site;

/// Plays the schedule of this text.
fn print(rt: &HostRuntime, text: &[u8], site: &Site) -> anyhow::Result<()>
    requires { IsChecked site.now }
{
    let steps = steps_of(rt.alloc(), text, site)?;
    farm::print(rt, rt.alloc(), site, &steps)?;
    book::print(rt, rt.alloc(), site, &steps)
}

/// Plays the schedule of standard input.
pub fn print_all(rt: &HostRuntime) -> anyhow::Result<()> {
    let text = read_text(rt.alloc(), &mut rt.reader())?;
    let site = row_site(rt.alloc())?;
    print(rt, &text, &site)
}
