//! The steps of a schedule that did not apply, by name.

ghost use Rattle.std.specs.Prelude.{◌≡◌, ◌∷◌, [], ◌++◌, codes, map, string_bytes, IfOk, OnOk};
ghost use Rattle.std.specs.List.{concat, flat_map};
ghost use Rattle.std.specs.Fmt.{decimal};
ghost use Rattle.std.specs.Str.Lines.{strip_carriage_return};
ghost use Rattle.farm_base.specs.CheckedSite.{IsChecked};
ghost use Rattle.farm_cli.specs.Skipped.{line_at, number_if, said_in, says_something, skipped_line, NamesOf, SkipsOf};

use dia_avp::Wire;
use farm_world::{Site, Step, World};
use std::alloc::{AllocError, Global};

/// Adds the number of a step that did not apply.
fn push_skipped(numbers: &mut Vec<usize>, applied: bool, number: usize) -> Result<(), AllocError>
    ensures { OnOk result (numbers.new.items ≡ numbers.old.items ++ number_if applied number) }
{
    if !applied {
        numbers.push(number)?;
    }
    Ok(())
}

/// The numbers of the steps that do not apply in a run over the site, counted from 1.
fn skipped_steps<V: Wire>(
    alloc: Global,
    site: &Site,
    steps: &[Step],
) -> Result<Vec<usize>, AllocError>
    requires { IsChecked site.now }
    ensures { IfOk result (λ numbers. SkipsOf site.now steps.now numbers.items) }
{
    let mut numbers = Vec::new(alloc);
    let mut world = World::open(alloc, site)?;
    for (place, step) in steps.iter().enumerate() {
        let applied = world.step::<V>(alloc, site, step)?;
        push_skipped(&mut numbers, applied, place + 1)?;
    }
    Ok(numbers)
}

/// The lines of a text that say something, in order: a step each, where the text is a schedule.
fn said_in(alloc: Global, text: &[u8]) -> Result<Vec<&[u8]>, AllocError>
    ensures { IfOk result (λ said. map (λ line. line.now) said.items ≡ said_in text.now) }
{
    text.split(|octet| *octet == b'\n')
        .filter(|line| says_something(line))
        .collect(alloc)
}

/// A line without the one carriage return at its end.
fn without_return(line: &[u8]) -> &[u8]
    ensures { result.now ≡ strip_carriage_return line.now }
{
    match line {
        [front @ .., b'\r'] => front,
        _ => line,
    }
}

/// Whether a line is neither empty nor a comment.
fn says_something(line: &[u8]) -> bool
    ensures { result ≡ says_something line.now }
{
    !matches!(without_return(line), [] | [b'#', ..])
}

/// The line of a step, of those that say something.
fn line_at<'a>(said: &[&'a [u8]], number: usize) -> &'a [u8]
    ensures { result.now ≡ line_at (map (λ line. line.now) said.now) number }
{
    match said.get(number.saturating_sub(1)) {
        Some(line) => without_return(line),
        None => &[],
    }
}

fn head_of(alloc: Global, number: usize) -> Result<String, AllocError>
    ensures { IfOk result (λ text. string_bytes text ≡ concat (codes "skipped " ∷ decimal number ∷ codes ": " ∷ [])) }
{
    format!(in alloc; "skipped {number}: ")
}

/// Adds `skipped STEP: LINE`.
fn push_line(
    alloc: Global,
    out: &mut Vec<u8>,
    said: &[&[u8]],
    number: usize,
) -> Result<(), AllocError>
    ensures { OnOk result (out.new.items ≡ out.old.items ++ skipped_line (map (λ line. line.now) said.now) number) }
{
    let head = head_of(alloc, number)?;
    out.extend_from_slice(head.as_bytes())?;
    out.extend_from_slice(line_at(said, number))?;
    out.extend_from_slice(b"\n")?;
    Ok(())
}

/// Adds a line for each of these steps.
fn push_lines(
    alloc: Global,
    out: &mut Vec<u8>,
    said: &[&[u8]],
    numbers: &[usize],
) -> Result<(), AllocError>
    ensures { OnOk result (out.new.items ≡ out.old.items ++ flat_map (skipped_line (map (λ line. line.now) said.now)) numbers.now) }
{
    for number in numbers {
        push_line(alloc, out, said, *number)?;
    }
    Ok(())
}

/// Adds, where it is asked for, a line for each step of a schedule's text that does not apply in a run over the site.
pub fn name_skipped<V: Wire>(
    alloc: Global,
    asked: bool,
    site: &Site,
    text: &[u8],
    steps: &[Step],
    out: &mut Vec<u8>,
) -> Result<(), AllocError>
    requires { IsChecked site.now }
    ensures { OnOk result (NamesOf asked site.now steps.now text.now out.old.items out.new.items) }
{
    if !asked {
        return Ok(());
    }
    let numbers = skipped_steps::<V>(alloc, site, steps)?;
    let said = said_in(alloc, text)?;
    push_lines(alloc, out, &said, &numbers)
}
