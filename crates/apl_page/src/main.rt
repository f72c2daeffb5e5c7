//! The machine for a web page: the calls that its worker makes, over a place where a session stands or none, and a session through
//! these calls. A call answers 0, or the number of what it refuses: those of [`apl_workspace::load`] from 1 to 8, 9 where a buffer is
//! too small, those of [`apl_kept::KeptError`], 17 where no session stands, 18 where there is no such function.
#![tactic(auto)]

ghost use Rattle.std.specs.Prelude.{◌≡◌, ◌≢◌, ◌⊎◌, ◌<◌, ℕ, length, min, take, Some, None, Ok};
ghost use Rattle.apl_machine_state.specs.State.{interrupt, steps};
ghost use Rattle.apl_session.specs.Events.{typed};
ghost use Rattle.apl_page.specs.Answers.{IsDue, IsFile, Reads, laid};
ghost use Rattle.apl_page.specs.Places.{IsNumber, Opens, at, fault_at, gathered, is_idle_at, line_number, next_line_at, session_number, taken, unsaid_at};
ghost use Rattle.apl_page.specs.Texts.{levels_bytes, listing_due, names_bytes};

mod giving;
mod page;
mod refusal;
mod spelling;
mod texts;

use crate::giving::give;
use crate::page::{Page, open_page};
use crate::refusal::{Refusal, told_fault};
use crate::texts::{file_text, levels_text, listing_text, names_text};
use std::alloc::Global;

/// The number of a call where no session stands.
const NO_SESSION: u32 = 17;

/// A session on a workspace's file, or on a clear one where no bytes are given, instead of the one that stands there. With another
/// number than 0 the place is as before.
#[inline(never)]
pub fn page_open(alloc: Global, workspace: &[u8], place: &mut Option<Page>) -> u32
    ensures { Opens workspace.now result place.old place.new }
{
    match open_page(alloc, workspace) {
        Ok(page) => {
            *place = Some(page);
            0
        }
        Err(error) => u32::from(error.number()),
    }
}

/// Types a line. Its steps are still to be made. With another number than 0 the place is as before.
#[inline(never)]
pub fn page_type(place: &mut Option<Page>, line: &[u8]) -> u32
    ensures number { IsNumber (line_number place.old line.now) result }
    ensures typed { result ≡ 0 → place.new ≡ at place.old (λ s. typed s line.now) }
    ensures left { result ≢ 0 → place.new ≡ place.old }
{
    let Some(page) = place else {
        return NO_SESSION;
    };
    match page.kept.type_line(line) {
        Ok(()) => 0,
        Err(error) => u32::from(error.number()),
    }
}

/// Makes at most so many steps. After 8 the session stands after those that are done.
#[inline(never)]
pub fn page_advance(place: &mut Option<Page>, count: u64) -> u32
    ensures number { IsNumber (session_number place.old) result }
    ensures advanced { result ≡ 0 → place.new ≡ at place.old (λ s. steps count s) }
    ensures part { result ≡ 8 → (done : ℕ) × (done < count) × (place.new ≡ at place.old (λ s. steps done s)) }
    ensures none { result ≡ 17 → place.new ≡ place.old }
{
    let Some(page) = place else {
        return NO_SESSION;
    };
    match page.kept.advance(count) {
        Ok(_) => 0,
        Err(_) => Refusal::Memory.number(),
    }
}

/// Abandons what runs, with a report; an idle session stays. With another number than 0 the place is as before.
#[inline(never)]
pub fn page_interrupt(place: &mut Option<Page>) -> u32
    ensures number { IsNumber (session_number place.old) result }
    ensures interrupted { result ≡ 0 → place.new ≡ at place.old (λ s. interrupt s) }
    ensures left { result ≢ 0 → place.new ≡ place.old }
{
    let Some(page) = place else {
        return NO_SESSION;
    };
    match page.kept.interrupt() {
        Ok(()) => 0,
        Err(_) => Refusal::Memory.number(),
    }
}

/// Whether nothing runs there.
#[inline(never)]
pub fn page_is_idle(place: &Option<Page>) -> bool
    ensures { result ≡ is_idle_at place.now }
{
    match place {
        Some(page) => page.kept.is_idle(),
        None => true,
    }
}

/// The number of the next line of the definition that is open there, from 1; 0 where none is open.
#[inline(never)]
pub fn page_next_line(place: &Option<Page>) -> usize
    ensures { result ≡ next_line_at place.now }
{
    match place {
        Some(page) => page.kept.next_line(),
        None => 0,
    }
}

/// The number of the fault with which what was typed there has ended, from 1 to 12, as long as its report isn't gathered; else 0.
#[inline(never)]
pub fn page_fault(place: &Option<Page>) -> u32
    ensures { result ≡ fault_at place.now }
{
    match place {
        Some(page) => told_fault(page.kept.told()),
        None => 0,
    }
}

/// Spells what was written since the last such call behind the bytes that wait to be taken: in UTF-8, each line with its line feed. It
/// tells how many bytes wait. With another number than 0 nothing has changed.
#[inline(never)]
pub fn page_gather(place: &mut Option<Page>, size: &mut usize) -> u32
    ensures number { IsNumber (session_number place.old) result }
    ensures gathered { result ≡ 0 → (place.new ≡ gathered place.old) × (size.new ≡ length (unsaid_at place.new)) }
    ensures left { result ≢ 0 → (place.new ≡ place.old) × (size.new ≡ size.old) }
{
    let Some(page) = place else {
        return NO_SESSION;
    };
    match page.gather() {
        Ok(waiting) => {
            *size = waiting;
            0
        }
        Err(_) => Refusal::Memory.number(),
    }
}

/// Lays as many of the waiting bytes as a buffer holds at its start, keeps the others, and tells how many lie there.
#[inline(never)]
pub fn page_take(place: &mut Option<Page>, buffer: &mut [u8]) -> usize
    ensures count { result ≡ min (length (unsaid_at place.old)) (length buffer.old) }
    ensures laid { buffer.new ≡ laid (take result (unsaid_at place.old)) buffer.old }
    ensures rest { place.new ≡ taken result place.old }
{
    let Some(page) = place else {
        return 0;
    };
    page.take(buffer)
}

/// Lays the file of the workspace at the start of a buffer, if that has room, and tells its length.
#[inline(never)]
pub fn page_save(place: &Option<Page>, buffer: &mut [u8], size: &mut usize) -> u32
    ensures { Reads IsFile place.now result buffer.old buffer.new size.old size.new }
{
    match place {
        Some(page) => give(file_text(page), buffer, size),
        None => NO_SESSION,
    }
}

/// Lays the global names, ascending, at the start of a buffer, if that has room, and tells their length. Each has a line by what a
/// statement that begins now reads under it: `∇ ` and the header of a function; the name of a variable, a blank, `N` where it holds
/// numbers and `C` where it holds characters, and behind a blank the length of each axis; a name alone where it is unset or a label.
#[inline(never)]
pub fn page_names(place: &Option<Page>, buffer: &mut [u8], size: &mut usize) -> u32
    ensures { Reads (λ k outcome. IsDue (Ok (names_bytes k)) outcome) place.now result buffer.old buffer.new size.old size.new }
{
    match place {
        Some(page) => give(names_text(page), buffer, size),
        None => NO_SESSION,
    }
}

/// Lays the standing calls, newest first, as `)SI` shows them, at the start of a buffer, if that has room, and tells their length.
#[inline(never)]
pub fn page_levels(place: &Option<Page>, buffer: &mut [u8], size: &mut usize) -> u32
    ensures { Reads (λ k outcome. IsDue (Ok (levels_bytes k)) outcome) place.now result buffer.old buffer.new size.old size.new }
{
    match place {
        Some(page) => give(levels_text(page), buffer, size),
        None => NO_SESSION,
    }
}

/// Lays the header and the lines of the global function of a name at the start of a buffer, if that has room, and tells their length.
#[inline(never)]
pub fn page_listing(place: &Option<Page>, name: &[u8], buffer: &mut [u8], size: &mut usize) -> u32
    ensures { Reads (λ k outcome. IsDue (listing_due k name.now) outcome) place.now result buffer.old buffer.new size.old size.new }
{
    match place {
        Some(page) => give(listing_text(page, name), buffer, size),
        None => NO_SESSION,
    }
}

/// A session through these calls.
fn main(rt: HostRuntime) {
    let alloc = rt.alloc();
    let (mut place, mut waiting, mut told) = (None, 0, 0);
    let mut buffer = [0u8; 600];
    let opened = page_open(alloc, &[], &mut place);
    let typed = page_type(&mut place, "⎕←T←2+3×4".as_bytes());
    let made = page_advance(&mut place, 100);
    let defining = page_type(&mut place, "∇Z←F X".as_bytes());
    let line = page_next_line(&place);
    let left = page_interrupt(&mut place);
    let fault = page_fault(&place);
    let gathered = page_gather(&mut place, &mut waiting);
    let taken = page_take(&mut place, &mut buffer);
    let is_idle = page_is_idle(&place);
    let named = page_names(&place, &mut buffer, &mut told);
    let listed = page_listing(&place, b"T", &mut buffer, &mut told);
    let stands = page_levels(&place, &mut buffer, &mut told);
    let saved = page_save(&place, &mut buffer, &mut told);
    let _ = println!(rt;
        "{opened} {typed} {made} {defining} {line} {left} {fault} {gathered} {waiting} {taken} {is_idle} {named} {listed} {stands} {saved} {told}"
    );
}
