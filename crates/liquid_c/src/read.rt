//! What a caller reads from a handle.
ghost use Rattle.std.specs.Prelude.{◌≡◌, ◌++◌, drop, length, min, option_map, take};
ghost use Rattle.liquid_c.specs.Parts.{located, location_in, location_of_fault};
ghost use Rattle.liquid_c.specs.Parts.{number_of_origin, part_in, part_of_handle, part_of_fault};
ghost use Rattle.liquid_c.specs.Parts.{partial_of_location};
ghost use Rattle.liquid_c.specs.Shared.{shared_content};

use crate::content::Content;
use crate::handle::Handle;
use crate::handle_content::held_content;
use liquid_core::{Error, Location, Origin};
use std::alloc::Global;

/// How many bytes a part has of what the handle holds: 0 is the text of a page, 1 the message
/// of a fault or of a page's, 2 the name of its kind, 3 the name of the partial that it stands in.
/// Without such a part, and of any other number, 0.
#[unsafe(no_mangle)]
pub extern "C" fn bikleinu_length(alloc: Global, handle: &mut Handle, part: u32) -> usize
    ensures length { result ≡ length (part_in part (shared_content handle.old.held)) }
    ensures same { handle.new.held ≡ handle.old.held }
{
    let held = handle.take(alloc);
    let length = part_seen(held_content(&held), part).len();
    handle.put(alloc, held);
    length
}

/// Copies such a part into the bytes, as far as it goes and they have room, and answers how many it
/// copied.
#[unsafe(no_mangle)]
pub extern "C" fn bikleinu_copy(
    alloc: Global,
    handle: &mut Handle,
    part: u32,
    into: &mut [u8],
) -> usize
    ensures copied { into.new ≡
        take result (part_in part (shared_content handle.old.held)) ++ drop result into.old }
    ensures count { result ≡
        min (length (part_in part (shared_content handle.old.held))) (length into.old) }
    ensures same { handle.new.held ≡ handle.old.held }
{
    let held = handle.take(alloc);
    let count = copy_front(part_seen(held_content(&held), part).as_bytes(), into);
    handle.put(alloc, held);
    count
}

/// Where the fault in the handle stands, in line and column. The answer is in which text: 1 the
/// template, 2 a partial, 3 the data, and 0 where that isn't known; then line and column stay as
/// they were.
#[unsafe(no_mangle)]
pub extern "C" fn bikleinu_location(
    alloc: Global,
    handle: &mut Handle,
    line: &mut usize,
    column: &mut usize,
) -> u32
    ensures location { (result, (line.new, column.new)) ≡
        located (location_in (shared_content handle.old.held)) line.old column.old }
    ensures same { handle.new.held ≡ handle.old.held }
{
    let held = handle.take(alloc);
    let origin = match location_seen(held_content(&held)) {
        Some(location) => {
            *line = location.line;
            *column = location.column;
            origin_number(&location.origin)
        }
        None => 0,
    };
    handle.put(alloc, held);
    origin
}

fn origin_number(origin: &Origin) -> u32
    ensures { result ≡ number_of_origin origin.now }
{
    match origin {
        Origin::Template => 1,
        Origin::Partial(_) => 2,
        Origin::Data => 3,
    }
}

fn part_seen(held: Option<&Content>, part: u32) -> &str
    ensures { result.now ≡ part_in part (option_map (λ h. h.now) held.entry) }
{
    match held {
        Some(held) => part_held(held, part),
        None => "",
    }
}

fn part_held(held: &Content, part: u32) -> &str
    ensures { result.now ≡ part_of_handle part held.now }
{
    if part == 0 {
        return held.text();
    }
    match held.fault() {
        Some(fault) => part_of(fault, part),
        None => "",
    }
}

fn part_of(fault: &Error, part: u32) -> &str
    ensures { result.now ≡ part_of_fault part fault.now }
{
    if part == 1 {
        return fault.message_text();
    }
    if part == 2 {
        return fault.kind.name();
    }
    if part == 3 {
        return partial_of(fault);
    }
    ""
}

fn location_of(fault: &Error) -> Option<&Location>
    ensures { option_map (λ l. l.now) result ≡ location_of_fault fault.now }
{
    match &fault.location {
        Some(location) => Some(&**location),
        None => None,
    }
}

fn location_seen(held: Option<&Content>) -> Option<&Location>
    ensures { option_map (λ l. l.now) result ≡ location_in (option_map (λ h. h.now) held.entry) }
{
    match held {
        Some(held) => match held.fault() {
            Some(fault) => location_of(fault),
            None => None,
        },
        None => None,
    }
}

/// The name of the partial that a fault stands in.
fn partial_of(fault: &Error) -> &str
    ensures { result.now ≡ partial_of_location (location_of_fault fault.now) }
{
    match location_of(fault) {
        Some(
            Location {
                origin: Origin::Partial(name),
                ..
            },
        ) => name.as_str(),
        _ => "",
    }
}

/// Copies the front of the bytes, as far as they go and there is room.
fn copy_front(bytes: &[u8], into: &mut [u8]) -> usize
    ensures copied { into.new ≡ take result bytes.now ++ drop result into.old }
    ensures count { result ≡ min (length bytes.now) (length into.old) }
{
    let count = bytes.len().min(into.len());
    into[..count].copy_from_slice(&bytes[..count]);
    count
}
