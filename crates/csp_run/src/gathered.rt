//! Pieces that are written one after the other, the small ones together.
ghost use Rattle.std.specs.Prelude.{◌≡◌, ◌≤◌, ◌++◌, OnOk, OnErr, if◌then◌else◌};
ghost use Rattle.std.specs.List.{flat_map};
ghost use Rattle.csp_desk.specs.Tellings.{section_text, telling_text};
ghost use Rattle.csp_io.specs.Told.{Rose, GrewBy, GrewByPrefix};
ghost use Rattle.csp_run.specs.Gathered.{HasPut};

use csp_desk::{Section, Telling};
use csp_io::{Failed, Sink, write_all};
use std::alloc::Global;

// How many bytes are gathered before they are written.
const ROOM: usize = 65_536;

// Adds a piece to what is gathered, where there is room and memory for it.
fn gather(gathered: &mut Vec<u8>, piece: &[u8]) -> bool
    ensures { gathered.new.items ≡ (if result then gathered.old.items ++ piece.now else gathered.old.items) }
{
    piece.len() <= ROOM.saturating_sub(gathered.len()) && gathered.extend_from_slice(piece).is_ok()
}

// Writes a piece behind what is gathered, or gathers it too.
fn put<S: Sink>(out: &mut S, gathered: &mut Vec<u8>, piece: &[u8]) -> Result<(), Failed>
    ensures put { OnOk result
        (HasPut (S.taken out.old) (S.taken out.new) gathered.old.items gathered.new.items piece.now) }
    ensures prefix { OnErr result
        (GrewByPrefix (S.taken out.old) (S.taken out.new) (gathered.old.items ++ piece.now)) }
    ensures later { S.faults out.old ≤ S.faults out.new }
    ensures cause { OnErr result (Rose (S.faults out.old) (S.faults out.new)) }
    ensures no_fault { OnOk result (S.faults out.new ≡ S.faults out.old) }
{
    if gather(gathered, piece) {
        return Ok(());
    }
    match write_all(out, gathered.as_slice()) {
        Err(failed) => return Err(failed),
        Ok(()) => {}
    }
    gathered.clear();
    write_all(out, piece)
}

fn put_pieces<S: Sink>(out: &mut S, gathered: &mut Vec<u8>, pieces: &[&[u8]]) -> Result<(), Failed>
    ensures put { OnOk result (HasPut (S.taken out.old) (S.taken out.new)
        gathered.old.items gathered.new.items (flat_map (λ piece. piece.now) pieces.now)) }
    ensures prefix { OnErr result (GrewByPrefix (S.taken out.old) (S.taken out.new)
        (gathered.old.items ++ flat_map (λ piece. piece.now) pieces.now)) }
    ensures later { S.faults out.old ≤ S.faults out.new }
    ensures cause { OnErr result (Rose (S.faults out.old) (S.faults out.new)) }
    ensures no_fault { OnOk result (S.faults out.new ≡ S.faults out.old) }
{
    for piece in pieces {
        match put(out, gathered, piece) {
            Err(failed) => return Err(failed),
            Ok(()) => {}
        }
    }
    Ok(())
}

fn put_telling<S: Sink>(
    out: &mut S,
    gathered: &mut Vec<u8>,
    telling: &Telling<'_>,
) -> Result<(), Failed>
    ensures put { OnOk result (HasPut (S.taken out.old) (S.taken out.new)
        gathered.old.items gathered.new.items (telling_text telling.now)) }
    ensures prefix { OnErr result (GrewByPrefix (S.taken out.old) (S.taken out.new)
        (gathered.old.items ++ telling_text telling.now)) }
    ensures later { S.faults out.old ≤ S.faults out.new }
    ensures cause { OnErr result (Rose (S.faults out.old) (S.faults out.new)) }
    ensures no_fault { OnOk result (S.faults out.new ≡ S.faults out.old) }
{
    match telling {
        Telling::Made(made) => put(out, gathered, made.as_slice()),
        Telling::Held(pieces) => put_pieces(out, gathered, pieces.as_slice()),
    }
}

fn put_section<S: Sink>(
    out: &mut S,
    gathered: &mut Vec<u8>,
    section: &Section<'_>,
) -> Result<(), Failed>
    ensures put { OnOk result (HasPut (S.taken out.old) (S.taken out.new)
        gathered.old.items gathered.new.items (section_text section.now)) }
    ensures prefix { OnErr result (GrewByPrefix (S.taken out.old) (S.taken out.new)
        (gathered.old.items ++ section_text section.now)) }
    ensures later { S.faults out.old ≤ S.faults out.new }
    ensures cause { OnErr result (Rose (S.faults out.old) (S.faults out.new)) }
    ensures no_fault { OnOk result (S.faults out.new ≡ S.faults out.old) }
{
    match put(out, gathered, section.heading.as_bytes()) {
        Err(failed) => return Err(failed),
        Ok(()) => {}
    }
    put_telling(out, gathered, &section.telling)
}

fn put_sections<S: Sink>(
    out: &mut S,
    gathered: &mut Vec<u8>,
    sections: &[Section<'_>],
) -> Result<(), Failed>
    ensures put { OnOk result (HasPut (S.taken out.old) (S.taken out.new)
        gathered.old.items gathered.new.items (flat_map section_text sections.now)) }
    ensures prefix { OnErr result (GrewByPrefix (S.taken out.old) (S.taken out.new)
        (gathered.old.items ++ flat_map section_text sections.now)) }
    ensures later { S.faults out.old ≤ S.faults out.new }
    ensures cause { OnErr result (Rose (S.faults out.old) (S.faults out.new)) }
    ensures no_fault { OnOk result (S.faults out.new ≡ S.faults out.old) }
{
    for section in sections {
        match put_section(out, gathered, section) {
            Err(failed) => return Err(failed),
            Ok(()) => {}
        }
    }
    Ok(())
}

// Writes the sections of a desk. It goes on without memory, only by more writes then.
pub(crate) fn write_sections<S: Sink>(
    alloc: Global,
    out: &mut S,
    sections: &[Section<'_>],
) -> Result<(), Failed>
    ensures taken { OnOk result
        (GrewBy (S.taken out.old) (S.taken out.new) (flat_map section_text sections.now)) }
    ensures prefix { OnErr result
        (GrewByPrefix (S.taken out.old) (S.taken out.new) (flat_map section_text sections.now)) }
    ensures later { S.faults out.old ≤ S.faults out.new }
    ensures cause { OnErr result (Rose (S.faults out.old) (S.faults out.new)) }
    ensures no_fault { OnOk result (S.faults out.new ≡ S.faults out.old) }
{
    let mut gathered = Vec::new(alloc);
    match put_sections(out, &mut gathered, sections) {
        Err(failed) => Err(failed),
        Ok(()) => write_all(out, gathered.as_slice()),
    }
}
