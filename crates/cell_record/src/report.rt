//! The report.

ghost use Rattle.std.specs.Prelude.{◌≡◌, ◌++◌, ◌∷◌, [], decimal, length, OnOk, OnErr, IfErr};
ghost use Rattle.std.specs.List.{flat_map};
ghost use Rattle.cell_io.specs.Faults.{Rose, SteadyBut};
ghost use Rattle.cell_io.specs.Prefix.{AppendsPrefix, AppendsBefore};
ghost use Rattle.std.specs.Io.KnownBytes.{Appends};
ghost use Rattle.cell_record.specs.Report.{is_printed, served_line, placed_line, event_text};
ghost use Rattle.cell_record.specs.Report.{output_text, phase_head, section, sections};
ghost use Rattle.cell_record.specs.Report.{section_head, phase_text};

use crate::{ClientOutputs, PlacedEvents, Told};
use cell_io::{Memory, Sink, Text, WriteError};
use mms_types::{CellEvent, What};
use std::alloc::Global;

fn is_printed(event: &CellEvent) -> bool
    ensures { result ≡ is_printed event.now }
{
    match event {
        CellEvent::Drain { .. } => false,
        _ => true,
    }
}

/// Puts a word, a number and a line feed.
fn put_word(text: &mut Text, word: &[u8], number: u32) -> Result<(), Memory>
    ensures { OnOk result (text.new ≡ text.old ++ word.now ++ decimal number ++ 10 ∷ []) }
{
    text.put(word)?;
    text.put_number(u64::from(number))?;
    text.put(b"\n")
}

/// Puts an event as its line says it, and a line feed.
#[inline(always)]
fn put_event(text: &mut Text, event: &CellEvent) -> Result<(), Memory>
    ensures { OnOk result (text.new ≡ text.old ++ event_text event.now ++ 10 ∷ []) }
{
    match event {
        CellEvent::Heard { client, octets } => {
            text.put_number_before_blank(u64::from(*client))?;
            text.put_hex_line(octets.as_slice())
        }
        CellEvent::Lost { client } => put_word(text, b"lost ", *client),
        CellEvent::Tick { ms } => put_word(text, b"tick ", *ms),
        CellEvent::Ends { name } => {
            text.put(b"ends ")?;
            text.put(name.octets())?;
            text.put(b"\n")
        }
        CellEvent::Drain { .. } => text.put(b"\n"),
    }
}

/// Puts the line of an event at its place.
#[inline(always)]
fn put_placed(text: &mut Text, place: u64, event: &CellEvent) -> Result<(), Memory>
    ensures { OnOk result (text.new ≡ text.old ++ placed_line place event.now) }
{
    if !is_printed(event) {
        return Ok(());
    }
    text.put_number_before_blank(place)?;
    put_event(text, event)
}

/// Puts the line of what is sent.
#[inline(always)]
fn put_output(text: &mut Text, output: &What) -> Result<(), Memory>
    ensures { OnOk result (text.new ≡ text.old ++ output_text output.now) }
{
    match output {
        What::Octets(octets) => {
            text.put(b"> ")?;
            text.put_hex_line(octets.as_slice())
        }
        What::Abort => text.put(b"> abort\n"),
    }
}

/// Puts the head of a phase.
fn put_phase(text: &mut Text, number: u32) -> Result<(), Memory>
    ensures { OnOk result (text.new ≡ text.old ++ phase_head number) }
{
    text.put(b"phase ")?;
    text.put_number(u64::from(number))?;
    text.put(b"\n")
}

/// Puts the head of a client's section.
fn put_client(text: &mut Text, client: u64) -> Result<(), Memory>
    ensures { OnOk result (text.new ≡ text.old ++ section_head client) }
{
    text.put(b"client ")?;
    text.put_number(client)?;
    text.put(b"\n")
}

/// Writes the lines of events. It is a function of its own in the program too, as `write_outputs`.
#[inline(never)]
#[tactic(auto, using(crate::proofs::ReportLemmas::flat_rest))]
fn write_served<K: Sink>(
    text: &mut Text,
    out: &mut K,
    served: &PlacedEvents,
) -> Result<(), WriteError>
    ensures whole { OnOk result (AppendsBefore
        (K.held out.old) (K.held out.new) text.new (text.old ++ flat_map served_line served.now)) }
    ensures part { OnErr result (AppendsPrefix
        (K.held out.old) (K.held out.new) (text.old ++ flat_map served_line served.now)) }
    ensures cause { IfErr result (λ e. e ≡ WriteError.Fault
        → Rose (K.faults out.old) (K.faults out.new)) }
    ensures steady { SteadyBut WriteError.Fault (K.faults out.old) (K.faults out.new) result }
{
    for index in 0..served.len() {
        let (place, event) = served.at(index);
        put_placed(text, place, event)?;
        text.pass(out)?;
    }
    Ok(())
}

/// Writes the lines of what is sent.
#[inline(never)]
#[tactic(auto, using(crate::proofs::ReportLemmas::flat_rest))]
fn write_outputs<K: Sink>(text: &mut Text, out: &mut K, outputs: &[What]) -> Result<(), WriteError>
    ensures whole { OnOk result (AppendsBefore
        (K.held out.old) (K.held out.new) text.new (text.old ++ flat_map output_text outputs.now)) }
    ensures part { OnErr result (AppendsPrefix
        (K.held out.old) (K.held out.new) (text.old ++ flat_map output_text outputs.now)) }
    ensures cause { IfErr result (λ e. e ≡ WriteError.Fault
        → Rose (K.faults out.old) (K.faults out.new)) }
    ensures steady { SteadyBut WriteError.Fault (K.faults out.old) (K.faults out.new) result }
{
    for output in outputs {
        put_output(text, output)?;
        text.pass(out)?;
    }
    Ok(())
}

/// Writes a client's section, where it was sent anything.
fn write_section<K: Sink>(
    text: &mut Text,
    out: &mut K,
    client: u64,
    outputs: &[What],
) -> Result<(), WriteError>
    ensures whole { OnOk result (AppendsBefore
        (K.held out.old) (K.held out.new) text.new (text.old ++ section client outputs.now)) }
    ensures part { OnErr result (AppendsPrefix
        (K.held out.old) (K.held out.new) (text.old ++ section client outputs.now)) }
    ensures cause { IfErr result (λ e. e ≡ WriteError.Fault
        → Rose (K.faults out.old) (K.faults out.new)) }
    ensures steady { SteadyBut WriteError.Fault (K.faults out.old) (K.faults out.new) result }
{
    if outputs.is_empty() {
        return Ok(());
    }
    put_client(text, client)?;
    write_outputs(text, out, outputs)
}

/// Writes the clients' sections.
fn write_sections<K: Sink>(
    text: &mut Text,
    out: &mut K,
    outputs: &ClientOutputs,
) -> Result<(), WriteError>
    ensures whole { OnOk result (AppendsBefore
        (K.held out.old) (K.held out.new) text.new (text.old ++ sections 1 outputs.now)) }
    ensures part { OnErr result (AppendsPrefix
        (K.held out.old) (K.held out.new) (text.old ++ sections 1 outputs.now)) }
    ensures cause { IfErr result (λ e. e ≡ WriteError.Fault
        → Rose (K.faults out.old) (K.faults out.new)) }
    ensures steady { SteadyBut WriteError.Fault (K.faults out.old) (K.faults out.new) result }
{
    let clients = outputs.len();
    for place in 0..clients {
        write_section(text, out, place as u64 + 1, outputs.at(place))?;
    }
    Ok(())
}

/// Puts the text of a phase, of which a part may be written.
fn write_text<K: Sink>(text: &mut Text, out: &mut K, phase: &Told) -> Result<(), WriteError>
    ensures whole { OnOk result (AppendsBefore
        (K.held out.old) (K.held out.new) text.new
        (text.old ++ phase_text phase.now.number phase.now.served phase.now.outputs)) }
    ensures part { OnErr result (AppendsPrefix
        (K.held out.old) (K.held out.new)
        (text.old ++ phase_text phase.now.number phase.now.served phase.now.outputs)) }
    ensures cause { IfErr result (λ e. e ≡ WriteError.Fault
        → Rose (K.faults out.old) (K.faults out.new)) }
    ensures steady { SteadyBut WriteError.Fault (K.faults out.old) (K.faults out.new) result }
{
    put_phase(text, phase.number)?;
    write_served(text, out, &phase.served)?;
    write_sections(text, out, &phase.outputs)
}

/// Writes the text of a phase in the report: the line `phase <number>`, the events with their
/// places, and what each client was sent that was sent anything. Drains aren't printed. After an
/// error the sink holds what it held and then a prefix of the text. `Fault` comes exactly where a
/// write failed, which is the last one: then one fault more is counted, and else none.
pub fn write_phase<K: Sink>(alloc: Global, out: &mut K, phase: &Told) -> Result<(), WriteError>
    ensures whole { OnOk result (Appends (K.held out.old) (K.held out.new)
        (phase_text phase.now.number phase.now.served phase.now.outputs)) }
    ensures part { OnErr result (AppendsPrefix (K.held out.old) (K.held out.new)
        (phase_text phase.now.number phase.now.served phase.now.outputs)) }
    ensures cause { IfErr result (λ e. e ≡ WriteError.Fault
        → Rose (K.faults out.old) (K.faults out.new)) }
    ensures steady { SteadyBut WriteError.Fault (K.faults out.old) (K.faults out.new) result }
{
    let mut text = Text::new(alloc)?;
    write_text(&mut text, out, phase)?;
    text.flush(out)?;
    Ok(())
}
