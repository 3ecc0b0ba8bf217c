//! Rows by steps: event lines with what each makes the device send. Each such row is run twice, with all steps in one
//! phase and with each step in a phase of its own.

use crate::number::{number, put_line, put_number};
use anyhow::{Result, bail};
use std::alloc::{AllocError, Global};

/// The lines of a row by steps.
#[derive(Clone, Copy)]
pub(crate) struct Steps<'a> {
    /// The edition that the first line of the recording names.
    edition: &'a str,
    /// The lines of the configuration.
    config: &'a str,
    /// How many clients it has.
    clients: u32,
    /// The steps, a line `<event line> -> <outputs>` each.
    lines: &'a str,
}

/// Which steps share a phase.
#[derive(Clone, Copy)]
pub(crate) enum Phases {
    /// All of them.
    One,
    /// None.
    OneAStep,
}

/// The number of the phase of a step.
fn phase_of(phases: Phases, step: usize) -> usize {
    match phases {
        Phases::One => 0,
        Phases::OneAStep => step,
    }
}

/// The event line of a step, and what it makes the device send.
fn parts_of(line: &str) -> (&str, &str) {
    line.split_once(" -> ").unwrap_or((line, ""))
}

/// How many clients a configuration of these lines has.
fn clients_of(config: &str) -> Result<u32> {
    for line in config.lines() {
        if let Some(clients) = line.strip_prefix("clients = ") {
            return number(clients);
        }
    }
    Ok(4)
}

impl<'a> Steps<'a> {
    /// The steps of these lines, in a recording of this edition: those of the configuration, a line `end`, and then the
    /// steps.
    pub(crate) fn of(edition: &'a str, text: &'a str) -> Result<Steps<'a>> {
        let (config, lines) = match text.strip_prefix("end\n") {
            Some(lines) => ("", lines),
            None => match text.split_once("\nend\n") {
                Some(parts) => parts,
                None => bail!("no line is `end`"),
            },
        };
        let clients = clients_of(config)?;
        Ok(Steps {
            edition,
            config,
            clients,
            lines,
        })
    }

    /// The recording of the steps.
    pub(crate) fn recording(&self, alloc: Global, phases: Phases) -> Result<Vec<u8>, AllocError> {
        let mut text = String::new(alloc);
        put_texts(&mut text, "mms-recording ", self.edition)?;
        text.push_str("config\n")?;
        for line in self.config.lines() {
            put_texts(&mut text, line, "")?;
        }
        text.push_str("end\n")?;
        for (step, line) in self.lines.lines().enumerate() {
            if phase_of(phases, step) > 0 {
                text.push_str("phase\n")?;
            }
            put_texts(&mut text, parts_of(line).0, "")?;
        }
        Ok(text.into_bytes())
    }

    /// The report of the steps.
    pub(crate) fn report(&self, alloc: Global, phases: Phases) -> Result<Vec<u8>> {
        let mut text = String::new(alloc);
        let mut place = 1u64;
        let last = phase_of(phases, self.lines.lines().count().saturating_sub(1));
        for phase in 0..=last {
            put_line(alloc, &mut text, "phase ", (phase as u64).saturating_add(1))?;
            for (step, line) in self.lines.lines().enumerate() {
                if phase_of(phases, step) == phase {
                    put_number(alloc, &mut text, place)?;
                    put_texts(&mut text, " ", parts_of(line).0)?;
                    place = place.saturating_add(1);
                }
            }
            for client in 1..=self.clients {
                self.put_section(alloc, &mut text, phases, phase, client)?;
            }
            place = place.saturating_add(u64::from(self.clients));
        }
        Ok(text.into_bytes())
    }

    /// Puts what the steps of a phase make the device send to a client.
    fn put_section(
        &self,
        alloc: Global,
        text: &mut String,
        phases: Phases,
        phase: usize,
        client: u32,
    ) -> Result<()> {
        let mut is_headed = false;
        for (step, line) in self.lines.lines().enumerate() {
            if phase_of(phases, step) == phase {
                is_headed = put_outputs(alloc, text, line, client, is_headed)?;
            }
        }
        Ok(())
    }
}

/// To whom an output of an event goes, and what is sent.
fn sent_of<'a>(event: &'a str, output: &'a str) -> (&'a str, &'a str) {
    match output.split_once(": ") {
        Some(parts) => parts,
        None => (event.split_once(' ').unwrap_or((event, "")).0, output),
    }
}

/// Puts an output behind the head of its client's section, which is put before it, where that isn't there yet.
fn put_output(
    alloc: Global,
    text: &mut String,
    what: &str,
    client: u32,
    is_headed: bool,
) -> Result<(), AllocError> {
    if !is_headed {
        put_line(alloc, text, "client ", u64::from(client))?;
    }
    put_texts(text, "> ", what)
}

/// Puts what a step makes the device send to a client, `<output>, <client>: <output>`, and the head of the client's
/// section before it, where that isn't there yet. Answers whether it is there then. An output that names no client is
/// sent to the client of the event.
fn put_outputs(
    alloc: Global,
    text: &mut String,
    line: &str,
    client: u32,
    is_headed: bool,
) -> Result<bool> {
    let mut is_headed = is_headed;
    let (event, sent) = parts_of(line);
    for output in sent.split(", ") {
        let (to, what) = sent_of(event, output);
        if !output.is_empty() && number(to)? == client {
            put_output(alloc, text, what, client, is_headed)?;
            is_headed = true;
        }
    }
    Ok(is_headed)
}

/// Puts a line of two texts behind a text.
fn put_texts(text: &mut String, first: &str, second: &str) -> Result<(), AllocError> {
    text.push_str(first)?;
    text.push_str(second)?;
    text.push('\n')
}
