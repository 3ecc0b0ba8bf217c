//! The words of the command.

ghost use Rattle.std.specs.Prelude.{◌≡◌, ◌++◌, ◌∷◌, false, Some, codes, not, IfOk, option_and_then, option_copied, string_bytes};
ghost use Rattle.std.specs.List.{list_all};
ghost use Rattle.clap.specs.Words.{app_of, found_of, rows_of, rule_of, subcommand_rows_of};
ghost use Rattle.cell_words.specs.Parser.{Answers, asked_of, mmscell, run_found, stress_found, wanted};
ghost use Rattle.cell_words.specs.Words.{command_of, is_digit, is_option, is_refused, names, number_in, options_in, replay_of, run_of, run_with, stress_of, stress_with, texts};

use crate::options::{four_options, one_option, text_of};
use clap::error::ErrorKind;
use clap::{Arg, ArgAction, ArgMatches};
use std::alloc::{AllocError, Global};

/// What the words may ask.
#[derive(Clone, Copy, Drop)]
pub enum Command {
    /// A recording is served on one thread, in its own order.
    Replay,
    /// A recording is served by so many workers, from 1 to 16.
    Run {
        workers: u32,
    },
    /// The device is tried on threads: a recording that is made of the seed, which is any number, is served by so many
    /// workers, from 1 to 16. So many clients, from 1 to 64, contend in it for so many rounds, from 1 to 1,000.
    Stress {
        seed: u64,
        clients: u32,
        rounds: u32,
        workers: u32,
    },
}

/// An option that the words have to give.
fn wanted<'a>(alloc: Global, name: &'a str) -> Arg<'a>
    ensures rule { rule_of result ≡ wanted name.now }
    ensures local { result.global ≡ false }
{
    Arg::new(alloc, name)
        .long(name)
        .required(true)
        .action(ArgAction::Set)
}

/// The parser of the words.
fn app<'a>(alloc: Global) -> Result<clap::Command<'a>, AllocError>
    ensures { IfOk result (λ c. app_of c ≡ mmscell) }
{
    let replay = clap::Command::new(alloc, "replay");
    let run = clap::Command::new(alloc, "run").arg(wanted(alloc, "workers"))?;
    let stress = clap::Command::new(alloc, "stress")
        .arg(wanted(alloc, "seed"))?
        .arg(wanted(alloc, "clients"))?
        .arg(wanted(alloc, "rounds"))?
        .arg(wanted(alloc, "workers"))?;
    clap::Command::new(alloc, "mmscell")
        .no_binary_name(true)
        .disable_help_flag(true)
        .disable_help_subcommand(true)
        .subcommand_required(true)
        .subcommand(replay)?
        .subcommand(run)?
        .subcommand(stress)
}

/// The word is the option of this name, or it and its value.
fn names(option: &str, joined: &str, word: &str) -> bool
    requires { joined.now ≡ option.now ++ codes "=" }
    ensures { result ≡ names option.now word.now }
{
    word == option || word.starts_with(joined)
}

/// The word is an option, or an option and its value.
fn is_option(word: &str) -> bool
    ensures { result ≡ is_option word.now }
{
    names("--seed", "--seed=", word)
        || names("--clients", "--clients=", word)
        || names("--rounds", "--rounds=", word)
        || names("--workers", "--workers=", word)
}

/// The word is refused before the parser is asked.
fn is_refused(word: &str) -> bool
    ensures { result ≡ is_refused word.now }
{
    match word.as_bytes() {
        [] => true,
        [first, ..] => *first == b'-' && !is_option(word),
    }
}

/// No word is refused.
fn are_kept(words: &[String]) -> bool
    ensures { result ≡ list_all (λ w. not (is_refused (string_bytes w))) words.now }
{
    words.iter().all(|word| !is_refused(word.as_str()))
}

/// The octet is a decimal digit.
fn is_digit(octet: u8) -> bool
    ensures { result ≡ is_digit octet }
{
    b'0' <= octet && octet <= b'9'
}

/// All octets are decimal digits.
fn are_digits(octets: &[u8]) -> bool
    ensures { result ≡ list_all is_digit octets.now }
{
    octets.iter().all(|octet| is_digit(*octet))
}

/// The number that the text writes, where it is in range.
fn number(text: &str, least: u64, most: u64) -> Option<u64>
    ensures { result ≡ number_in least most text.now }
{
    if text.is_empty() || text.len() > 20 || !are_digits(text.as_bytes()) {
        return None;
    }
    match text.parse::<u64>() {
        Ok(number) => {
            if least <= number && number <= most {
                Some(number)
            } else {
                None
            }
        }
        Err(_) => None,
    }
}

/// What the parser makes of the words: None where it refuses them.
fn parsed<'a>(alloc: Global, words: &'a [String]) -> Result<Option<ArgMatches<'a>>, AllocError>
    ensures { IfOk result (Answers (texts words.entry.now)) }
{
    let app = app(alloc)?;
    match app.try_get_matches_from(words) {
        Ok(matches) => Ok(Some(matches)),
        Err(error) => {
            if error.kind() == ErrorKind::OutOfMemory {
                Err(AllocError)
            } else {
                Ok(None)
            }
        }
    }
}

/// The number of workers that the text writes, where there is one.
fn workers_in(text: Option<&str>) -> Option<u64>
    ensures { result ≡ option_and_then (number_in 1 16) (option_copied text.entry) }
{
    number(text?, 1, 16)
}

/// `run` with the text of its option.
fn run_with(workers: Option<&str>) -> Option<Command>
    ensures { result ≡ run_with (option_copied workers.entry) }
{
    let workers = workers_in(workers)?;
    Some(Command::Run {
        workers: workers as u32,
    })
}

/// `stress` with the texts of its options.
fn stress_with(
    seed: Option<&str>,
    clients: Option<&str>,
    rounds: Option<&str>,
    workers: Option<&str>,
) -> Option<Command>
    ensures { result ≡ stress_with (option_copied seed.entry) (option_copied clients.entry)
        (option_copied rounds.entry) (option_copied workers.entry) }
{
    let seed = number(seed?, 0, u64::MAX)?;
    let clients = number(clients?, 1, 64)?;
    let rounds = number(rounds?, 1, 1_000)?;
    let workers = workers_in(workers)?;
    Some(Command::Stress {
        seed,
        clients: clients as u32,
        rounds: rounds as u32,
        workers: workers as u32,
    })
}

/// `run` with the option's text of the words that the parser took.
fn run_asked(matches: &ArgMatches<'_>) -> Option<Command>
    ensures { result ≡ run_found (rows_of (found_of matches.now)) }
{
    run_with(matches.get_str("workers"))
}

/// `stress` with the options' texts of the words that the parser took.
fn stress_asked(matches: &ArgMatches<'_>) -> Option<Command>
    ensures { result ≡ stress_found (rows_of (found_of matches.now)) }
{
    stress_with(
        matches.get_str("seed"),
        matches.get_str("clients"),
        matches.get_str("rounds"),
        matches.get_str("workers"),
    )
}

/// What is asked, by the form's word and the options that the parser took.
fn form_asked(form: &str, matches: &ArgMatches<'_>) -> Option<Command>
    ensures { result ≡ asked_of (Some (form.now, rows_of (found_of matches.now))) }
{
    if form == "replay" {
        Some(Command::Replay)
    } else if form == "run" {
        run_asked(matches)
    } else if form == "stress" {
        stress_asked(matches)
    } else {
        None
    }
}

/// What is asked, of words that the parser took.
fn asked(matches: &ArgMatches<'_>) -> Option<Command>
    ensures { result ≡ asked_of (subcommand_rows_of matches.now) }
{
    let (form, inner) = matches.subcommand()?;
    form_asked(form, inner)
}

/// `replay` and the words behind it, which are none.
fn replay_form(rest: &[String]) -> Option<Command>
    ensures { result ≡ replay_of (texts rest.now) }
{
    match rest {
        [] => Some(Command::Replay),
        _ => None,
    }
}

/// `run` and the words behind it.
fn run_form(rest: &[String]) -> Option<Command>
    ensures { result ≡ option_and_then run_of (options_in (texts rest.now)) }
{
    let options = [one_option(rest)?];
    run_with(text_of(&options, "--workers"))
}

/// `stress` and the words behind it.
fn stress_form(rest: &[String]) -> Option<Command>
    ensures { result ≡ option_and_then stress_of (options_in (texts rest.now)) }
{
    let (first, second, third, fourth) = four_options(rest)?;
    let options = [first, second, third, fourth];
    stress_with(
        text_of(&options, "--seed"),
        text_of(&options, "--clients"),
        text_of(&options, "--rounds"),
        text_of(&options, "--workers"),
    )
}

/// The form of the command that has this word first.
fn form_with(form: &str, rest: &[String]) -> Option<Command>
    ensures { result ≡ command_of (form.now ∷ texts rest.now) }
{
    if form == "replay" {
        replay_form(rest)
    } else if form == "run" {
        run_form(rest)
    } else if form == "stress" {
        stress_form(rest)
    } else {
        None
    }
}

/// The form of the command that the words are, found without memory.
fn form_of(words: &[String]) -> Option<Command>
    ensures { result ≡ command_of (texts words.now) }
{
    match words {
        [] => None,
        [form, rest @ ..] => form_with(form.as_str(), rest),
    }
}

/// What the words after the program's name ask for: None where they are no form of the command. The parser reads them;
/// words that it isn't asked, which are no form, and words for which it wants memory are read without.
pub fn command_of(alloc: Global, words: &[String]) -> Option<Command>
    ensures { result ≡ command_of (texts words.now) }
{
    if !are_kept(words) {
        return form_of(words);
    }
    match parsed(alloc, words) {
        Ok(Some(matches)) => asked(&matches),
        Ok(None) => None,
        Err(AllocError) => form_of(words),
    }
}
