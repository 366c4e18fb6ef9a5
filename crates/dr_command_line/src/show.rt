//! The words of `show`.

use crate::errands::Errand;
use crate::words::{FILE, file_of, file_word, output_option, word_of};
use clap::{Arg, ArgMatches, Command, value_parser};
use std::alloc::{AllocError, Global};

const SHOW: &str = "Run a file of commands, and write a page that shows each step";

const FROM: &str = "The record to show from; the setup is always shown";

const STEPS: &str = "How many records to show from there on, counting those of the setup";

/// How many records are shown where the command line does not say it.
const USUAL_STEPS: u64 = 2000;

const SHOW_EXAMPLE: &str = "\
The page needs nothing but a browser:

disruptor show --output page.html examples/two_producers.csv

It has each record with the reply of `disruptor drive`, and after it the ring with
its slots, how far each handler is, what a poll would be answered and a claim given,
and which handlers free slots. Go by the arrow keys, the buttons, the slider or a
click on a record; page.html#step=23 opens at record 23.

Where the file is at fault, the page shows that at its record, and the program ends
as drive does: with 0 where all is done, 1 where the command line is at fault, 2
where the file is at fault, 3 if memory runs out and 4 where reading or writing
failed.";

// An option that takes a number.
fn number_option<'a>(alloc: Global, name: &'a str, help: &'a str, usual: &'a str) -> Arg<'a> {
    Arg::new(alloc, name)
        .long(name)
        .value_name("N")
        .help(help)
        .value_parser(value_parser!(u64))
        .default_value(usual)
}

pub(crate) fn show_command<'a>(alloc: Global) -> Result<Command<'a>, AllocError> {
    Command::new(alloc, "show")
        .about(SHOW)
        .after_help(SHOW_EXAMPLE)
        .arg(number_option(alloc, "from", FROM, "1"))?
        .arg(number_option(alloc, "steps", STEPS, "2000"))?
        .arg(output_option(alloc))?
        .arg(file_word(alloc, FILE))
}

pub(crate) fn show_errand(alloc: Global, matches: &ArgMatches<'_>) -> Result<Errand, AllocError> {
    let file = file_of(alloc, matches)?;
    let from: Option<u64> = matches.get_one("from");
    let steps: Option<u64> = matches.get_one("steps");
    let output = word_of(alloc, matches, "output")?;
    Ok(Errand::Show {
        file,
        from: from.unwrap_or(1),
        steps: steps.unwrap_or(USUAL_STEPS),
        output,
    })
}
