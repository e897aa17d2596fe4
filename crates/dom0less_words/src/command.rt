//! The program's command, as `clap` reads it.
ghost use Rattle.std.specs.Prelude.{◌≡◌, IfOk, IfErr, map, fold, string_bytes, true, false, codes};
ghost use Rattle.std.specs.Option.{option_copied};
ghost use Rattle.clap.specs.Words.{app_of, new_app, with_rule, rule_of, first_of, found_of, rows_of, kind_of};
ghost use Rattle.clap.specs.declared.error.kind.ErrorKind.TheVariants.{OutOfMemory};
ghost use Rattle.dom0less_words.specs.Command.{command, letters, names, is_taken, lettered, named, flag, options, options_in, is_set};
ghost use Rattle.dom0less_words.specs.PrivateKeptOptions.{meant_options};

use crate::options::Options;
use clap::{Arg, ArgAction, ArgMatches, Command, Error};
use std::alloc::{AllocError, Global};

/// The options that the words give, the program's name first.
pub(crate) fn find_options<'a>(alloc: Global, words: &'a [String]) -> Result<Options<'a>, Error>
    ensures taken { IfOk result (λ found. is_taken (map string_bytes words.now) ≡ true) }
    ensures found { IfOk result (λ found. meant_options found ≡ options (map string_bytes words.now)) }
    ensures refused { IfErr result (λ error. is_taken (map string_bytes words.now) ≡ true → kind_of error ≡ OutOfMemory) }
{
    let command = make_command(alloc)?;
    match command.try_get_matches_from(words) {
        Ok(matches) => Ok(options_in(&matches)),
        Err(error) => Err(error),
    }
}

/// What `-c` is for.
const CONFIG_HELP: &str = "Build from this configuration";

/// What `-r` is for.
const SCRIPT_HELP: &str = "Run this boot script on the tree of -b, and build";

/// What `-b` is for.
const TREE_HELP: &str = "The host tree; without -r: build from it as it is";

/// What `-d` is for.
const FILES_HELP: &str = "With -c or -r: the folder of the files that are named there";

/// What `-w` is for.
const OUTPUTS_HELP: &str =
    "With -c, -r or -b: the folder of the outputs, or of the images that are audited";

/// What `-t` is for.
const KIND_HELP: &str =
    "With -c: where the script loads files from, tftp, sd, scsi or usb [default: tftp]";

/// What `--script-only` is for.
const SCRIPT_ONLY_HELP: &str = "With -c: write boot.source and stop";

/// What `--check` is for.
const CHECK_HELP: &str =
    "With -c, -r or -b: audit the images in the folder of -w in place of writing them";

/// What `--show` is for.
const SHOW_HELP: &str = "List this tree";

/// What `--gen` is for.
const GENERATED_HELP: &str =
    "Build the tree that is generated for this number, 0 to 1,000,000, and write no file";

/// What the program is for, as its help begins.
const ABOUT: &str =
    "Builds dom0less boots of Xen: boot scripts, device trees and stage-2 tables of guests, and audits such tables";

/// The modes, with the options that each takes, and an example, as the help ends.
const AFTER_HELP: &str = "Modes, of which exactly one is given:
  -c <CONFIG> [-d <DIR>] [-w <DIR>] [-t <KIND>] [--check]
          Make the boot script of a configuration, run it on the host tree, and build or audit
  -c <CONFIG> --script-only [-d <DIR>] [-w <DIR>] [-t <KIND>]
          Make the boot script of a configuration
  -r <SCRIPT> -b <TREE> [-d <DIR>] [-w <DIR>] [--check]
          Run a boot script on the host tree, and build or audit
  -b <TREE> [-w <DIR>] [--check]
          Build from a host tree as it is, or audit
  --show <TREE>
          List a tree on standard output
  --gen <N>
          Build a generated tree, and say in a line what it needs

A build writes host.dtb and the files of each guest, with -c also boot.source, and puts a report on standard output.
An audit writes no file: it compares the image of each guest with what the guest is planned to be given.

Example:
  dom0less -c config -d files -w out";

/// The command, without its options.
fn new_command<'a>(alloc: Global) -> Command<'a>
    ensures { app_of result ≡ new_app (codes "dom0less") }
{
    Command::new(alloc, "dom0less")
        .about(ABOUT)
        .after_help(AFTER_HELP)
}

/// The command with the options that have a letter.
fn with_letters<'a>(alloc: Global, command: Command<'a>) -> Result<Command<'a>, AllocError>
    ensures { IfOk result (λ made. app_of made ≡ fold with_rule (app_of command.entry) letters) }
{
    let made = command
        .arg(lettered(alloc, "config", 'c', "CONFIG", CONFIG_HELP))?
        .arg(lettered(alloc, "script", 'r', "SCRIPT", SCRIPT_HELP))?
        .arg(lettered(alloc, "tree", 'b', "TREE", TREE_HELP))?
        .arg(lettered(alloc, "files", 'd', "DIR", FILES_HELP))?
        .arg(lettered(alloc, "outputs", 'w', "DIR", OUTPUTS_HELP))?
        .arg(lettered(alloc, "kind", 't', "KIND", KIND_HELP))?;
    Ok(made)
}

/// The command with the options that have a name.
fn with_names<'a>(alloc: Global, command: Command<'a>) -> Result<Command<'a>, AllocError>
    ensures { IfOk result (λ made. app_of made ≡ fold with_rule (app_of command.entry) names) }
{
    let made = command
        .arg(flag(alloc, "script-only", SCRIPT_ONLY_HELP))?
        .arg(flag(alloc, "check", CHECK_HELP))?
        .arg(named(alloc, "show", "TREE", SHOW_HELP))?
        .arg(named(alloc, "gen", "N", GENERATED_HELP))?;
    Ok(made)
}

/// The command.
fn make_command<'a>(alloc: Global) -> Result<Command<'a>, AllocError>
    ensures { IfOk result (λ made. app_of made ≡ command) }
{
    let lettered = with_letters(alloc, new_command(alloc))?;
    let made = with_names(alloc, lettered)?;
    Ok(made)
}

/// An option of one letter.
fn lettered<'a>(alloc: Global, id: &'a str, letter: char, value: &'a str, help: &'a str) -> Arg<'a>
    ensures rule { rule_of result ≡ lettered id.entry.now letter }
    ensures local { result.global ≡ false }
{
    Arg::new(alloc, id)
        .short(letter)
        .value_name(value)
        .help(help)
}

/// An option with a value.
fn named<'a>(alloc: Global, id: &'a str, value: &'a str, help: &'a str) -> Arg<'a>
    ensures rule { rule_of result ≡ named id.entry.now }
    ensures local { result.global ≡ false }
{
    Arg::new(alloc, id).long(id).value_name(value).help(help)
}

/// A flag.
fn flag<'a>(alloc: Global, id: &'a str, help: &'a str) -> Arg<'a>
    ensures rule { rule_of result ≡ flag id.entry.now }
    ensures local { result.global ≡ false }
{
    Arg::new(alloc, id)
        .long(id)
        .action(ArgAction::SetTrue)
        .help(help)
}

/// The options in these matches.
fn options_in<'a>(matches: &ArgMatches<'a>) -> Options<'a>
    ensures { meant_options result ≡ options_in (rows_of (found_of matches.now)) }
{
    Options {
        config: value_of(matches, "config"),
        script: value_of(matches, "script"),
        tree: value_of(matches, "tree"),
        files: value_of(matches, "files"),
        outputs: value_of(matches, "outputs"),
        kind: value_of(matches, "kind"),
        script_only: is_set(matches, "script-only"),
        check: is_set(matches, "check"),
        show: value_of(matches, "show"),
        generate: value_of(matches, "gen"),
    }
}

/// The value of an option, where it was given.
fn value_of<'a>(matches: &ArgMatches<'a>, id: &str) -> Option<&'a str>
    ensures { option_copied result ≡ first_of id.now (rows_of (found_of matches.now)) }
{
    matches.get_str(id)
}

/// The flag was given.
fn is_set(matches: &ArgMatches<'_>, id: &str) -> bool
    ensures { result ≡ is_set id.now (rows_of (found_of matches.now)) }
{
    match value_of(matches, id) {
        Some(value) => value == "true",
        None => false,
    }
}
